//! The texts of a run that is over.
ghost use Rattle.std.specs.Prelude.{◌≡◌, ◌<◌, List, None, Some, IfOk, length};
ghost use Rattle.dl_account.specs.CommitLists.{commits_in};
ghost use Rattle.dl_kernel.specs.InOrder.{listed};
ghost use Rattle.spec_protocol.specs.declared.event.Event.{Event};
ghost use Rattle.spec_sphere.specs.sphere.Setups.{EpochSetup, RecordSetup, IsRecorded};
ghost use Rattle.spec_protocol.specs.promises.Sound.{image_at};
ghost use Rattle.spec_run.specs.Texts.{account_text as account_of, console_text, log_of_points, log_text, report_text as report_of, summary_text as summary_of};
ghost use Rattle.spec_run.specs.Tails.{is_recorded_whole, tail_of_points};
ghost use Rattle.dl_run.specs.declared.texts.SphereLog.TheVariants.{Tail as TailOf};
ghost use Rattle.dl_run.specs.Logs.{bytes_of, is_whole};
ghost use Rattle.dl_run.specs.Ran.{IsOver};

use crate::run::Run;
use dl_account::{CommitLists, account_text, report_text, summary_text};
use dl_entry::OutOfMemory;
use dl_kernel::InOrder;
use dl_sphere::Role;
use dl_tail::Tail;
use spec_log::Log;
use std::alloc::Global;

/// What a sphere has as its log.
#[derive(Drop)]
pub enum SphereLog {
    /// It isn't recorded.
    None,
    /// It is recorded whole.
    Whole(Log),
    /// It is recorded in epochs.
    Tail(Tail),
}

impl Run {
    /// A sphere's log.
    pub fn log(&self, alloc: Global, sphere: usize) -> Result<SphereLog, OutOfMemory>
        requires { sphere < length self.now.setup.spheres }
        ensures bytes { IfOk result (λ log. (es : List Event) → IsOver es self.now
            → bytes_of log ≡ log_text self.now.setup es sphere) }
        ensures whole { IfOk result (λ log. is_whole log ≡ is_recorded_whole (image_at self.now.setup sphere).role) }
        ensures tail { IfOk result (λ log. (es : List Event) (asked : RecordSetup) (x : EpochSetup) → IsOver es self.now
            → (image_at self.now.setup sphere).role ≡ IsRecorded asked → asked.epochs ≡ Some x
            → log ≡ TailOf (tail_of_points self.now.setup es sphere asked x)) }
    {
        match self.role(sphere) {
            Role::Plain | Role::Replay(_) => Ok(SphereLog::None),
            Role::Record { epochs, .. } => match epochs {
                None => Ok(SphereLog::Whole(self.recording(sphere)?)),
                Some(_) => Ok(SphereLog::Tail(self.tail(alloc, sphere)?)),
            },
        }
    }

    /// The log of a sphere that is recorded whole.
    pub fn recording(&self, sphere: usize) -> Result<Log, OutOfMemory>
        requires inside { sphere < length self.now.setup.spheres }
        requires recorded { (asked : RecordSetup) × ((image_at self.now.setup sphere).role ≡ IsRecorded asked) × (asked.epochs ≡ None) }
        ensures { IfOk result (λ log. (es : List Event) (asked : RecordSetup) → IsOver es self.now
            → (image_at self.now.setup sphere).role ≡ IsRecorded asked → asked.epochs ≡ None
            → log ≡ log_of_points self.now.setup es sphere asked) }
    {
        self.sphere(sphere).log()
    }

    /// The account of a sphere.
    pub fn account(&self, alloc: Global, sphere: usize) -> Result<Vec<u8>, OutOfMemory>
        requires { sphere < length self.now.setup.spheres }
        ensures { IfOk result (λ text. (es : List Event) → IsOver es self.now → text.items ≡ account_of self.now.setup es sphere) }
    {
        let end = self.end(sphere);
        let sphere = self.sphere(sphere);
        account_text(
            alloc,
            lists_of(sphere.commits()),
            sphere.threads(),
            &sphere.request(),
            sphere.memory(),
            &end,
            sphere.first(),
        )
    }

    /// The bytes of the console.
    pub fn console(&self, alloc: Global) -> Result<Vec<u8>, OutOfMemory>
        ensures { IfOk result (λ text. (es : List Event) → IsOver es self.now → text.items ≡ console_text self.now.setup es) }
    {
        Ok(Vec::from_slice(alloc, self.machine.console())?)
    }

    /// The report: the points, the replies and the summary.
    pub fn report(&self, alloc: Global) -> Result<Vec<u8>, OutOfMemory>
        ensures { IfOk result (λ text. (es : List Event) → IsOver es self.now → text.items ≡ report_of self.now.setup es) }
    {
        let lines = self.lines(alloc)?;
        report_text(alloc, self.machine.points(), self.machine.counts(), &lines)
    }

    /// The summary.
    pub fn summary(&self, alloc: Global) -> Result<Vec<u8>, OutOfMemory>
        ensures { IfOk result (λ text. (es : List Event) → IsOver es self.now → text.items ≡ summary_of self.now.setup es) }
    {
        let lines = self.lines(alloc)?;
        summary_text(alloc, self.machine.counts(), &lines)
    }
}

// A sphere's commits, as its account takes them.
fn lists_of(commits: &InOrder) -> CommitLists<'_>
    ensures { commits_in result ≡ listed commits.now }
{
    CommitLists {
        whole: commits.whole(),
        by_thread: commits.by_thread(),
    }
}
