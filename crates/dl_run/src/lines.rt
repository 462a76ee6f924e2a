//! What the summary says of each sphere.
ghost use Rattle.std.specs.Prelude.{◌≡◌, ◌<◌, List, IfOk, length};
ghost use Rattle.spec_play.specs.Plays.{Played};
ghost use Rattle.spec_protocol.specs.declared.event.Event.{Event};
ghost use Rattle.spec_protocol.specs.machine.Logged.{sphere_in};
ghost use Rattle.spec_protocol.specs.promises.Sound.{image_at};
ghost use Rattle.spec_run.specs.Runs.{diverges, diverges_as, executed, has_diverged};
ghost use Rattle.spec_run.specs.Texts.{line_as, line_of_end, lines_of, replay_line};
ghost use Rattle.dl_run.specs.Ran.{IsOver};

use crate::run::Run;
use dl_entry::{End, OutOfMemory, SphereLine};
use dl_sphere::Role;
use spec_play::Interval;
use std::alloc::Global;

impl Run {
    /// Whether any replayed sphere has left its log.
    pub fn diverged(&self) -> bool
        ensures { result ≡ diverges self.now.setup.spheres }
    {
        for sphere in 0..self.setup.spheres.len() {
            if self.has_diverged(sphere) {
                return true;
            }
        }
        false
    }

    // Whether this one has.
    fn has_diverged(&self, sphere: usize) -> bool
        requires { sphere < length self.now.setup.spheres }
        ensures { let image = image_at self.now.setup sphere in result ≡ diverges_as image image.role }
    {
        match self.role(sphere) {
            Role::Plain | Role::Record { .. } => false,
            Role::Replay(_) => is_divergence(self.end(sphere)),
        }
    }

    /// The line of each sphere.
    pub(crate) fn lines(&self, alloc: Global) -> Result<Vec<SphereLine>, OutOfMemory>
        ensures { IfOk result (λ lines. (es : List Event) → IsOver es self.now → lines.items ≡ lines_of self.now.setup es) }
    {
        let mut lines = Vec::new(alloc);
        for sphere in 0..self.setup.spheres.len() {
            lines.push(self.line(sphere))?;
        }
        Ok(lines)
    }

    // The line of one sphere.
    fn line(&self, sphere: usize) -> SphereLine
        requires { sphere < length self.now.setup.spheres }
        ensures { (es : List Event) → IsOver es self.now →
            let image = image_at self.now.setup sphere in
            result ≡ line_as image (sphere_in (executed self.now.setup es) sphere) image.role }
    {
        match self.role(sphere) {
            Role::Plain => SphereLine::Plain(self.commits(sphere)),
            Role::Record { .. } => SphereLine::Record(self.commits(sphere)),
            Role::Replay(replay) => {
                let commits = self.since_first(sphere);
                replay_line(replay.interval(), commits, self.end(sphere))
            },
        }
    }
}

// What is said of a replay: of an interval's how many commits it did, and how it ended.
fn replay_line(interval: Option<Interval>, commits: u32, end: End) -> SphereLine
    ensures { (y : Played) → commits ≡ length y.progress.commits → result ≡ replay_line interval y end }
{
    match interval {
        Some(_) => SphereLine::Interval(commits, end),
        None => line_of_end(end),
    }
}

fn line_of_end(end: End) -> SphereLine
    ensures { result ≡ line_of_end end }
{
    match end {
        End::Complete(commits) | End::At(commits) => SphereLine::Complete(commits),
        End::Diverged(index, why) => SphereLine::Diverged(index, why),
    }
}

fn is_divergence(end: End) -> bool
    ensures { result ≡ has_diverged end }
{
    match end {
        End::Complete(_) | End::At(_) => false,
        End::Diverged(..) => true,
    }
}
