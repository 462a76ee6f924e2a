//! `migrate LOG NAME`: a log in version 2 under a name.
ghost use Rattle.std.specs.Prelude.{◌≡◌, Some, IfOk, IfErr, OnOk};
ghost use Rattle.dl_files.specs.Contents.{Contents};
ghost use Rattle.dl_words.specs.Commands.{Migrate};
ghost use Rattle.spec_program.specs.commands.Migrate.{finish, outcome, reads};
ghost use Rattle.dl_gather.specs.Halts.{Halts, IsNotUsage};
ghost use Rattle.dl_commands.specs.Jobs.{IsJobOf, finish_of};
ghost use Rattle.dl_commands.specs.Untold.{MayFinish};

use crate::job::{Job, logged};
use dl_entry::OutOfMemory;
use dl_files::Files;
use dl_gather::{Halt, migrated_line, read_good_log};
use dl_logfmt::{Log, migrate_log};
use dl_logio::log_length;
use std::alloc::Global;

/// The log in that file, to be written in version 2 under the name.
pub fn migrate<F: Files>(alloc: Global, files: &mut F, log: &str, name: &str) -> Result<Job, Halt>
    ensures job { IfOk result (λ job. (m : Contents) → (F.seen files.old).known ≡ Some m
        → IsJobOf (outcome m log.now name.now) job) }
    ensures may { IfOk result (λ job.
        MayFinish (F.seen files.old).known (Migrate log.now name.now) (finish_of job)) }
    ensures halt { IfErr result (Halts (λ m. outcome m log.now name.now) (λ m. reads log.now)
        (F.seen files.old) (F.seen files.new)) }
    ensures usage { IfErr result IsNotUsage }
    ensures same { OnOk result (F.seen files.new ≡ F.seen files.old) }
{
    let log = read_good_log(alloc, files, log)?;
    Ok(migration(alloc, &log, name)?)
}

fn migration(alloc: Global, log: &Log, name: &str) -> Result<Job, OutOfMemory>
    ensures { IfOk result (λ job. finish_of job ≡ finish name.now log.now) }
{
    let migrated = migrate_log(alloc, log)?;
    let text = migrated_line(alloc, log_length(&migrated))?;
    logged(alloc, name, migrated, text)
}
