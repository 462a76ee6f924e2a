//! Logs made version 2.
ghost use Rattle.std.specs.Prelude.{◌≡◌, IfOk};
ghost use Rattle.spec_log.specs.Migration.{migrated};

use crate::copying::copy_parts;
use dl_entry::OutOfMemory;
use spec_log::{Log, LogParts};
use std::alloc::Global;

/// The log in version 2, with as many threads as before and all else equal; a log of version 2 as it is.
pub fn migrate_log(alloc: Global, log: &Log) -> Result<Log, OutOfMemory>
    ensures { IfOk result (λ made. made ≡ migrated log.now) }
{
    let parts = copy_parts(alloc, log.parts())?;
    Ok(Log::new(LogParts {
        version: 2,
        ..parts
    }))
}
