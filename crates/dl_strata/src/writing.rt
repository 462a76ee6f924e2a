//! Strata written as bytes.
ghost use Rattle.std.specs.Prelude.{◌≡◌, ◌++◌, IfOk, OnOk};
ghost use Rattle.std.specs.List.{flat_map};
ghost use Rattle.spec_strata.specs.Bytes.{strata_bytes, stratum_bytes};

use crate::header::header;
use crate::runs::stratum_unit;
use crate::sections::{put_sections, put_unit};
use dl_entry::OutOfMemory;
use spec_strata::{Strata, Stratum};
use std::alloc::Global;

/// The bytes of strata.
pub fn write_strata(alloc: Global, strata: &Strata) -> Result<Vec<u8>, OutOfMemory>
    ensures { IfOk result (λ bytes. bytes.items ≡ strata_bytes strata.now) }
{
    let parts = strata.parts();
    let mut out = Vec::new(alloc);
    put_unit(&header(parts), &mut out)?;
    put_runs(parts.strata.as_slice(), &mut out)?;
    put_sections(parts, &mut out)?;
    Ok(out)
}

/// Puts the bytes of the runs after others.
fn put_runs(runs: &[Stratum], out: &mut Vec<u8>) -> Result<(), OutOfMemory>
    ensures { OnOk result (out.new.items ≡ out.old.items ++ flat_map stratum_bytes runs.now) }
{
    for run in runs {
        put_unit(&stratum_unit(run), out)?;
    }
    Ok(())
}
