//! Strata that are replayed on an image.
ghost use Rattle.std.specs.Prelude.{◌≡◌, Ok, IfOk, IfErr};
ghost use Rattle.spec_sphere.specs.sphere.Setups.{IsReplayed};
ghost use Rattle.spec_strata.specs.Checking.{Parallel, answer_of};
ghost use Rattle.spec_strata.specs.Reading.{read_of};
ghost use Rattle.dl_sphere.specs.Setups.{IsBegunAs, replay_setup, role_setup};
ghost use Rattle.spec_program.specs.Built.{bad_strata, role_in_strata, role_of};
ghost use Rattle.spec_program.specs.Files.{StrataRead};
ghost use Rattle.spec_program.specs.Stages.{refusing};
ghost use Rattle.dl_gather.specs.Halts.{Refuses};
ghost use Rattle.dl_gather.specs.Intervals.{sphere_on};

use crate::halt::Halt;
use crate::lines::bad_strata_line;
use dl_elf::Image;
use dl_entry::OutOfMemory;
use dl_sphere::{ReadyStrata, Replay, Role};
use dl_strata::{CheckError, Strata, StrataError, check_strata, read_strata};
use spec_program::status::Refusal;
use std::alloc::Global;
use std::rc::Rc;

/// The role that replays the strata in these bytes. Their first bad field is refused, and so are strata that aren't parallel on
/// the image: by the first commit that doesn't fit, or else by the first that conflicts.
pub fn role_in_strata(
    alloc: Global,
    sphere: usize,
    image: &Image,
    bytes: &[u8],
) -> Result<Role, Halt>
    ensures role { IfOk result (λ r. role_of sphere image.now (StrataRead (read_of bytes.now)) ≡ Ok (role_setup r)) }
    ensures begun { IfOk result (λ r. IsBegunAs (sphere_on image.now (role_setup r)) r) }
    ensures halt { IfErr result (Refuses (role_of sphere image.now (StrataRead (read_of bytes.now)))) }
{
    let strata = good_strata(alloc, sphere, bytes)?;
    check(alloc, sphere, image, &strata)?;
    let shared = shared(alloc, strata)?;
    Ok(Role::Replay(Replay::Strata(shared)))
}

// Strata that are ready to be replayed, and can have more owners.
fn shared(alloc: Global, strata: Strata) -> Result<Rc<ReadyStrata>, OutOfMemory>
    ensures { IfOk result (λ shared. shared.value ≡ strata) }
{
    let ready = ReadyStrata::new(alloc, strata)?;
    Ok(Rc::new(alloc, ready)?)
}

// The strata in these bytes.
fn good_strata(alloc: Global, sphere: usize, bytes: &[u8]) -> Result<Strata, Halt>
    ensures strata { IfOk result (λ v. refusing (bad_strata sphere) (read_of bytes.now) ≡ Ok v) }
    ensures halt { IfErr result (Refuses (refusing (bad_strata sphere) (read_of bytes.now))) }
{
    match read_strata(alloc, bytes) {
        Ok(strata) => Ok(strata),
        Err(StrataError::Malformed(fault)) => Err(Halt::Refused(
            Refusal::Grammar,
            bad_strata_line(alloc, sphere, fault.number, fault.offset)?,
        )),
        Err(StrataError::OutOfMemory) => Err(Halt::OutOfMemory),
    }
}

// Whether they are parallel on the image.
fn check(alloc: Global, sphere: usize, image: &Image, strata: &Strata) -> Result<(), Halt>
    ensures parallel { IfOk result (λ done. answer_of strata.now image.now.bytes image.now.entry ≡ Parallel) }
    ensures halt { IfErr result (Refuses (role_in_strata sphere strata.now
        (answer_of strata.now image.now.bytes image.now.entry))) }
{
    match check_strata(alloc, image, strata) {
        Ok(()) => Ok(()),
        Err(CheckError::Conflict(commit)) => Err(Halt::Refused(
            Refusal::Grammar,
            bad_strata_line(alloc, sphere, 8, commit as u64)?,
        )),
        Err(CheckError::Unfit(commit)) => Err(Halt::Refused(
            Refusal::Grammar,
            bad_strata_line(alloc, sphere, 9, commit as u64)?,
        )),
        Err(CheckError::OutOfMemory) => Err(Halt::OutOfMemory),
    }
}
