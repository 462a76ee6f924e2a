//! The two machines of a drill.
ghost use Rattle.std.specs.Prelude.{◌≡◌, ◌∷◌, [], All, None, IfOk, length, map};
ghost use Rattle.dl_machine.specs.Setups.{IsWithin, setup_in};
ghost use Rattle.dl_sphere.specs.Setups.{HasBegun, begun_as, role_setup, setup_of, strata_as};
ghost use Rattle.spec_program.specs.Drills.{drill_image, drill_sphere, recorded_log, recording, replaying};

use dl_elf::{ElfError, Image, load};
use dl_entry::{Bytes, OutOfMemory, Sequence};
use dl_machine::Setup;
use dl_make::make;
use dl_sphere::{Replay, Role, SphereSetup};
use spec_log::{Log, ModeName};
use std::alloc::Global;

/// Four cores record the image of the number, which is the seed too.
pub fn recording_setup(alloc: Global, number: u32) -> Result<Setup, OutOfMemory>
    ensures value { IfOk result (λ s. setup_in s ≡ recording number) }
    ensures within { IfOk result IsWithin }
{
    let role = Role::Record {
        version: 1,
        mode: ModeName::OrderOnly,
        epochs: None,
    };
    let spheres = one_sphere(alloc, number, role)?;
    Ok(Setup {
        cores: 4,
        window: 2,
        s: 64,
        capacity: 8,
        bits: 128,
        depth: 1,
        seed: u64::from(number),
        input: Bytes::new(alloc),
        spheres,
    })
}

/// One core replays the log on the same image.
pub fn replaying_setup(alloc: Global, number: u32, log: Log) -> Result<Setup, OutOfMemory>
    requires { log ≡ recorded_log number }
    ensures value { IfOk result (λ s. setup_in s ≡ replaying number) }
    ensures within { IfOk result IsWithin }
{
    let role = Role::Replay(Replay::Log { log, begun: None });
    let spheres = one_sphere(alloc, number, role)?;
    Ok(Setup {
        cores: 1,
        window: 1,
        s: 64,
        capacity: 1,
        bits: 64,
        depth: 1,
        seed: 0,
        input: Bytes::new(alloc),
        spheres,
    })
}

// A sphere in that role, with the image of the number.
fn one_sphere(alloc: Global, number: u32, role: Role) -> Result<Sequence<SphereSetup>, OutOfMemory>
    requires begun { begun_as role ≡ None }
    requires strata { strata_as role ≡ None }
    ensures value { IfOk result (λ spheres. map setup_of spheres ≡ drill_sphere number (role_setup role) ∷ []) }
    ensures count { IfOk result (λ spheres. length spheres ≡ 1) }
    ensures begun { IfOk result (λ spheres. All HasBegun spheres) }
{
    let image = image(alloc, number)?;
    let mut spheres = Sequence::new(alloc);
    spheres.push(SphereSetup { image, role })?;
    Ok(spheres)
}

fn image(alloc: Global, number: u32) -> Result<Image, OutOfMemory>
    ensures { IfOk result (λ image. image ≡ drill_image number) }
{
    let file = make(alloc, number)?;
    match load(alloc, &file, 4096) {
        Ok(image) => Ok(image),
        Err(ElfError::OutOfMemory) => Err(OutOfMemory),
        Err(ElfError::Refused(_)) => unreachable!(),
    }
}
