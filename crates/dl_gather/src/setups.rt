//! The setups of a plan's spheres.
ghost use Rattle.std.specs.Prelude.{◌≡◌, All, Ok, IfOk, IfErr, length, map, option_map};
ghost use Rattle.dl_plan.specs.Values.{epochs_view};
ghost use Rattle.dl_sphere.specs.Setups.{HasBegun, IsBegunAs, epoch_setup as epochs_in, role_setup, setup_of as setup_view};
ghost use Rattle.spec_program.specs.Built.{epoch_setup, mode_named, role_of, sphere_of, spheres_of};
ghost use Rattle.dl_gather.specs.Halts.{Refuses};
ghost use Rattle.dl_gather.specs.Inputs.{role_view, sphere_view};
ghost use Rattle.dl_gather.specs.Intervals.{AreAllOrdered, IsOrdered, sphere_on};

use crate::halt::Halt;
use crate::inputs::{RoleInputs, SphereInputs};
use crate::intervals::{begun_of, interval_of};
use crate::logs::good_log;
use crate::strata::role_in_strata;
use dl_elf::Image;
use dl_logfmt::ModeName;
use dl_plan::Mode;
use dl_sphere::{Epochs, Replay, Role, SphereSetup};
use std::alloc::Global;

/// Each sphere with its image and its role; the first log or strata that can't be replayed are refused.
pub fn setups_of(
    alloc: Global,
    images: Vec<Image>,
    inputs: Vec<SphereInputs>,
) -> Result<Vec<SphereSetup>, Halt>
    requires count { length images.items ≡ length inputs.items }
    requires order { AreAllOrdered (map sphere_view inputs.items) }
    ensures spheres { IfOk result (λ spheres. spheres_of 0 (map sphere_view inputs.items) images.items
        ≡ Ok (map setup_view spheres.items)) }
    ensures count { IfOk result (λ spheres. length spheres.items ≡ length inputs.items) }
    ensures begun { IfOk result (λ spheres. All HasBegun spheres.items) }
    ensures halt { IfErr result (Refuses (spheres_of 0 (map sphere_view inputs.items) images.items)) }
{
    let mut spheres = Vec::new(alloc);
    let mut images = images.into_iter();
    for input in inputs {
        let image = match images.next() {
            Some(image) => image,
            None => unreachable!(),
        };
        let sphere = setup_of(alloc, spheres.len(), image, input)?;
        match spheres.push(sphere) {
            Ok(()) => {}
            Err(_) => return Err(Halt::OutOfMemory),
        }
    }
    Ok(spheres)
}

// The sphere of that number.
fn setup_of(
    alloc: Global,
    number: usize,
    image: Image,
    input: SphereInputs,
) -> Result<SphereSetup, Halt>
    requires { IsOrdered (role_view input.role) }
    ensures sphere { IfOk result (λ sphere. sphere_of number (sphere_view input) image ≡ Ok (setup_view sphere)) }
    ensures begun { IfOk result HasBegun }
    ensures halt { IfErr result (Refuses (sphere_of number (sphere_view input) image)) }
{
    let role = role_of(alloc, number, &image, input.role)?;
    Ok(SphereSetup { image, role })
}

// Its role, on its image.
fn role_of(alloc: Global, number: usize, image: &Image, role: RoleInputs) -> Result<Role, Halt>
    requires { IsOrdered (role_view role) }
    ensures role { IfOk result (λ r. role_of number image.now (role_view role) ≡ Ok (role_setup r)) }
    ensures begun { IfOk result (λ r. IsBegunAs (sphere_on image.now (role_setup r)) r) }
    ensures halt { IfErr result (Refuses (role_of number image.now (role_view role))) }
{
    match role {
        RoleInputs::Plain => Ok(Role::Plain),
        RoleInputs::Record {
            version,
            mode,
            epochs,
        } => Ok(Role::Record {
            version,
            mode: mode_named(mode),
            epochs: epochs_of(epochs),
        }),
        RoleInputs::Replay { log, from, to } => {
            let log = good_log(alloc, number, log)?;
            let begun = begun_of(alloc, image, &log, interval_of(from, to, log.parts().count))?;
            Ok(Role::Replay(Replay::Log { log, begun }))
        }
        RoleInputs::InStrata { strata } => role_in_strata(alloc, number, image, &strata),
    }
}

// The epochs, as a sphere has them.
fn epochs_of(epochs: Option<dl_plan::Epochs>) -> Option<Epochs>
    ensures { option_map epochs_in result ≡ option_map epoch_setup (option_map epochs_view epochs) }
{
    match epochs {
        Some(epochs) => Some(Epochs {
            size: epochs.size,
            keep: epochs.keep,
        }),
        None => None,
    }
}

// The mode, as logs name it.
fn mode_named(mode: Mode) -> ModeName
    ensures { result ≡ mode_named mode }
{
    match mode {
        Mode::OrderSize => ModeName::OrderSize,
        Mode::OrderOnly => ModeName::OrderOnly,
        Mode::Picolog => ModeName::Picolog,
    }
}
