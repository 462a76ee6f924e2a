//! The images of a plan's spheres.
ghost use Rattle.std.specs.Prelude.{◌≡◌, Ok, IfOk, IfErr, length, map};
ghost use Rattle.dl_plan.specs.Values.{IsMemory};
ghost use Rattle.dl_elf.specs.Loading.{image_of};
ghost use Rattle.spec_program.specs.Built.{bad_image, image_read, images_of};
ghost use Rattle.spec_program.specs.Stages.{refusing};
ghost use Rattle.dl_gather.specs.Halts.{Refuses};
ghost use Rattle.dl_gather.specs.Inputs.{HaveMemories, sphere_view};

use crate::halt::Halt;
use crate::inputs::SphereInputs;
use crate::lines::image_line;
use dl_elf::{ElfError, Image, load};
use spec_program::status::Refusal;
use std::alloc::Global;

/// The image of each sphere; the first that breaks a rule is refused.
pub fn load_images(alloc: Global, inputs: &[SphereInputs]) -> Result<Vec<Image>, Halt>
    requires { HaveMemories (map sphere_view inputs.now) }
    ensures images { IfOk result (λ images. images_of 0 (map sphere_view inputs.now) ≡ Ok images.items) }
    ensures count { IfOk result (λ images. length images.items ≡ length inputs.now) }
    ensures halt { IfErr result (Refuses (images_of 0 (map sphere_view inputs.now))) }
{
    let mut images = Vec::new(alloc);
    for (i, input) in inputs.iter().enumerate() {
        let image = load_one(alloc, i, input)?;
        match images.push(image) {
            Ok(()) => {}
            Err(_) => return Err(Halt::OutOfMemory),
        }
    }
    Ok(images)
}

// That of the sphere of that number.
fn load_one(alloc: Global, number: usize, input: &SphereInputs) -> Result<Image, Halt>
    requires { IsMemory input.now.memory }
    ensures image { IfOk result (λ image. image_read number (sphere_view input.now) ≡ Ok image) }
    ensures halt { IfErr result (Refuses (image_read number (sphere_view input.now))) }
{
    load_image(alloc, number, &input.image, input.memory)
}

/// The image of the sphere of that number, in a memory of that size; the first rule that the file breaks is refused.
pub fn load_image(alloc: Global, number: usize, file: &[u8], memory: u32) -> Result<Image, Halt>
    requires { IsMemory memory }
    ensures image { IfOk result (λ image. refusing (bad_image number) (image_of file.now memory) ≡ Ok image) }
    ensures halt { IfErr result (Refuses (refusing (bad_image number) (image_of file.now memory))) }
{
    match load(alloc, file, memory) {
        Ok(image) => Ok(image),
        Err(ElfError::Refused(rule)) => Err(Halt::Refused(
            Refusal::Image,
            image_line(alloc, number, rule)?,
        )),
        Err(ElfError::OutOfMemory) => Err(Halt::OutOfMemory),
    }
}
