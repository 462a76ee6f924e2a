//! `make NUMBER NAME`: a generated image under a name.
ghost use Rattle.std.specs.Prelude.{◌≡◌, IfOk};
ghost use Rattle.spec_program.specs.commands.Make.{finish};
ghost use Rattle.dl_commands.specs.Jobs.{finish_of};

use crate::job::{Job, filed};
use dl_entry::OutOfMemory;
use dl_gather::made_line;
use dl_make::make;
use std::alloc::Global;

/// The generated image of the number, to be written under the name.
pub fn make_image(alloc: Global, number: u32, name: &str) -> Result<Job, OutOfMemory>
    ensures { IfOk result (λ job. finish_of job ≡ finish number name.now) }
{
    let image = make(alloc, number)?;
    let text = made_line(alloc, image.len())?;
    filed(alloc, name, image, text)
}
