//! The DMA of a sphere that isn't replayed.
ghost use Rattle.std.specs.Prelude.{◌≡◌, ◌^◌, None, Some, false, IfOk, OnOk, OnErr, length};
ghost use Rattle.spec_kernel.specs.Answers.{dma_bytes, dma_taken};
ghost use Rattle.spec_kernel.specs.Copies.{dma_words};
ghost use Rattle.spec_play.specs.Effects.{dma_commit};
ghost use Rattle.spec_sphere.specs.promises.Sound.{IsSoundRequest};
ghost use Rattle.dl_sphere.specs.Roles.{keeping_of, with_noted, CanNote};

use crate::part::{Part, note};
use dl_dev::Devices;
use dl_entry::{OutOfMemory, Request};
use dl_kernel::{dma_commit, dma_words};
use dl_wbuf::Buffer;
use std::alloc::Global;

// Notes the commit of a DMA with its bytes where the sphere is recorded, and takes these from the input; or does nothing of that.
pub(crate) fn live_dma(
    alloc: Global,
    part: &mut Part,
    request: &Request,
    devices: &mut Devices,
) -> Result<Buffer, OutOfMemory>
    requires note { CanNote dma_commit false (keeping_of part.old) }
    requires request { IsSoundRequest (2 ^ 24) request.now }
    ensures words { IfOk result (λ b. b.words ≡ dma_words request.now (dma_bytes devices.old request.now)) }
    ensures noted { OnOk result (keeping_of part.new ≡ with_noted dma_commit false None (Some (dma_bytes devices.old request.now)) (keeping_of part.old)) }
    ensures devices { OnOk result (devices.new ≡ dma_taken devices.old request.now) }
    ensures part_still { OnErr result (keeping_of part.new ≡ keeping_of part.old) }
    ensures devices_still { OnErr result (devices.new ≡ devices.old) }
{
    let count = request.len.min(devices.input_left());
    let bytes = &devices.input()[..count as usize];
    let words = dma_words(alloc, request, bytes)?;
    note(part, &dma_commit(alloc), false, Some(bytes))?;
    devices.input_take(request.len);
    Ok(words)
}
