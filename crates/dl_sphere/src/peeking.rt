//! What a DMA of a sphere that isn't replayed would do.
ghost use Rattle.std.specs.Prelude.{◌≡◌, ◌^◌, IfOk, IfSome, IsSome, min, length, Some, None, []};
ghost use Rattle.spec_kernel.specs.Answers.{dma_bytes};
ghost use Rattle.spec_kernel.specs.Copies.{dma_words};
ghost use Rattle.spec_sphere.specs.promises.Sound.{IsSoundIf};

use dl_dev::Devices;
use dl_entry::{OutOfMemory, Request};
use dl_kernel::dma_words;
use dl_wbuf::Buffer;
use std::alloc::Global;

// How many bytes it would store: as many as are asked for or are left.
pub(crate) fn live_size(request: Option<Request>, input_left: u32) -> u32
    requires { IsSome request }
    ensures { IfSome request (λ r. result ≡ min r.len input_left) }
{
    match request {
        Some(request) => request.len.min(input_left),
        None => unreachable!(),
    }
}

// The words that it would store, none where it isn't asked for.
pub(crate) fn live_words(
    alloc: Global,
    request: Option<Request>,
    devices: &Devices,
) -> Result<Buffer, OutOfMemory>
    requires { IsSoundIf (2 ^ 24) request }
    ensures words { IfOk result (λ b. IfSome request (λ r. b.words ≡ dma_words r (dma_bytes devices.now r))) }
    ensures none { IfOk result (λ b. request ≡ None → b.words ≡ []) }
{
    let Some(request) = request else {
        return Ok(Buffer::new(alloc, 1)?);
    };
    let count = request.len.min(devices.input_left());
    dma_words(alloc, &request, &devices.input()[..count as usize])
}
