//! Turns of threads, while picolog is recorded.
ghost use Rattle.std.specs.Prelude.{◌≡◌, map};
ghost use Rattle.spec_kernel.specs.Interrupts.{is_live};
ghost use Rattle.spec_log.specs.Head.{turn as turn_of};

use dl_kernel::{State, live_of};

// The next live thread after the last that committed, cyclic; at first from thread 0 on.
pub(crate) fn turn(state: &State) -> Option<u8>
    ensures { result ≡ turn_of state.now.last (map is_live state.now.threads) }
{
    let live = live_of(&state.threads);
    dl_mode::turn(state.last, &live[..usize::from(state.threads.len())])
}
