//! The questions. The commits and their stores are those of a walk.
ghost use Rattle.std.specs.Prelude.{◌≡◌, IfOk};
ghost use Rattle.spec_query.specs.Queries.{line_of, watch, when_changed, who};

use dl_entry::{OutOfMemory, Sequence};
use dl_serial::Walked;
use spec_query::{Line, Store, When};
use std::alloc::Global;

/// Lines in the order of their commits.
pub type Lines = Sequence<Line>;

/// Every commit that stored to the word at that address, in order.
pub fn watch(alloc: Global, walked: &Walked, addr: u32) -> Result<Lines, OutOfMemory>
    ensures { IfOk result (λ lines. lines ≡ watch walked.now.stores addr) }
{
    let mut lines = Lines::new(alloc);
    for store in walked.stores.as_slice() {
        if store.address == addr {
            lines.push(line_of(store))?;
        }
    }
    Ok(lines)
}

/// The last commit below number `i` that stored to the word at that address. It takes no memory.
pub fn who(walked: &Walked, addr: u32, i: u32) -> Option<Line>
    ensures { result ≡ who walked.now.stores addr i }
{
    let mut last = None;
    for store in walked.stores.as_slice() {
        if store.address == addr && store.commit < i {
            last = Some(line_of(store));
        }
    }
    last
}

/// When the word at that address, which is `first` in the image, first had another value than this. It takes no memory.
pub fn when(walked: &Walked, first: u32, addr: u32, value: u32) -> When
    ensures { result ≡ when_changed walked.now.stores first addr value }
{
    if first != value {
        return When::Start;
    }
    for store in walked.stores.as_slice() {
        if store.address == addr && store.value != value {
            return When::At(line_of(store));
        }
    }
    When::None
}

fn line_of(store: &Store) -> Line
    ensures { result ≡ line_of store.now }
{
    Line {
        commit: store.commit,
        actor: store.actor,
        value: store.value,
    }
}
