//! What a slot of the table holds, if it is taken.
ghost use Rattle.std.specs.Prelude.{◌≡◌};
ghost use Rattle.std.specs.List.{position};
ghost use Rattle.dl_wbuf.specs.Tables.{fits};

// A number, and the place that the table has for it.
#[derive(Clone, Copy, Debug)]
pub(crate) struct Entry {
    pub(crate) number: u32,
    pub(crate) place: u32,
}

// Whether a probe for the number stops at the slot.
pub(crate) fn fits(slot: &Option<Entry>, number: u32) -> bool
    ensures { result ≡ fits number slot.now }
{
    match slot {
        Some(entry) => entry.number == number,
        None => true,
    }
}

// The first slot at which a probe for the number stops.
pub(crate) fn first_fit(slots: &[Option<Entry>], number: u32) -> Option<usize>
    ensures { result ≡ position (fits number) slots.now }
{
    slots.iter().position(|slot| fits(slot, number))
}
