//! Calls that are numbered from 0 in the order in which they are made, some of which go wrong.
use std::alloc::{AllocError, Global};
use std::io::ErrorKind;

/// What goes wrong at a call.
#[derive(Clone, Copy, Debug, PartialEq, Eq)]
pub enum Trouble {
    /// It is refused.
    Refused,
    /// It is interrupted, and is to be made again.
    Interrupted,
}

impl Trouble {
    pub(crate) fn kind(self) -> ErrorKind {
        match self {
            Trouble::Refused => ErrorKind::PermissionDenied,
            Trouble::Interrupted => ErrorKind::Interrupted,
        }
    }
}

#[derive(Clone, Copy)]
struct Planned {
    call: u64,
    trouble: Trouble,
}

#[derive(Drop)]
pub(crate) struct Troubles {
    planned: Vec<Planned>,
    made: u64,
}

impl Troubles {
    pub(crate) fn new(alloc: Global) -> Self {
        Self {
            planned: Vec::new(alloc),
            made: 0,
        }
    }

    pub(crate) fn plan(&mut self, call: u64, trouble: Trouble) -> Result<(), AllocError> {
        self.planned.push(Planned { call, trouble })?;
        Ok(())
    }

    // What goes wrong at the next call, which is then made.
    pub(crate) fn meet(&mut self) -> Option<Trouble> {
        let call = self.made;
        self.made = self.made.saturating_add(1);
        let met = self.planned.iter().find(|planned| planned.call == call)?;
        Some(met.trouble)
    }
}
