//! Where a parser stands, so that what was read after it can be taken away.
ghost use Rattle.std.specs.Prelude.{◌≡◌, take};
ghost use Rattle.dl_logfmt.specs.Parsing.{cut as cut_back, mark_of};

use crate::parser::Parser;
use crate::stage_name::StageName;
use dl_entry::Sequence;
use spec_log::{ModeName, Shape};

/// What a parser reads next, the fields that it has read, and the numbers of its entries.
#[derive(Clone, Copy)]
pub struct Mark {
    pub stage: StageName,
    pub left: Option<u32>,
    pub shape: Shape,
    pub mode: ModeName,
    pub count: u32,
    pub order: usize,
    pub each: usize,
    pub short: usize,
    pub interrupts: usize,
    pub inputs: usize,
    pub dmas: usize,
}

impl Parser {
    /// Where the parser stands.
    pub fn mark(&self) -> Mark
        ensures { result ≡ mark_of self.now }
    {
        let draft = &self.draft;
        Mark {
            stage: self.stage,
            left: self.left,
            shape: draft.shape,
            mode: draft.mode,
            count: draft.count,
            order: draft.order.len(),
            each: draft.each.len(),
            short: draft.short.len(),
            interrupts: draft.interrupts.len(),
            inputs: draft.inputs.len(),
            dmas: draft.dmas.len(),
        }
    }

    /// Takes away what was read after the mark.
    pub fn cut(&mut self, mark: Mark)
        ensures { self.new ≡ cut_back mark self.old }
    {
        self.stage = mark.stage;
        self.left = mark.left;
        self.draft.shape = mark.shape;
        self.draft.mode = mark.mode;
        self.draft.count = mark.count;
        cut(&mut self.draft.order, mark.order);
        cut(&mut self.draft.each, mark.each);
        cut(&mut self.draft.short, mark.short);
        cut(&mut self.draft.interrupts, mark.interrupts);
        cut(&mut self.draft.inputs, mark.inputs);
        cut(&mut self.draft.dmas, mark.dmas);
    }
}

/// Takes away what comes after so many entries.
fn cut<T: Drop>(list: &mut Sequence<T>, len: usize)
    ensures { list.new ≡ take len list.old }
{
    while len < list.len() {
        list.drop_last();
    }
}
