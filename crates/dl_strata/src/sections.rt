//! The sections that strata have as a log has them.
ghost use Rattle.std.specs.Prelude.{◌≡◌, ◌<◌, ◌^◌, [], ◌∷◌, ◌++◌, length, All, OnOk};
ghost use Rattle.spec_log.specs.Bytes.{section, short_size_bytes, interrupt_bytes, input_bytes, dma_bytes};
ghost use Rattle.spec_log.specs.Fields.{all_of, listed, one_more, staged};
ghost use Rattle.spec_strata.specs.Reading.{dmas, inputs, interrupts, shape_of as shape_in, sizes};
ghost use Rattle.spec_strata.specs.Strata.{AreStrata};
ghost use Rattle.dl_strata.specs.Answer.{Leaves};

use dl_entry::{OutOfMemory, Sequence};
use dl_logfmt::{Entry, LogError, SectionLeft, Source, Unit, read_next, read_u32};
use spec_log::Shape;
use spec_strata::{StrataDraft, StrataParts};

/// Reads the sizes, the interrupts, the inputs and the DMAs.
pub fn read_sections(
    draft: &mut StrataDraft,
    source: &Source<'_>,
    at: &mut usize,
) -> Result<(), LogError>
    ensures { Leaves (all_of (sizes ∷ interrupts ∷ inputs ∷ dmas ∷ []) draft.old source.now.bytes.now at.old)
        result draft.new at.new }
{
    let shape = shape_of(draft);
    read_section(&mut draft.sizes, source, at, shape)?;
    read_section(&mut draft.interrupts, source, at, shape)?;
    read_section(&mut draft.inputs, source, at, shape)?;
    read_section(&mut draft.dmas, source, at, shape)?;
    Ok(())
}

/// Reads a section after the entries of a list: the number of its entries, and the entries.
fn read_section<E: Entry>(
    list: &mut Sequence<E>,
    source: &Source<'_>,
    at: &mut usize,
    shape: Shape,
) -> Result<(), LogError>
    ensures { Leaves (staged (listed (one_more E.earlier (E.reader shape))) list.old source.now.bytes.now at.old)
        result list.new at.new }
{
    let count = read_u32(source.bytes, at)?;
    for _ in 0..count {
        read_next(list, source, at, shape)?;
    }
    Ok(())
}

/// The entries are as in a log of version 2, of the threads that are counted.
pub fn shape_of(draft: &StrataDraft) -> Shape
    ensures { result ≡ shape_in draft.now }
{
    Shape {
        version: 2,
        threads: draft.counted,
        s: draft.s,
    }
}

/// Puts the bytes of the sections after others.
pub fn put_sections(parts: &StrataParts, out: &mut Vec<u8>) -> Result<(), OutOfMemory>
    requires { AreStrata parts.now }
    ensures { let v = parts.now in
        OnOk result (out.new.items ≡ out.old.items ++ section (short_size_bytes 2) v.sizes
        ++ section interrupt_bytes v.interrupts ++ section input_bytes v.inputs ++ section dma_bytes v.dmas) }
{
    put_section(SectionLeft::new(2, parts.sizes.as_slice()), out)?;
    put_section(SectionLeft::new(2, parts.interrupts.as_slice()), out)?;
    put_section(SectionLeft::new(2, parts.inputs.as_slice()), out)?;
    put_section(SectionLeft::new(2, parts.dmas.as_slice()), out)?;
    Ok(())
}

/// Puts the bytes of what is left of a section after others.
fn put_section<E: Entry>(mut left: SectionLeft<'_, E>, out: &mut Vec<u8>) -> Result<(), OutOfMemory>
    ensures { OnOk result (out.new.items ≡ out.old.items ++ left.entry) }
{
    while let Some(unit) = left.begin() {
        put_unit(&unit, out)?;
    }
    Ok(())
}

/// Puts the bytes of a unit after others.
pub fn put_unit(unit: &Unit<'_>, out: &mut Vec<u8>) -> Result<(), OutOfMemory>
    ensures { OnOk result (out.new.items ≡ out.old.items ++ unit.now) }
{
    let (fixed, counted) = unit.parts();
    out.extend_from_slice(fixed)?;
    out.extend_from_slice(counted)?;
    Ok(())
}
