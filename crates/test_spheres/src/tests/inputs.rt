//! Records that are noted, looked at and taken.
use dl_entry::{Bytes, Input, OutOfMemory};
use dl_input::{Dmas, Inputs, Interrupts};
use spec_log::Interrupt;
use std::alloc::Global;
use std::test::Fail;

#[test]
fn an_interrupt_is_found_at_its_moment(rt: HostRuntime) -> Result<(), Fail> {
    let mut interrupts = one_interrupt(rt.alloc())?;
    assert!(rt; is_found(&interrupts));
    assert!(rt; is_listed(rt.alloc(), &interrupts)?);
    assert!(rt; !is_used_once_taken(&mut interrupts, 2, 6));
    assert!(rt; is_used_once_taken(&mut interrupts, 2, 7));
    assert!(rt; interrupts.at(2, 7) == Some(5));
    Ok(())
}

const NOTED: Interrupt = Interrupt {
    thread: 2,
    index: 7,
    value: 5,
};

fn one_interrupt(alloc: Global) -> Result<Interrupts, OutOfMemory> {
    let mut interrupts = Interrupts::new(alloc)?;
    interrupts.reserve()?;
    interrupts.note(2, 7, 5)?;
    Ok(interrupts)
}

fn is_found(interrupts: &Interrupts) -> bool {
    interrupts.at(2, 7) == Some(5)
        && interrupts.at(2, 6).is_none()
        && interrupts.nth(0) == Some(NOTED)
        && interrupts.nth(1).is_none()
}

fn is_listed(alloc: Global, interrupts: &Interrupts) -> Result<bool, OutOfMemory> {
    let list = interrupts.list(alloc)?;
    Ok(list.get(0) == Some(&NOTED))
}

fn is_used_once_taken(interrupts: &mut Interrupts, thread: u8, index: u32) -> bool {
    interrupts.take(thread, index);
    interrupts.used()
}

const KINDS: &[u8] = &[3, 16];

#[test]
fn inputs_are_taken_in_their_order(rt: HostRuntime) -> Result<(), Fail> {
    let mut inputs = Inputs::new(rt.alloc());
    for kind in KINDS {
        note(rt.alloc(), &mut inputs, *kind)?;
    }
    for kind in KINDS {
        assert!(rt; !inputs.used());
        assert!(rt; is_of_kind(inputs.next(), *kind));
        inputs.take();
    }
    assert!(rt; inputs.used());
    assert!(rt; inputs.next().is_none());
    assert!(rt; is_of_kind(inputs.nth(1), 16));
    assert!(rt; count(rt.alloc(), &inputs)? == 2);
    Ok(())
}

fn note(alloc: Global, inputs: &mut Inputs, kind: u8) -> Result<(), OutOfMemory> {
    inputs.reserve()?;
    inputs.note(&Input {
        kind,
        result: 2,
        bytes: Bytes::new(alloc),
    })
}

fn is_of_kind(input: Option<&Input>, kind: u8) -> bool {
    match input {
        Some(input) => input.kind == kind,
        None => false,
    }
}

fn count(alloc: Global, inputs: &Inputs) -> Result<usize, OutOfMemory> {
    let list = inputs.list(alloc)?;
    Ok(list.len())
}

#[test]
fn the_data_of_a_dma_are_found_at_its_position(rt: HostRuntime) -> Result<(), Fail> {
    let mut dmas = one_dma(rt.alloc())?;
    assert!(rt; stands_at_2(&dmas));
    assert!(rt; count_of_dmas(rt.alloc(), &dmas)? == 1);
    assert!(rt; !are_used_once_taken(&mut dmas, 1));
    assert!(rt; are_used_once_taken(&mut dmas, 2));
    Ok(())
}

fn one_dma(alloc: Global) -> Result<Dmas, OutOfMemory> {
    let mut dmas = Dmas::new(alloc);
    dmas.reserve()?;
    dmas.note(2, b"AB")?;
    Ok(dmas)
}

fn stands_at_2(dmas: &Dmas) -> bool {
    dmas.at(2) == Some(b"AB".as_slice()) && dmas.at(1).is_none() && first_position(dmas) == Some(2)
}

fn first_position(dmas: &Dmas) -> Option<u32> {
    match dmas.nth(0) {
        Some(dma) => Some(dma.position),
        None => None,
    }
}

fn count_of_dmas(alloc: Global, dmas: &Dmas) -> Result<usize, OutOfMemory> {
    let list = dmas.list(alloc)?;
    Ok(list.len())
}

fn are_used_once_taken(dmas: &mut Dmas, position: u32) -> bool {
    dmas.take(position);
    dmas.used()
}
