//! Sequences: entries in the order of their pushes, and bytes.
use dl_entry::{Actor, Bytes, OutOfMemory, Sequence};
use std::alloc::Global;
use std::test::Fail;

#[test]
fn entries_stand_in_the_order_of_their_pushes(rt: HostRuntime) -> Result<(), Fail> {
    let mut actors = pushed(rt.alloc())?;
    actors.drop_last();
    assert!(rt; are_thread_3_and_dma(&actors));
    Ok(())
}

#[test]
fn a_new_sequence_is_empty(rt: HostRuntime) {
    let actors: Sequence<Actor> = Sequence::new(rt.alloc());
    assert!(rt; actors.is_empty());
}

fn pushed(alloc: Global) -> Result<Sequence<Actor>, OutOfMemory> {
    let mut actors = Sequence::new(alloc);
    actors.push(Actor::Thread(3))?;
    actors.push(Actor::Dma)?;
    actors.push(Actor::Thread(14))?;
    Ok(actors)
}

fn are_thread_3_and_dma(actors: &Sequence<Actor>) -> bool {
    actors.len() == 2
        && actors.get(0) == Some(&Actor::Thread(3))
        && actors.get(1) == Some(&Actor::Dma)
        && actors.get(2).is_none()
        && actors.iter().last() == Some(&Actor::Dma)
}

#[test]
fn bytes_are_those_of_their_slice(rt: HostRuntime) -> Result<(), Fail> {
    let bytes = Bytes::from_slice(rt.alloc(), &[0x41, 0xFF])?;
    assert!(rt; bytes.as_slice() == [0x41, 0xFF].as_slice());
    Ok(())
}
