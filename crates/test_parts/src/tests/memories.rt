//! Words that are put with a mask, snapshots, and bytes that lie in two pages.
ghost use Rattle.dl_elf.specs.Images.{IsSize};

use super::small::SEVEN;
use dl_elf::load;
use dl_mem::Memory;
use std::alloc::Global;
use std::process::Abort;
use std::test::Fail;

fn memory(alloc: Global, file: &[u8], size: u32) -> Result<Memory, Fail>
    requires { IsSize size }
{
    let image = load(alloc, file, size)?;
    Ok(Memory::new(alloc, &image)?)
}

// Puts the masked bytes of a value to a word inside the memory.
fn put(rt: &impl Abort, memory: &mut Memory, word: u32, mask: u8, value: u32) {
    assert!(rt; word % 4 == 0 && u64::from(word) + 4 <= u64::from(memory.size()));
    memory.put(word, mask, value);
}

// A word inside the memory.
fn word(rt: &impl Abort, memory: &Memory, word: u32) -> u32 {
    assert!(rt; word % 4 == 0 && u64::from(word) + 4 <= u64::from(memory.size()));
    memory.word(word)
}

// Masks with which a value is put to the first word, one after another, each with that word then.
const MASKED: &[(u8, u32)] = &[
    (0b0000, 0x0070_0513),
    (0b0101, 0x00BB_05DD),
    (0b1000, 0xAABB_05DD),
    (0b1111_0010, 0xAABB_CCDD),
];

#[test]
fn puts_the_masked_bytes_of_a_word(rt: HostRuntime) -> Result<(), Fail> {
    let mut memory = memory(rt.alloc(), &SEVEN, 4096)?;
    for (mask, first) in MASKED {
        put(&rt, &mut memory, 0, *mask, 0xAABB_CCDD);
        assert!(rt; word(&rt, &memory, 0) == *first, "mask {mask}");
    }
    assert!(rt; memory.size() == 4096);
    assert!(rt; word(&rt, &memory, 4) == 0x73);
    assert!(rt; word(&rt, &memory, 4092) == 0);
    Ok(())
}

#[test]
fn snapshots_show_their_moments(rt: HostRuntime) -> Result<(), Fail> {
    let mut file = SEVEN;
    file[84..].fill(0);
    let mut memory = memory(rt.alloc(), &file, 8192)?;
    assert!(rt; memory.size() == 8192);
    let first = memory.snapshot()?;
    put(&rt, &mut memory, 4, 0b1111, 7);
    assert!(rt; memory.size() == 8192);
    let second = memory.snapshot()?;
    put(&rt, &mut memory, 4, 0b1111, 9);
    let restored = Memory::from_snapshot(rt.alloc(), &second)?;
    let words = [
        first.word(4),
        second.word(4),
        word(&rt, &memory, 4),
        word(&rt, &restored, 4),
    ];
    assert!(rt; words == [0, 7, 9, 7]);
    Ok(())
}

#[test]
fn copies_the_bytes_of_two_pages(rt: HostRuntime) -> Result<(), Fail> {
    let mut memory = memory(rt.alloc(), &SEVEN, 8192)?;
    put(&rt, &mut memory, 4092, 0b1111, 0x0403_0201);
    put(&rt, &mut memory, 4096, 0b1111, 0x0807_0605);
    assert!(rt; memory.size() == 8192);
    let mut bytes = [0; 5];
    memory.copy_to(4093, &mut bytes);
    assert!(rt; bytes == [2, 3, 4, 5, 6]);
    Ok(())
}
