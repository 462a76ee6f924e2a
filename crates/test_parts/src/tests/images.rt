//! Files of a few instructions, and which changes of them are refused. The numbers are those of the rules.
use byteorder::{ByteOrder, LittleEndian};
use dl_elf::{ElfError, load};
use std::alloc::{AllocError, Global};
use std::test::Fail;

// Three instructions from address 0 on: a header, a program header at 52, and the code at 84.
const FILE: [u8; 96] = [
    0x7f, 0x45, 0x4c, 0x46, 0x01, 0x01, 0x01, 0x00, 0x00, 0x00, 0x00, 0x00, 0x00, 0x00, 0x00, 0x00,
    0x02, 0x00, 0xf3, 0x00, 0x01, 0x00, 0x00, 0x00, 0x00, 0x00, 0x00, 0x00, 0x34, 0x00, 0x00, 0x00,
    0x00, 0x00, 0x00, 0x00, 0x00, 0x00, 0x00, 0x00, 0x34, 0x00, 0x20, 0x00, 0x01, 0x00, 0x00, 0x00,
    0x00, 0x00, 0x00, 0x00, 0x01, 0x00, 0x00, 0x00, 0x54, 0x00, 0x00, 0x00, 0x00, 0x00, 0x00, 0x00,
    0x00, 0x00, 0x00, 0x00, 0x0c, 0x00, 0x00, 0x00, 0x0c, 0x00, 0x00, 0x00, 0x07, 0x00, 0x00, 0x00,
    0x04, 0x00, 0x00, 0x00, 0x93, 0x08, 0x00, 0x00, 0x13, 0x05, 0x70, 0x00, 0x73, 0x00, 0x00, 0x00,
];

// The rule that the file breaks once a byte of its headers is changed by that mask, 0 if it is still an image.
const CHANGED: &[(u8, [u8; 84])] = &[
    (
        0x40,
        [
            2, 2, 2, 2, 3, 4, 2, 0, 0, 0, 0, 0, 0, 0, 0, 0, 5, 5, 6, 6, 2, 2, 2, 2, 0, 12, 12, 12,
            8, 8, 8, 8, 0, 0, 0, 0, 0, 0, 0, 0, 0, 0, 8, 8, 8, 8, 0, 0, 0, 0, 0, 0, 13, 13, 13, 13,
            0, 9, 9, 9, 0, 10, 10, 10, 0, 0, 0, 0, 9, 9, 9, 9, 0, 10, 10, 10, 0, 0, 0, 0, 0, 0, 0,
            0,
        ],
    ),
    (
        0x01,
        [
            2, 2, 2, 2, 3, 4, 2, 0, 0, 0, 0, 0, 0, 0, 0, 0, 5, 5, 6, 6, 2, 2, 2, 2, 12, 0, 12, 12,
            13, 8, 8, 8, 0, 0, 0, 0, 7, 0, 0, 0, 0, 0, 8, 8, 13, 8, 0, 0, 0, 0, 0, 0, 13, 13, 13,
            13, 9, 9, 9, 9, 0, 0, 10, 10, 0, 0, 0, 0, 9, 9, 9, 9, 0, 0, 10, 10, 0, 0, 0, 0, 0, 0,
            0, 0,
        ],
    ),
];

// A word of the headers put in place of what is there, and the rule that the file then breaks.
const HOSTILE: &[(&str, usize, u32, u8)] = &[
    (
        "the program headers begin at the last address",
        28,
        0xFFFF_FFFF,
        8,
    ),
    (
        "the code begins at the last address of a file",
        56,
        0xFFFF_FFFF,
        9,
    ),
    (
        "the code ends past the last address of a memory",
        60,
        0xFFFF_FFFC,
        10,
    ),
    ("the code ends past the memory", 60, 4088, 10),
    ("the first thread starts in the middle of a word", 24, 2, 12),
    ("no segment is loaded", 52, 0, 13),
];

// Four program headers, and the bytes 1 to 7 from 180 on: four bytes at address 0; a segment of another kind, whose
// numbers mean nothing; zeros from address 8 to the end of 4,096; two bytes at address 4, whose physical address is 100.
const FOUR_SEGMENTS: &[[u32; 8]] = &[
    [1, 180, 0, 0x80, 4, 4, 7, 4],
    [0x7000_0003, 0xFFFF_FFFF, 0xFFFF_FFFF, 0, 9, 1, 7, 4],
    [1, 0, 8, 8, 0, 4088, 7, 4],
    [1, 184, 4, 100, 2, 4, 7, 4],
];

// The number of the rule that a file breaks in a memory of 4,096 bytes, 0 if it is an image.
fn rule(rt: &impl AllocGlobal, file: &[u8]) -> Result<u8, AllocError> {
    match load(rt.alloc(), file, 4096) {
        Ok(_) => Ok(0),
        Err(ElfError::Refused(rule)) => Ok(rule),
        Err(ElfError::OutOfMemory) => Err(AllocError),
    }
}

#[test]
fn lays_the_code_out_from_address_0(rt: HostRuntime) -> Result<(), Fail> {
    let image = load(rt.alloc(), &FILE, 8192)?;
    assert!(rt; image.size() == 8192);
    assert!(rt; image.entry() == 0);
    assert!(rt; image.bytes().len() == 8192);
    assert!(rt;
        begins_with(
            image.bytes(),
            &[0x93, 0x08, 0, 0, 0x13, 0x05, 0x70, 0, 0x73, 0, 0, 0]
        )
    );
    Ok(())
}

#[test]
fn refuses_a_file_cut_anywhere(rt: HostRuntime) -> Result<(), Fail> {
    for cut in 0..96 {
        let wanted = if cut < 52 {
            1
        } else if cut < 84 {
            8
        } else {
            9
        };
        assert!(rt; rule(&rt, &FILE[..cut])? == wanted, "{cut} bytes");
    }
    Ok(())
}

#[test]
fn refuses_by_the_rule_of_the_changed_byte(rt: HostRuntime) -> Result<(), Fail> {
    for (mask, rules) in CHANGED {
        for place in 0..84 {
            let mut file = FILE;
            file[place] ^= *mask;
            assert!(rt;
                rule(&rt, &file)? == rules[place],
                "byte {place} changed by {mask}"
            );
        }
    }
    Ok(())
}

#[test]
fn refuses_hostile_words(rt: HostRuntime) -> Result<(), Fail> {
    for (name, place, word, wanted) in HOSTILE {
        let mut file = FILE;
        assert!(rt; *place <= 92);
        LittleEndian::write_u32(&mut file[*place..], *word);
        assert!(rt; rule(&rt, &file)? == *wanted, "{name}");
    }
    Ok(())
}

#[test]
fn refuses_a_segment_loaded_twice(rt: HostRuntime) -> Result<(), Fail> {
    let mut header = FILE;
    header[44] = 2;
    header[56] = 116;
    let mut file = Vec::from_slice(rt.alloc(), &header[..84])?;
    file.extend_from_slice(&header[52..])?;
    assert!(rt; file.len() == 128);
    assert!(rt; rule(&rt, file.as_slice())? == 11);
    Ok(())
}

#[test]
fn loads_several_segments(rt: HostRuntime) -> Result<(), Fail> {
    let file = of_four_segments(rt.alloc())?;
    assert!(rt; file.len() == 187);
    let image = load(rt.alloc(), file.as_slice(), 4096)?;
    assert!(rt; image.entry() == 4);
    assert!(rt; image.bytes().len() == 4096);
    assert!(rt; begins_with(image.bytes(), &[1, 2, 3, 4, 5, 6, 0, 0]));
    Ok(())
}

// A file of the four segments, whose program starts at address 4.
fn of_four_segments(alloc: Global) -> Result<Vec<u8>, AllocError> {
    let mut header = FILE;
    header[24] = 4;
    header[44] = 4;
    let mut file = Vec::from_slice(alloc, &header[..52])?;
    for word in FOUR_SEGMENTS.iter().flatten() {
        file.extend_from_slice(&word.to_le_bytes())?;
    }
    file.extend_from_slice(&[1, 2, 3, 4, 5, 6, 7])?;
    Ok(file)
}

// Whether the bytes of a memory are these, and then zeros.
fn begins_with(memory: &[u8], bytes: &[u8]) -> bool {
    match memory.strip_prefix(bytes) {
        Some(rest) => rest.iter().all(|byte| *byte == 0),
        None => false,
    }
}
