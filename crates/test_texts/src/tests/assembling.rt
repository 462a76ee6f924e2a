//! Sources with their words, from another assembler and a model apart from this code.
use dl_asm::assemble;
use std::test::Fail;

#[test]
fn a_file_is_two_headers_and_the_code(rt: HostRuntime) -> Result<(), Fail> {
    let file = assemble(rt.alloc(), b"addi x17, x0, 0\naddi x10, x0, 7\necall\n")?;
    assert!(rt; file.as_slice() == THREE_INSTRUCTIONS);
    Ok(())
}

const THREE_INSTRUCTIONS: &[u8] = &[
    0x7F, 0x45, 0x4C, 0x46, 0x01, 0x01, 0x01, 0x00, 0x00, 0x00, 0x00, 0x00, 0x00, 0x00, 0x00, 0x00,
    0x02, 0x00, 0xF3, 0x00, 0x01, 0x00, 0x00, 0x00, 0x00, 0x00, 0x00, 0x00, 0x34, 0x00, 0x00, 0x00,
    0x00, 0x00, 0x00, 0x00, 0x00, 0x00, 0x00, 0x00, 0x34, 0x00, 0x20, 0x00, 0x01, 0x00, 0x00, 0x00,
    0x00, 0x00, 0x00, 0x00, 0x01, 0x00, 0x00, 0x00, 0x54, 0x00, 0x00, 0x00, 0x00, 0x00, 0x00, 0x00,
    0x00, 0x00, 0x00, 0x00, 0x0C, 0x00, 0x00, 0x00, 0x0C, 0x00, 0x00, 0x00, 0x07, 0x00, 0x00, 0x00,
    0x04, 0x00, 0x00, 0x00, 0x93, 0x08, 0x00, 0x00, 0x13, 0x05, 0x70, 0x00, 0x73, 0x00, 0x00, 0x00,
];

#[test]
fn a_file_of_nothing_is_two_headers(rt: HostRuntime) -> Result<(), Fail> {
    assert!(rt; assemble(rt.alloc(), b"")?.len() == 84);
    Ok(())
}

#[test]
fn a_source_is_its_words(rt: HostRuntime) -> Result<(), Fail> {
    for (source, words) in SOURCES {
        let file = assemble(rt.alloc(), source.as_bytes())?;
        assert!(rt; has_words(file.as_slice(), words), "at {source}");
    }
    Ok(())
}

// Whether a file is two headers and then these words, little-endian.
pub(super) fn has_words(file: &[u8], words: &[u32]) -> bool {
    file.len() == 84 + words.len() * 4
        && file[84..]
            .chunks_exact(4)
            .zip(words)
            .all(|(bytes, word)| bytes == word.to_le_bytes().as_slice())
}

// A source, and its words.
const SOURCES: &[(&str, &[u32])] = &[
    ("\n# nothing\n \t\n", &[]),
    ("a: jal x0, a\n", &[0x0000_006F]),
    ("jal x0, a\n\n# b\na: ecall\n", &[0x0040_006F, 0x0000_0073]),
    (
        "ecall\n\n  # nothing\na:\n.word a\njal x0, a",
        &[0x0000_0073, 0x0000_0004, 0xFFDF_F06F],
    ),
    ("a:\nb: .word a\n.word b", &[0x0000_0000, 0x0000_0000]),
    (".zero 2\n.zero -0", &[0x0000_0000, 0x0000_0000]),
    (
        " \t_a1:\t# c\nsw x1, 4 ( x2 )\nslli x1 , x2 ,31#d",
        &[0x0011_2223, 0x01F1_1093],
    ),
    (
        "x32: jal x0, x32\nx5: .word 0xdeadBEEF",
        &[0x0000_006F, 0xDEAD_BEEF],
    ),
    (
        ".zero 1\naddi x1, x0, a\nlw x2, a(x3)\na: lui x4, a\nslli x5, x6, b\nb: sw x7, b(x8)\nbeq x1, x2, a",
        &[
            0x0000_0000,
            0x00C0_0093,
            0x00C1_A103,
            0x0000_C237,
            0x0143_1293,
            0x0074_2A23,
            0xFE20_8AE3,
        ],
    ),
    (
        EVERY_FORM,
        &[
            0x0000_50B7,
            0xFFFF_F117,
            0xFFC1_00E7,
            0xFE20_8AE3,
            0x05EF_FA63,
            0x7FFF_F0EF,
            0x7FF3_0283,
            0x8074_1023,
            0xFFF1_3093,
            0x41F2_5193,
            0x0273_22B3,
            0x1401_20AF,
            0x1A31_20AF,
            0xE6A5_A4AF,
            0x0FF0_000F,
            0x0000_100F,
            0x0000_0073,
            0x0010_0073,
            0xFFFF_FFFF,
            0xDEAD_BEEF,
            0x0000_0064,
            0x0000_0000,
            0x0000_0000,
            0x0000_0000,
            0x0640_0093,
        ],
    ),
];

// Each form of a statement, labels as distances and as addresses, both kinds of numbers.
const EVERY_FORM: &str = "\
    # every form\n\
    start:  lui x1, 5\n\
            auipc x2, 1048575\n\
            jalr x1, -4(x2)\n\
    _a1:    beq x1, x2, start       # backwards\n\
            bgeu x31, x30, End\n\
            jal x1, 1048574\n\
            lb x5, 0x7FF(x6)\n\
            sh x7, -0x800(x8)\n\
            sltiu x1,x2,-1\n\
            srai x3 , x4 , 31\n\
            mulhsu x5, x6, x7\n\
            lr.w.aq x1, (x2)\n\
            sc.w.rl x1, x3, (x2)\n\
            amomaxu.w.aqrl x9, x10, (x11)\n\
            fence\n\
            fence.i\n\
            ecall\n\
            ebreak\n\
            .word -1\n\
            .word 0xdeadbeef\n\
            .word End\n\
            .zero 3\n\
            addi x1, x0, End\n\
    End:";

#[test]
fn a_label_is_reached_from_afar(rt: HostRuntime) -> Result<(), Fail> {
    for (source, length, place, word) in FROM_AFAR {
        let file = assemble(rt.alloc(), source.as_bytes())?;
        let there = file.get(*place..).unwrap_or(&[]);
        assert!(rt; there.starts_with(&word.to_le_bytes()), "at {source}");
        assert!(rt; file.len() == *length, "at {source}");
    }
    Ok(())
}

// A source, the length of its file, and a word with its place there.
const FROM_AFAR: &[(&str, usize, usize, u32)] = &[
    (
        "beq x0, x0, a\n.zero 1022\na: ecall\n",
        4180,
        84,
        0x7E00_0EE3,
    ),
    ("a: .zero 1024\nbne x1, x2, a", 4184, 4180, 0x8020_9063),
    ("jal x0, a\n.zero 262142\na:", 1_048_656, 84, 0x7FDF_F06F),
    (
        "a: .zero 262144\njal x1, a",
        1_048_664,
        1_048_660,
        0x8000_00EF,
    ),
    (".zero 511\na: addi x1, x0, a", 2132, 2128, 0x7FC0_0093),
    (
        ".zero 4194303\na: ecall",
        16_777_300,
        16_777_296,
        0x0000_0073,
    ),
    (".zero 4194304\na:", 16_777_300, 16_777_296, 0x0000_0000),
];
