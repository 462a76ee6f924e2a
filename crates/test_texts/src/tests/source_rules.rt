//! Sources that are refused, with the line and the rule that are told.
use dl_asm::Rule::{LabelTwice, Mnemonic, NoLabel, Operands, Range, Syntax, TooLong};
use dl_asm::{AsmError, Rule, assemble};
use std::alloc::Global;

#[test]
fn one_line_breaks_its_rule(rt: HostRuntime) {
    for (lines, rule) in WRONG {
        for text in lines.lines() {
            assert!(rt; is_refused(rt.alloc(), text, 1, *rule), "at {text}");
        }
    }
}

// Whether the source is refused at this line by this rule.
fn is_refused(alloc: Global, source: &str, line: u64, rule: Rule) -> bool {
    assemble(alloc, source.as_bytes()).err() == Some(AsmError::Refused { line, rule })
}

// Lines that break a rule, each alone.
const WRONG: &[(&str, Rule)] = &[
    (OUT_OF_RANGE, Range),
    (MISSPELLED, Syntax),
    (UNKNOWN, Mnemonic),
    (UNFIT, Operands),
];

#[test]
fn the_first_broken_rule_is_told(rt: HostRuntime) {
    for (source, line, rule) in REFUSED {
        assert!(rt; is_refused(rt.alloc(), source, *line, *rule), "at {source}");
    }
}

// A source, and the line and the rule that are told.
const REFUSED: &[(&str, u64, Rule)] = &[
    ("ecall\nadd x1 x2, x3\n", 2, Syntax),
    ("ecall\r\n", 1, Syntax),
    ("addi x1, x0, 1\nnop\n", 2, Mnemonic),
    ("lw x1, 4(x2)\nadd x1, x2\n", 2, Operands),
    ("a:\na: nop\na: add\n", 2, Mnemonic),
    ("a: ecall\n# between\na: ecall\n", 3, LabelTwice),
    ("a: nop 1 2\na: ecall", 1, Syntax),
    ("a:\na: addi x1, x0, 2048", 2, Range),
    ("a:\na: jal x0, b\n", 2, LabelTwice),
    ("a:\n.zero 4194304\na: ecall", 3, LabelTwice),
    ("jal x0, there\nthere_: ecall\n", 1, NoLabel),
    ("x5: jal x0, X5", 1, NoLabel),
    (".zero 4194304\njal x0, a", 2, NoLabel),
    (".zero 4194304\necall\n", 2, TooLong),
    (".zero 4194304\n.zero 0\n.word 1", 3, TooLong),
    ("jal x0, end\naddi x1, x0, -2049\nnop\nend:\n", 2, Range),
    ("beq x0, x0, a\n.zero 1023\na: ecall\n", 1, Range),
    ("a: .zero 1025\nbne x1, x2, a", 2, Range),
    ("jal x0, a\n.zero 262143\na:", 1, Range),
    ("a: .zero 262145\njal x1, a", 2, Range),
    (".zero 512\na: addi x1, x0, a", 2, Range),
    ("beq x0, x0, a\nnop\n.zero 1023\na:", 1, Range),
];

// One past the ends of the ranges, and odd distances.
const OUT_OF_RANGE: &str = "\
    addi x1, x0, 2048\n\
    addi x1, x2, -2049\n\
    slti x1, x2, 2048\n\
    slti x1, x2, -2049\n\
    sltiu x1, x2, 2048\n\
    sltiu x1, x2, -2049\n\
    xori x1, x2, 2048\n\
    xori x1, x2, -2049\n\
    ori x1, x2, 2048\n\
    ori x1, x2, -2049\n\
    andi x1, x2, 2048\n\
    andi x1, x2, -2049\n\
    slli x1, x2, 32\n\
    slli x1, x2, -1\n\
    srli x1, x2, 32\n\
    srli x1, x2, -1\n\
    srai x1, x2, 32\n\
    srai x1, x2, -1\n\
    lb x1, 2048(x2)\n\
    lb x1, -2049(x2)\n\
    lh x1, 2048(x2)\n\
    lh x1, -2049(x2)\n\
    lw x1, 2048(x2)\n\
    lw x1, -2049(x2)\n\
    lbu x1, 2048(x2)\n\
    lbu x1, -2049(x2)\n\
    lhu x1, 2048(x2)\n\
    lhu x1, -2049(x2)\n\
    jalr x1, 2048(x2)\n\
    jalr x1, -2049(x2)\n\
    sb x1, 2048(x2)\n\
    sb x1, -2049(x2)\n\
    sh x1, 2048(x2)\n\
    sh x1, -2049(x2)\n\
    sw x1, 2048(x2)\n\
    sw x1, -2049(x2)\n\
    lui x1, 1048576\n\
    lui x1, -1\n\
    auipc x1, 1048576\n\
    auipc x1, -1\n\
    beq x1, x2, 4096\n\
    beq x1, x2, -4098\n\
    beq x1, x2, 4093\n\
    beq x0, x0, 3\n\
    bne x1, x2, 4096\n\
    bne x1, x2, -4098\n\
    bne x1, x2, 4093\n\
    blt x1, x2, 4096\n\
    blt x1, x2, -4098\n\
    blt x1, x2, 4093\n\
    bge x1, x2, 4096\n\
    bge x1, x2, -4098\n\
    bge x1, x2, 4093\n\
    bltu x1, x2, 4096\n\
    bltu x1, x2, -4098\n\
    bltu x1, x2, 4093\n\
    bgeu x1, x2, 4096\n\
    bgeu x1, x2, -4098\n\
    bgeu x1, x2, 4093\n\
    jal x1, 1048576\n\
    jal x1, -1048578\n\
    jal x1, 1048573\n\
    .word 4294967296\n\
    .word -2147483649\n\
    .zero 4194305\n\
    .zero -1\n\
    addi x1, x0, 99999999999999999999999999\n\
    addi x1, x0, -0xFFFFFFFF";

// Texts that aren't lines.
const MISSPELLED: &str = "\
    add x1 x2, x3\n\
    add x1, x2, x3,\n\
    add , x1, x2\n\
    addi x1, x0, 010\n\
    addi x1, x0, 0x123456789\n\
    addi x1, x0, 0x\n\
    addi x1, x0, 0X1\n\
    addi x1, x0, +1\n\
    addi x1, x0, --1\n\
    addi x1, x0, 1a\n\
    addi x1, x0, a.b\n\
    lw x1, 4(x2\n\
    lw x1, 4(x2)5\n\
    lw x1, 4((x2))\n\
    lw x1, ()\n\
    a : ecall\n\
    a: b: ecall\n\
    1a: ecall\n\
    add, x1, x2, x3\n\
    5\n\
    ecall ~";

// Words that aren't mnemonics.
const UNKNOWN: &str = "\
    nop\n\
    li x1, 5\n\
    ADD x1, x2, x3\n\
    add.w x1, x2, x3\n\
    lr x1, (x2)\n\
    sc x1, x3, (x2)\n\
    amoadd x1, x3, (x2)\n\
    amoadd.w.rlaq x1, x3, (x2)\n\
    amoadd.d x1, x3, (x2)\n\
    fence.tso\n\
    mret\n\
    .byte 1\n\
    .\n\
    _add x1, x2, x3\n\
    subi x1, x2, 3\n\
    csrrw x1, x2, x3";

// Operands of the wrong number or kind.
const UNFIT: &str = "\
    add x1, x2\n\
    add x1, x2, x3, x4\n\
    add x1, x2, 3\n\
    add x1, x2, x32\n\
    add x1, x2, x01\n\
    addi x1, x2\n\
    addi x1, x2, x3\n\
    addi 1, x2, 3\n\
    slli x1, x2\n\
    lw x1, x2\n\
    lw x1, 4\n\
    lw x1, (x2)\n\
    lw x1, 4(2)\n\
    lw x1, x3(x2)\n\
    sw x1, (x2)\n\
    jalr x1, x2, 4\n\
    lui x1\n\
    lui x1, x2\n\
    beq x1, 4\n\
    beq x1, x2, x3\n\
    jal 4\n\
    jal x1, x2\n\
    lr.w x1, 0(x2)\n\
    lr.w x1, x3, (x2)\n\
    sc.w x1, (x2)\n\
    sc.w x1, x3, x2\n\
    amoadd.w x1, x3, 4(x2)\n\
    fence 1\n\
    fence.i x1\n\
    ecall x0\n\
    ecall ecall\n\
    ebreak 0\n\
    .word\n\
    .word 1, 2\n\
    .word x1\n\
    .zero\n\
    .zero a\n\
    .zero x1";
