//! Words that an assembler wrote, with the instructions that they denote.
use dl_isa::{
    AmoOp, BranchOp, Imm12, Imm20, ImmediateOp, Instr, LoadOp, Reg, RegisterOp, ShiftOp, StoreOp,
    decode, encode, redecoded, respelled,
};

#[test]
fn reads_and_writes_words(rt: HostRuntime) {
    for (word, instr) in &words() {
        assert!(rt; is_spelled(*word, instr), "{word:08X}");
    }
}

fn is_spelled(word: u32, instr: &Instr) -> bool {
    decode(word) == Some(*instr)
        && encode(instr) == word
        && respelled(word) == Some(word)
        && redecoded(instr) == Some(*instr)
}

fn words() -> [(u32, Instr); 17] {
    [
        // lui x5, 0x12345
        (
            0x1234_52B7,
            Instr::Lui {
                rd: Reg::new(5),
                imm: Imm20::new(0x12345),
            },
        ),
        // auipc x6, 0xFFFFF
        (
            0xFFFF_F317,
            Instr::Auipc {
                rd: Reg::new(6),
                imm: Imm20::new(0xF_FFFF),
            },
        ),
        // jal x0, 2048
        (
            0x0010_006F,
            Instr::Jal {
                rd: Reg::new(0),
                offset: Imm20::new(0x400),
            },
        ),
        // jalr x1, 4(x5)
        (
            0x0042_80E7,
            Instr::Jalr {
                rd: Reg::new(1),
                rs1: Reg::new(5),
                offset: Imm12::new(4),
            },
        ),
        // beq x10, x11, -4096
        (
            0x80B5_0063,
            Instr::Branch {
                op: BranchOp::Beq,
                rs1: Reg::new(10),
                rs2: Reg::new(11),
                offset: Imm12::new(0x800),
            },
        ),
        // bgeu x1, x2, 2046
        (
            0x7E20_FF63,
            Instr::Branch {
                op: BranchOp::Bgeu,
                rs1: Reg::new(1),
                rs2: Reg::new(2),
                offset: Imm12::new(0x3FF),
            },
        ),
        // lhu x7, 2047(x8)
        (
            0x7FF4_5383,
            Instr::Load {
                op: LoadOp::Lhu,
                rd: Reg::new(7),
                rs1: Reg::new(8),
                offset: Imm12::new(0x7FF),
            },
        ),
        // sw x11, -1(x2)
        (
            0xFEB1_2FA3,
            Instr::Store {
                op: StoreOp::Sw,
                rs1: Reg::new(2),
                rs2: Reg::new(11),
                offset: Imm12::new(0xFFF),
            },
        ),
        // addi x10, x11, -2048
        (
            0x8005_8513,
            Instr::Immediate {
                op: ImmediateOp::Addi,
                rd: Reg::new(10),
                rs1: Reg::new(11),
                imm: Imm12::new(0x800),
            },
        ),
        // srai x9, x10, 4
        (
            0x4045_5493,
            Instr::Shift {
                op: ShiftOp::Srai,
                rd: Reg::new(9),
                rs1: Reg::new(10),
                amount: Reg::new(4),
            },
        ),
        // mul x12, x13, x14
        (
            0x02E6_8633,
            Instr::Register {
                op: RegisterOp::Mul,
                rd: Reg::new(12),
                rs1: Reg::new(13),
                rs2: Reg::new(14),
            },
        ),
        // fence rw, w
        (
            0x0310_000F,
            Instr::Fence {
                rd: Reg::new(0),
                rs1: Reg::new(0),
                imm: Imm12::new(0x031),
            },
        ),
        // ecall, ebreak
        (0x0000_0073, Instr::Ecall),
        (0x0010_0073, Instr::Ebreak),
        // lr.w.aq x5, (x10)
        (
            0x1405_22AF,
            Instr::LoadReserved {
                rd: Reg::new(5),
                rs1: Reg::new(10),
                acquire: true,
                release: false,
            },
        ),
        // sc.w.rl x6, x7, (x10)
        (
            0x1A75_232F,
            Instr::StoreConditional {
                rd: Reg::new(6),
                rs1: Reg::new(10),
                rs2: Reg::new(7),
                acquire: false,
                release: true,
            },
        ),
        // amoadd.w x8, x9, (x10)
        (
            0x0095_242F,
            Instr::Amo {
                op: AmoOp::Amoadd,
                rd: Reg::new(8),
                rs1: Reg::new(10),
                rs2: Reg::new(9),
                acquire: false,
                release: false,
            },
        ),
    ]
}

#[test]
fn refuses_words_outside_the_table(rt: HostRuntime) {
    // mret, csrrw, lr.w with a second register, RV64's lwu, slli by 32, sub with funct7 7F
    for word in &[
        0x3020_0073,
        0x3000_1073,
        0x1015_22AF,
        0x0000_6003,
        0x0200_1013,
        0xFE00_0033,
    ] {
        assert!(rt; decode(*word).is_none(), "{word:08X}");
    }
}
