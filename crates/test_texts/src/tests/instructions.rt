//! Instructions with their words, from another assembler and a model apart from this code.
use dl_asm::assemble;
use std::test::Fail;

#[test]
fn an_instruction_is_its_word(rt: HostRuntime) -> Result<(), Fail> {
    for text in INSTRUCTIONS.lines() {
        let (word, line) = text.split_once(' ').ok_or("no word")?;
        let word = u32::from_str_radix(word, 16)?;
        let file = assemble(rt.alloc(), line.as_bytes())?;
        assert!(rt; file.as_slice().ends_with(&word.to_le_bytes()), "at {line}");
        assert!(rt; file.len() == 88, "at {line}");
    }
    Ok(())
}

// The sixty instructions and `.word`, at the ends of their ranges, each after its word.
const INSTRUCTIONS: &str = "\
    01100FB3 add x31, x0, x17\n\
    40880233 sub x4, x16, x8\n\
    01EF9033 sll x0, x31, x30\n\
    003120B3 slt x1, x2, x3\n\
    01103FB3 sltu x31, x0, x17\n\
    00884233 xor x4, x16, x8\n\
    01EFD033 srl x0, x31, x30\n\
    403150B3 sra x1, x2, x3\n\
    01106FB3 or x31, x0, x17\n\
    00887233 and x4, x16, x8\n\
    03EF8033 mul x0, x31, x30\n\
    023110B3 mulh x1, x2, x3\n\
    03102FB3 mulhsu x31, x0, x17\n\
    02883233 mulhu x4, x16, x8\n\
    03EFC033 div x0, x31, x30\n\
    023150B3 divu x1, x2, x3\n\
    03106FB3 rem x31, x0, x17\n\
    02887233 remu x4, x16, x8\n\
    800F8013 addi x0, x31, -2048\n\
    7FF10093 addi x1, x2, 2047\n\
    80002F93 slti x31, x0, -2048\n\
    7FF82213 slti x4, x16, 2047\n\
    800FB013 sltiu x0, x31, -2048\n\
    7FF13093 sltiu x1, x2, 2047\n\
    80004F93 xori x31, x0, -2048\n\
    7FF84213 xori x4, x16, 2047\n\
    800FE013 ori x0, x31, -2048\n\
    7FF16093 ori x1, x2, 2047\n\
    80007F93 andi x31, x0, -2048\n\
    7FF87213 andi x4, x16, 2047\n\
    000F9013 slli x0, x31, 0\n\
    01F11093 slli x1, x2, 31\n\
    00005F93 srli x31, x0, 0\n\
    01F85213 srli x4, x16, 31\n\
    400FD013 srai x0, x31, 0\n\
    41F15093 srai x1, x2, 31\n\
    80000F83 lb x31, -2048(x0)\n\
    7FF80203 lb x4, 2047(x16)\n\
    800F9003 lh x0, -2048(x31)\n\
    7FF11083 lh x1, 2047(x2)\n\
    80002F83 lw x31, -2048(x0)\n\
    7FF82203 lw x4, 2047(x16)\n\
    800FC003 lbu x0, -2048(x31)\n\
    7FF14083 lbu x1, 2047(x2)\n\
    80005F83 lhu x31, -2048(x0)\n\
    7FF85203 lhu x4, 2047(x16)\n\
    800F8067 jalr x0, -2048(x31)\n\
    7FF100E7 jalr x1, 2047(x2)\n\
    81F00023 sb x31, -2048(x0)\n\
    7E480FA3 sb x4, 2047(x16)\n\
    800F9023 sh x0, -2048(x31)\n\
    7E111FA3 sh x1, 2047(x2)\n\
    81F02023 sw x31, -2048(x0)\n\
    7E482FA3 sw x4, 2047(x16)\n\
    00000037 lui x0, 0\n\
    FFFFF0B7 lui x1, 1048575\n\
    00000F97 auipc x31, 0\n\
    FFFFF217 auipc x4, 1048575\n\
    81F00063 beq x0, x31, -4096\n\
    7E208FE3 beq x1, x2, 4094\n\
    800F9063 bne x31, x0, -4096\n\
    7F021FE3 bne x4, x16, 4094\n\
    81F04063 blt x0, x31, -4096\n\
    7E20CFE3 blt x1, x2, 4094\n\
    800FD063 bge x31, x0, -4096\n\
    7F025FE3 bge x4, x16, 4094\n\
    81F06063 bltu x0, x31, -4096\n\
    7E20EFE3 bltu x1, x2, 4094\n\
    800FF063 bgeu x31, x0, -4096\n\
    7F027FE3 bgeu x4, x16, 4094\n\
    8000006F jal x0, -1048576\n\
    7FFFF0EF jal x1, 1048574\n\
    10002FAF lr.w x31, (x0)\n\
    1408222F lr.w.aq x4, (x16)\n\
    120FA02F lr.w.rl x0, (x31)\n\
    160120AF lr.w.aqrl x1, (x2)\n\
    19102FAF sc.w x31, x17, (x0)\n\
    1C88222F sc.w.aq x4, x8, (x16)\n\
    1BEFA02F sc.w.rl x0, x30, (x31)\n\
    1E3120AF sc.w.aqrl x1, x3, (x2)\n\
    01102FAF amoadd.w x31, x17, (x0)\n\
    0488222F amoadd.w.aq x4, x8, (x16)\n\
    03EFA02F amoadd.w.rl x0, x30, (x31)\n\
    063120AF amoadd.w.aqrl x1, x3, (x2)\n\
    09102FAF amoswap.w x31, x17, (x0)\n\
    0C88222F amoswap.w.aq x4, x8, (x16)\n\
    0BEFA02F amoswap.w.rl x0, x30, (x31)\n\
    0E3120AF amoswap.w.aqrl x1, x3, (x2)\n\
    21102FAF amoxor.w x31, x17, (x0)\n\
    2488222F amoxor.w.aq x4, x8, (x16)\n\
    23EFA02F amoxor.w.rl x0, x30, (x31)\n\
    263120AF amoxor.w.aqrl x1, x3, (x2)\n\
    41102FAF amoor.w x31, x17, (x0)\n\
    4488222F amoor.w.aq x4, x8, (x16)\n\
    43EFA02F amoor.w.rl x0, x30, (x31)\n\
    463120AF amoor.w.aqrl x1, x3, (x2)\n\
    61102FAF amoand.w x31, x17, (x0)\n\
    6488222F amoand.w.aq x4, x8, (x16)\n\
    63EFA02F amoand.w.rl x0, x30, (x31)\n\
    663120AF amoand.w.aqrl x1, x3, (x2)\n\
    81102FAF amomin.w x31, x17, (x0)\n\
    8488222F amomin.w.aq x4, x8, (x16)\n\
    83EFA02F amomin.w.rl x0, x30, (x31)\n\
    863120AF amomin.w.aqrl x1, x3, (x2)\n\
    A1102FAF amomax.w x31, x17, (x0)\n\
    A488222F amomax.w.aq x4, x8, (x16)\n\
    A3EFA02F amomax.w.rl x0, x30, (x31)\n\
    A63120AF amomax.w.aqrl x1, x3, (x2)\n\
    C1102FAF amominu.w x31, x17, (x0)\n\
    C488222F amominu.w.aq x4, x8, (x16)\n\
    C3EFA02F amominu.w.rl x0, x30, (x31)\n\
    C63120AF amominu.w.aqrl x1, x3, (x2)\n\
    E1102FAF amomaxu.w x31, x17, (x0)\n\
    E488222F amomaxu.w.aq x4, x8, (x16)\n\
    E3EFA02F amomaxu.w.rl x0, x30, (x31)\n\
    E63120AF amomaxu.w.aqrl x1, x3, (x2)\n\
    0FF0000F fence\n\
    0000100F fence.i\n\
    00000073 ecall\n\
    00100073 ebreak\n\
    80000000 .word -2147483648\n\
    FFFFFFFF .word 4294967295";
