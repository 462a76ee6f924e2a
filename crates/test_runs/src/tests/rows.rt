//! Worked recordings and replays, each with every file that is read and every byte that is to be written. They come
//! from outside the code.
use super::{Case, RUN, come_out};
use spec_program::status::Status;
use std::test::Fail;

#[test]
fn small_runs_come_out_byte_for_byte(rt: HostRuntime) -> Result<(), Fail> {
    come_out(&rt, rt.alloc(), SMALL)
}

#[test]
fn races_of_two_threads_come_out_byte_for_byte(rt: HostRuntime) -> Result<(), Fail> {
    come_out(&rt, rt.alloc(), RACES)
}

#[test]
fn turns_of_two_threads_come_out_byte_for_byte(rt: HostRuntime) -> Result<(), Fail> {
    come_out(&rt, rt.alloc(), TURNS_OF_TWO)
}

#[test]
fn stores_come_out_byte_for_byte(rt: HostRuntime) -> Result<(), Fail> {
    come_out(&rt, rt.alloc(), STORES)
}

#[test]
fn what_comes_from_outside_comes_out_byte_for_byte(rt: HostRuntime) -> Result<(), Fail> {
    come_out(&rt, rt.alloc(), OUTSIDE)
}

#[test]
fn logs_that_are_left_come_out_byte_for_byte(rt: HostRuntime) -> Result<(), Fail> {
    come_out(&rt, rt.alloc(), LEFT)
}

const SMALL: &[Case] = &[
    SMALL_ANSWERS,
    THREE_INSTRUCTIONS_ORDER_ONLY,
    THREE_INSTRUCTIONS_PICOLOG,
    EMPTY_LOG_REPLAYED,
    DEVICE_WORDS,
    DEVICE_WORDS_REPLAYED,
    DIVISION_EDGES,
    JUMP_TO_SIX,
];

const RACES: &[Case] = &[
    SPAWN_AND_RACE,
    SPAWN_AND_RACE_REPLAYED,
    FALSE_HIT,
    RESERVATION_LOST,
    HALVED_LIMIT,
];

const TURNS_OF_TWO: &[Case] = &[TURNS, TURNS_WINDOW_1, BUSY_SPHERE, TWO_THREADS_ONE_CORE];

const STORES: &[Case] = &[
    RESERVATION_KEPT,
    PIECES_BY_HAND,
    REPLAY_IN_PIECES,
    FINISHING_A_FLIGHT,
    WRITES_ITS_NEXT_INSTRUCTION,
    WRITES_ITS_NEXT_INSTRUCTION_REPLAYED,
];

const OUTSIDE: &[Case] = &[
    PIPE_BETWEEN_SPHERES,
    PIPE_REPLAYED_ALONE,
    DMA,
    DMA_REPLAYED,
    INTERRUPT,
    INTERRUPT_REPLAYED,
];

const LEFT: &[Case] = &[
    DIVERGED_THEN_STOPPED,
    WRONG_RECORD,
    TOO_SHORT,
    NO_SUCH_THREAD,
    RECORD_LEFT_OVER,
    LOG_CUT_TO_16,
    LOG_AND_ONE_BYTE,
];

const SMALL_ANSWERS: Case = Case {
    words: RUN,
    read: &[
        ("a.elf", b"code: 00000893 00700513 00000073"),
        ("plan.toml", b"plan: record"),
        (
            "s.txt",
            b"lines: ask 0, cut 0, drain 0, deliver 0 0, retire 1, place 0 0 0, place 0 0 3, raise 0 0 5, dma 0, \
              step 0, cut 0, step 0, ask 0",
        ),
    ],
    status: Status::Done,
    said: b"events 13\ncommits 1\ns 0 record 1\n",
    written: &[
        (
            "a.log",
            b"DLRN\x01\0\0\0d\0\0\0\x01\0\0\0\x01\0\0\0\0\x01\0\0\0\x01\0\0\0\0\0\0\0\0\0\0\0\0\0",
        ),
        (
            "a.txt",
            b"account: c 0 0 1, t 0 00000004 live 00000000 0, m 00000000 930800001305700073, end complete 1",
        ),
        (
            "r.txt",
            b"lines: g 12 0 0 chunk 1, r Ran 1, r Closed 1, r Waiting 1, r NothingRun 1, r Granted 1, r NotClosed 1, \
              r NoCommit 3, r Elsewhere 1, r NoThread 1, r NoHandler 1, r NoDma 1, events 13, commits 1, s 0 record 1",
        ),
    ],
};

const THREE_INSTRUCTIONS_ORDER_ONLY: Case = Case {
    words: RUN,
    read: &[
        ("a.elf", b"code: 00000893 00700513 00000073"),
        ("plan.toml", b"plan: record, mode = \"order-only\""),
        ("s.txt", b"lines: step 0 x3, ask 0, step 0, ask 0"),
    ],
    status: Status::Done,
    said: b"events 6\ncommits 2\ns 0 record 2\n",
    written: &[
        (
            "a.log",
            b"DLRN\x01\x01\0\0d\0\0\0\x02\0\0\0\x02\0\0\0\0\0\0\0\0\0\0\0\0\0\0\0\0\0\0\0\0",
        ),
        (
            "a.txt",
            b"account: c 0 0 2, c 1 0 0, t 0 0000000C ended:7 00000000 0 x10=7, m 00000000 930800001305700073, \
              end complete 2",
        ),
        (
            "r.txt",
            b"g 3 0 0 chunk 2\ng 5 0 0 serial 0\nr Ran 2\nr Closed 2\nr Granted 2\nevents 6\ncommits 2\ns 0 record 2\n",
        ),
    ],
};

const THREE_INSTRUCTIONS_PICOLOG: Case = Case {
    words: RUN,
    read: &[
        ("a.elf", b"code: 00000893 00700513 00000073"),
        ("plan.toml", b"plan: record, mode = \"picolog\""),
        ("s.txt", b"lines: step 0 x3, ask 0, step 0, ask 0"),
    ],
    status: Status::Done,
    said: b"events 6\ncommits 2\ns 0 record 2\n",
    written: &[
        (
            "a.log",
            b"DLRN\x01\x02\0\0d\0\0\0\x02\0\0\0\0\0\0\0\0\0\0\0\0\0\0\0\0\0\0\0\0\0\0\0",
        ),
        (
            "a.txt",
            b"account: c 0 0 2, c 1 0 0, t 0 0000000C ended:7 00000000 0 x10=7, m 00000000 930800001305700073, \
              end complete 2",
        ),
        (
            "r.txt",
            b"g 3 0 0 chunk 2\ng 5 0 0 serial 0\nr Ran 2\nr Closed 2\nr Granted 2\nevents 6\ncommits 2\ns 0 record 2\n",
        ),
    ],
};

const EMPTY_LOG_REPLAYED: Case = Case {
    words: RUN,
    read: &[
        ("a.elf", b"code: 00000893 00700513 00000073"),
        (
            "a.log",
            b"DLRN\x01\0\0\0d\0\0\0\0\0\0\0\0\0\0\0\0\0\0\0\0\0\0\0\0\0\0\0\0\0\0\0",
        ),
        ("plan.toml", b"plan: replay"),
        ("s.txt", b"lines: step 0, place 0 0 0, raise 0 0 1, dma 0"),
    ],
    status: Status::Done,
    said: b"events 4\ncommits 0\ns 0 complete 0\n",
    written: &[
        (
            "b.txt",
            b"account: t 0 00000000 live 00000000 0, m 00000000 930800001305700073, end complete 0",
        ),
        (
            "r.txt",
            b"r Stopped 2\nr Elsewhere 1\nr FromLog 1\nevents 4\ncommits 0\ns 0 complete 0\n",
        ),
    ],
};

const DEVICE_WORDS: Case = Case {
    words: RUN,
    read: &[
        (
            "a.elf",
            b"code: F00002B7 0002A303 0042A383 0072A423 00028403",
        ),
        ("in", b"A"),
        (
            "plan.toml",
            b"plan: input = \"in\", console = \"con\"; record",
        ),
        (
            "s.txt",
            b"lines: step 0 x2, ask 0, step 0, ask 0, step 0, ask 0, step 0, ask 0, step 0, ask 0",
        ),
    ],
    status: Status::Done,
    said: b"events 11\ncommits 5\ns 0 record 5\n",
    written: &[
        (
            "a.log",
            b"DLRN\x01\0\0\0d\0\0\0\x05\0\0\0\x05\0\0\0\0\0\0\x05\0\0\0\x01\0\0\0\0\0\0\0\0\0\0\0\0\0\x02\0\0\0\x10\x04\0\0\0\0\0\x11A\0\0\0\0\0\0\0\0\0",
        ),
        (
            "a.txt",
            b"account: c 0 0 1, c 1 0 0, l F0000000 00000004, c 2 0 0, l F0000004 00000041, c 3 0 0, o 8 41, c 4 0 0, \
              t 0 00000010 fault:5 00000000 0 x5=F0000000 x6=4 x7=41, \
              m 00000000 B70200F003A3020083A3420023A47200038402, end complete 5",
        ),
        ("con", b"A"),
        (
            "r.txt",
            b"lines: g 2 0 0 chunk 1, g 4 0 0 serial 0, g 6 0 0 serial 0, g 8 0 0 serial 0, g 10 0 0 serial 0, \
              r Ran 1, r Closed 5, r Granted 5, events 11, commits 5, s 0 record 5",
        ),
    ],
};

const DEVICE_WORDS_REPLAYED: Case = Case {
    words: RUN,
    read: &[
        (
            "a.elf",
            b"code: F00002B7 0002A303 0042A383 0072A423 00028403",
        ),
        (
            "a.log",
            b"DLRN\x01\0\0\0d\0\0\0\x05\0\0\0\x05\0\0\0\0\0\0\x05\0\0\0\x01\0\0\0\0\0\0\0\0\0\0\0\0\0\x02\0\0\0\x10\x04\0\0\0\0\0\x11A\0\0\0\0\0\0\0\0\0",
        ),
        ("plan.toml", b"plan: replay"),
        ("s.txt", b""),
    ],
    status: Status::Done,
    said: b"events 10\ncommits 5\ns 0 complete 5\n",
    written: &[
        (
            "b.txt",
            b"account: c 0 0 1, c 1 0 0, l F0000000 00000004, c 2 0 0, l F0000004 00000041, c 3 0 0, o 8 41, c 4 0 0, \
              t 0 00000010 fault:5 00000000 0 x5=F0000000 x6=4 x7=41, \
              m 00000000 B70200F003A3020083A3420023A47200038402, end complete 5",
        ),
        (
            "r.txt",
            b"lines: g 1 0 0 chunk 1, g 3 0 0 serial 0, g 5 0 0 serial 0, g 7 0 0 serial 0, g 9 0 0 serial 0, \
              r Closed 5, r Granted 5, events 10, commits 5, s 0 complete 5",
        ),
    ],
};

const DIVISION_EDGES: Case = Case {
    words: RUN,
    read: &[
        (
            "a.elf",
            b"code: 800002B7 00028293 00000337 FFF30313 0262C5B3 800002B7 00028293 00000337 FFF30313 0262E633 \
              000002B7 00728293 00000337 00030313 0262C6B3 000002B7 00728293 00000337 00030313 0262D733 000002B7 \
              00728293 00000337 00030313 0262E7B3 000002B7 00728293 00000337 00030313 0262F833 800002B7 00028293 \
              00000337 FFF30313 0262A8B3 000002B7 FFF28293 00000337 FFF30313 0262A933 000002B7 FFF28293 00000337 \
              FFF30313 0262B9B3 00000893 00000073",
        ),
        ("plan.toml", b"plan: record"),
        ("s.txt", b"lines: step 0 x47, ask 0, step 0, ask 0"),
    ],
    status: Status::Done,
    said: b"events 50\ncommits 2\ns 0 record 2\n",
    written: &[
        (
            "a.log",
            b"DLRN\x01\0\0\0d\0\0\0\x02\0\0\0\x02\0\0\0\0\x02\0\0\0.\0\0\0\0\0\0\0\0\0\0\0\0\0\0\0",
        ),
        (
            "a.txt",
            b"account: c 0 0 46, c 1 0 0, t 0 000000BC ended:0 00000000 0 x5=FFFFFFFF x6=FFFFFFFF x11=80000000 \
              x13=FFFFFFFF x14=FFFFFFFF x15=7 x16=7 x18=FFFFFFFF x19=FFFFFFFE, \
              m 00000000 B702008093820200370300001303F3FFB3C56202B7020080938202003703, \
              m 00000020 1303F3FF33E66202B7020000938272003703000013030300B3C66202B702, \
              m 00000040 93827200370300001303030033D76202B70200009382720037030000130303, \
              m 00000060 B3E76202B702000093827200370300001303030033F86202B7020080938202, \
              m 00000080 370300001303F3FFB3A86202B70200009382F2FF370300001303F3FF33A96202, \
              m 000000A0 B70200009382F2FF370300001303F3FFB3B962029308000073, end complete 2",
        ),
        (
            "r.txt",
            b"g 47 0 0 chunk 46\ng 49 0 0 serial 0\nr Ran 46\nr Closed 2\nr Granted 2\nevents 50\ncommits 2\ns 0 record 2\n",
        ),
    ],
};

const JUMP_TO_SIX: Case = Case {
    words: RUN,
    read: &[
        ("a.elf", b"code: 00600293 000280E7"),
        ("plan.toml", b"plan: record"),
        ("s.txt", b"lines: step 0 x2, ask 0, step 0, ask 0"),
    ],
    status: Status::Done,
    said: b"events 5\ncommits 2\ns 0 record 2\n",
    written: &[
        (
            "a.log",
            b"DLRN\x01\0\0\0d\0\0\0\x02\0\0\0\x02\0\0\0\0\x02\0\0\0\x01\0\0\0\0\0\0\0\0\0\0\0\0\0\0\0",
        ),
        (
            "a.txt",
            b"account: c 0 0 1, c 1 0 0, t 0 00000004 fault:0 00000000 0 x5=6, m 00000000 93026000E78002, \
              end complete 2",
        ),
        (
            "r.txt",
            b"g 2 0 0 chunk 1\ng 4 0 0 serial 0\nr Ran 1\nr Closed 2\nr Granted 2\nevents 5\ncommits 2\ns 0 record 2\n",
        ),
    ],
};

const SPAWN_AND_RACE: Case = Case {
    words: RUN,
    read: &[
        (
            "a.elf",
            b"code: 00100893 02000513 00000613 00000073 10002283 00000893 00000073 00000013 00900313 10602023 \
              00000893 00000073",
        ),
        ("plan.toml", b"plan: cores = 2; record"),
        (
            "s.txt",
            b"lines: step 0 x4, ask 0, step 0, ask 0, place 1 0 1, step 1 x4, ask 1, step 0 x3, ask 0, deliver 0 0, \
              step 0, drain 0, retire 0, step 0 x3, ask 0, step 0, ask 0, step 1, ask 1",
        ),
    ],
    status: Status::Done,
    said: b"events 29\ncommits 6\ns 0 record 6\n",
    written: &[
        (
            "a.log",
            b"DLRN\x01\0\0\0d\0\0\0\x06\0\0\0\x06\0\0\0\0\x01\x10\x06\0\0\0\x03\0\0\0\x03\0\x02\0\0\0\0\0\0\0\0\0\0\0\0\0\0\0\0\0",
        ),
        (
            "a.txt",
            b"account: c 0 0 3, c 1 0 0, c 2 1 3, c 3 0 2, l 00000100 00000009, c 4 0 0, c 5 1 0, \
              t 0 0000001C ended:1 00000000 0 x5=9 x10=1, t 1 00000030 ended:0 00000000 0 x6=9, \
              m 00000000 9308100013050002130600007300000083220010930800007300000013, \
              m 00000020 13039000232060109308000073, m 00000100 09, end complete 6",
        ),
        (
            "r.txt",
            b"lines: g 4 0 0 chunk 3, g 6 0 0 serial 0, g 12 0 1 chunk 3, g 24 0 0 chunk 2, g 26 0 0 serial 0, \
              g 28 0 1 serial 0, r Ran 10, r Closed 7, r Bounced 1, r Granted 6, r Denied 1, r Drained 1, \
              r Squashed 1, r Retired 1, r Placed 1, events 29, commits 6, s 0 record 6",
        ),
    ],
};

const SPAWN_AND_RACE_REPLAYED: Case = Case {
    words: RUN,
    read: &[
        (
            "a.elf",
            b"code: 00100893 02000513 00000613 00000073 10002283 00000893 00000073 00000013 00900313 10602023 \
              00000893 00000073",
        ),
        (
            "a.log",
            b"DLRN\x01\0\0\0d\0\0\0\x06\0\0\0\x06\0\0\0\0\x01\x10\x06\0\0\0\x03\0\0\0\x03\0\x02\0\0\0\0\0\0\0\0\0\0\0\0\0\0\0\0\0",
        ),
        ("plan.toml", b"plan: replay"),
        ("s.txt", b""),
    ],
    status: Status::Done,
    said: b"events 22\ncommits 6\ns 0 complete 6\n",
    written: &[
        (
            "b.txt",
            b"account: c 0 0 3, c 1 0 0, c 2 1 3, c 3 0 2, l 00000100 00000009, c 4 0 0, c 5 1 0, \
              t 0 0000001C ended:1 00000000 0 x5=9 x10=1, t 1 00000030 ended:0 00000000 0 x6=9, \
              m 00000000 9308100013050002130600007300000083220010930800007300000013, \
              m 00000020 13039000232060109308000073, m 00000100 09, end complete 6",
        ),
        (
            "r.txt",
            b"lines: g 3 0 0 chunk 3, g 5 0 0 serial 0, g 10 0 1 chunk 3, g 16 0 0 chunk 2, g 18 0 0 serial 0, \
              g 21 0 1 serial 0, r Ran 5, r Closed 6, r Granted 6, r Drained 1, r Retired 1, r Placed 3, events 22, \
              commits 6, s 0 complete 6",
        ),
    ],
};

const FALSE_HIT: Case = Case {
    words: RUN,
    read: &[
        (
            "a.elf",
            b"code: 00100893 02000513 00000613 00000073 10002283 00000893 00000073 00000013 00002337 50632023 \
              00000893 00000073",
        ),
        ("plan.toml", b"plan: cores = 2; record, memory = 12288"),
        (
            "s.txt",
            b"lines: step 0 x4, ask 0, step 0, ask 0, place 1 0 1, step 1 x4, ask 1, step 0 x3, ask 0, deliver 0 0, \
              step 0, drain 0, retire 0, step 0 x3, ask 0, step 0, ask 0, step 1, ask 1",
        ),
    ],
    status: Status::Done,
    said: b"events 29\ncommits 6\ns 0 record 6\n",
    written: &[
        (
            "a.log",
            b"DLRN\x01\0\0\0d\0\0\0\x06\0\0\0\x06\0\0\0\0\x01\x10\x06\0\0\0\x03\0\0\0\x03\0\x02\0\0\0\0\0\0\0\0\0\0\0\0\0\0\0\0\0",
        ),
        (
            "a.txt",
            b"account: c 0 0 3, c 1 0 0, c 2 1 3, c 3 0 2, l 00000100 00000000, c 4 0 0, c 5 1 0, \
              t 0 0000001C ended:1 00000000 0 x10=1, t 1 00000030 ended:0 00000000 0 x6=2000, \
              m 00000000 9308100013050002130600007300000083220010930800007300000013, \
              m 00000020 37230000232063509308000073, m 00002500 0020, end complete 6",
        ),
        (
            "r.txt",
            b"lines: g 4 0 0 chunk 3, g 6 0 0 serial 0, g 12 0 1 chunk 3, g 24 0 0 chunk 2, g 26 0 0 serial 0, \
              g 28 0 1 serial 0, r Ran 10, r Closed 7, r Bounced 1, r Granted 6, r Denied 1, r Drained 1, \
              r Squashed 1, r Retired 1, r Placed 1, events 29, commits 6, s 0 record 6",
        ),
    ],
};

const RESERVATION_LOST: Case = Case {
    words: RUN,
    read: &[
        (
            "a.elf",
            b"code: 10400293 10502023 1002A32F 1852A3AF 00000893 00000073",
        ),
        (
            "plan.toml",
            b"plan: buffer = 1; record, mode = \"order-only\"",
        ),
        (
            "s.txt",
            b"lines: step 0 x4, ask 0, step 0 x3, ask 0, step 0, ask 0, drain 0, retire 0, ask 0",
        ),
    ],
    status: Status::Done,
    said: b"events 14\ncommits 3\ns 0 record 3\n",
    written: &[
        (
            "a.log",
            b"DLRN\x01\x01\0\0d\0\0\0\x03\0\0\0\x03\0\0\0\0\0\x01\0\0\0\0\0\0\0\0\x03\0\0\0\0\0\0\0\0\0\0\0\0\0",
        ),
        (
            "a.txt",
            b"account: c 0 0 3, l 00000104 00000000, c 1 0 2, c 2 0 0, t 0 00000018 ended:0 00000000 0 x5=104 x7=1, \
              m 00000000 93024010232050102FA30210AFA352189308000073, m 00000100 0401, end complete 3",
        ),
        (
            "r.txt",
            b"lines: g 4 0 0 chunk 3, g 8 0 0 chunk 2, g 13 0 0 serial 0, r Ran 5, r Closed 3, r Granted 3, \
              r SphereBusy 1, r Drained 1, r Retired 1, events 14, commits 3, s 0 record 3",
        ),
    ],
};

const HALVED_LIMIT: Case = Case {
    words: RUN,
    read: &[
        (
            "a.elf",
            b"code: 00100893 02000513 00000613 00000073 10002283 FFDFF06F 00000013 00000013 10A02023 FFDFF06F",
        ),
        (
            "plan.toml",
            b"plan: cores = 2, chunk = 16; record, mode = \"order-only\"",
        ),
        (
            "s.txt",
            b"lines: step 0 x4, ask 0, step 0, ask 0, place 1 0 1, step 0, step 1 x2, cut 1, ask 1, deliver 0 0, \
              drain 0, retire 0, step 0, step 1 x2, cut 1, ask 1, deliver 0 0, drain 0, retire 0, step 0, step 1 x2, \
              cut 1, ask 1, deliver 0 0, drain 0, retire 0, step 0, step 1 x2, cut 1, ask 1, deliver 0 0, drain 0, \
              retire 0, step 0 x8, ask 0",
        ),
    ],
    status: Status::Done,
    said: b"events 49\ncommits 7\ns 0 record 7\n",
    written: &[
        (
            "a.log",
            b"DLRN\x01\x01\0\0\x10\0\0\0\x07\0\0\0\x07\0\0\0\0\x11\x11\0\x05\0\0\0\0\x02\0\0\0\x08\0\x01\0\0\0\0\x02\
              \0\x01\x01\0\0\0\x02\0\x01\x02\0\0\0\x02\0\x01\x03\0\0\0\x02\0\0\0\0\0\0\0\0\0\0\0\0\0",
        ),
        (
            "a.txt",
            b"account: c 0 0 3, c 1 0 0, c 2 1 2, c 3 1 2, c 4 1 2, c 5 1 2, c 6 0 8, l 00000100 00000000, \
              l 00000100 00000000, l 00000100 00000000, l 00000100 00000000, \
              t 0 00000010 live 00000000 0 x10=1 x17=1, t 1 00000020 live 00000000 0, \
              m 00000000 93081000130500021306000073000000832200106FF0DFFF1300000013, m 00000020 2320A0106FF0DFFF, \
              end complete 7",
        ),
        (
            "r.txt",
            b"lines: g 4 0 0 chunk 3, g 6 0 0 serial 0, g 12 0 1 chunk 2, g 20 0 1 chunk 2, g 28 0 1 chunk 2, \
              g 36 0 1 chunk 2, g 48 0 0 chunk 8, r Ran 22, r Closed 7, r Granted 7, r Drained 4, r Squashed 4, \
              r Retired 4, r Placed 1, events 49, commits 7, s 0 record 7",
        ),
    ],
};

const TURNS: Case = Case {
    words: RUN,
    read: &[
        (
            "a.elf",
            b"code: 00100893 02000513 00000613 00000073 10002283 00000893 00000073 00000013 00900313 10602023 \
              00000893 00000073",
        ),
        ("plan.toml", b"plan: cores = 2; record, mode = \"picolog\""),
        (
            "s.txt",
            b"lines: step 0 x4, ask 0, step 0, ask 0, place 1 0 1, step 1 x4, ask 1, step 0 x3, ask 0, deliver 0 0, \
              step 0, drain 0, retire 0, step 0 x3, ask 0, step 0, ask 0, step 1, ask 1",
        ),
    ],
    status: Status::Done,
    said: b"events 29\ncommits 5\ns 0 record 5\n",
    written: &[
        (
            "a.log",
            b"DLRN\x01\x02\0\0d\0\0\0\x05\0\0\0\0\0\0\0\0\0\0\0\0\0\0\0\0\0\0\0\0\0\0\0",
        ),
        (
            "a.txt",
            b"account: c 0 0 3, c 1 0 0, c 2 1 3, c 3 0 2, l 00000100 00000009, c 4 1 0, \
              t 0 00000018 live 00000000 0 x5=9 x10=1, t 1 00000030 ended:0 00000000 0 x6=9, \
              m 00000000 9308100013050002130600007300000083220010930800007300000013, \
              m 00000020 13039000232060109308000073, m 00000100 09, end complete 5",
        ),
        (
            "r.txt",
            b"lines: g 4 0 0 chunk 3, g 6 0 0 serial 0, g 12 0 1 chunk 3, g 24 0 0 chunk 2, g 28 0 1 serial 0, \
              r Ran 10, r Closed 7, r Bounced 1, r Granted 5, r NotTurn 1, r Denied 1, r Drained 1, r Squashed 1, \
              r Retired 1, r Placed 1, events 29, commits 5, s 0 record 5",
        ),
    ],
};

const TURNS_WINDOW_1: Case = Case {
    words: RUN,
    read: &[
        (
            "a.elf",
            b"code: 00100893 02000513 00000613 00000073 10002283 00000893 00000073 00000013 00900313 10602023 \
              00000893 00000073",
        ),
        (
            "plan.toml",
            b"plan: cores = 2, window = 1; record, mode = \"picolog\"",
        ),
        (
            "s.txt",
            b"lines: step 0 x4, ask 0, step 0, ask 0, place 1 0 1, step 1 x4, ask 1, step 0 x3, ask 0, deliver 0 0, \
              step 0, drain 0, retire 0, step 0 x3, ask 0, step 0, ask 0, step 1, ask 1",
        ),
    ],
    status: Status::Done,
    said: b"events 29\ncommits 5\ns 0 record 5\n",
    written: &[
        (
            "a.log",
            b"DLRN\x01\x02\0\0d\0\0\0\x05\0\0\0\0\0\0\0\0\0\0\0\0\0\0\0\0\0\0\0\0\0\0\0",
        ),
        (
            "a.txt",
            b"account: c 0 0 3, c 1 0 0, c 2 1 3, c 3 0 2, l 00000100 00000009, c 4 1 0, \
              t 0 00000018 live 00000000 0 x5=9 x10=1, t 1 00000030 ended:0 00000000 0 x6=9, \
              m 00000000 9308100013050002130600007300000083220010930800007300000013, \
              m 00000020 13039000232060109308000073, m 00000100 09, end complete 5",
        ),
        (
            "r.txt",
            b"lines: g 4 0 0 chunk 3, g 6 0 0 serial 0, g 12 0 1 chunk 3, g 24 0 0 chunk 2, g 28 0 1 serial 0, \
              r Ran 10, r Closed 7, r Bounced 1, r Granted 5, r NotTurn 1, r WindowFull 1, r Drained 1, r Squashed 1, \
              r Retired 1, r Placed 1, events 29, commits 5, s 0 record 5",
        ),
    ],
};

const BUSY_SPHERE: Case = Case {
    words: RUN,
    read: &[
        (
            "a.elf",
            b"code: 10400293 10502023 1002A32F 1852A3AF 00000893 00000073",
        ),
        ("plan.toml", b"plan: buffer = 1; record"),
        (
            "s.txt",
            b"lines: step 0 x4, ask 0, step 0 x3, ask 0, step 0, ask 0, drain 0, retire 0, ask 0",
        ),
    ],
    status: Status::Done,
    said: b"events 14\ncommits 3\ns 0 record 3\n",
    written: &[
        (
            "a.log",
            b"DLRN\x01\0\0\0d\0\0\0\x03\0\0\0\x03\0\0\0\0\0\x03\0\0\0\x03\0\x02\0\0\0\0\0\0\0\0\0\0\0\0\0\0\0",
        ),
        (
            "a.txt",
            b"account: c 0 0 3, l 00000104 00000000, c 1 0 2, c 2 0 0, t 0 00000018 ended:0 00000000 0 x5=104 x7=1, \
              m 00000000 93024010232050102FA30210AFA352189308000073, m 00000100 0401, end complete 3",
        ),
        (
            "r.txt",
            b"lines: g 4 0 0 chunk 3, g 8 0 0 chunk 2, g 13 0 0 serial 0, r Ran 5, r Closed 3, r Granted 3, \
              r SphereBusy 1, r Drained 1, r Retired 1, events 14, commits 3, s 0 record 3",
        ),
    ],
};

const TWO_THREADS_ONE_CORE: Case = Case {
    words: RUN,
    read: &[
        (
            "a.elf",
            b"code: 00100893 02000513 00000613 00000073 10002283 00000893 00000073 00000013 00900313 10602023 \
              00000893 00000073",
        ),
        ("plan.toml", b"plan: record"),
        (
            "s.txt",
            b"lines: step 0 x4, ask 0, step 0, ask 0, place 0 0 1, step 0 x4, ask 0, step 0, ask 0, drain 0, \
              retire 0, ask 0, step 0, place 0 0 0, step 0 x3, ask 0, step 0, ask 0",
        ),
    ],
    status: Status::Done,
    said: b"events 26\ncommits 6\ns 0 record 6\n",
    written: &[
        (
            "a.log",
            b"DLRN\x01\0\0\0d\0\0\0\x06\0\0\0\x06\0\0\0\0\x11\0\x06\0\0\0\x03\0\0\0\x03\0\0\0\x02\0\0\0\0\0\0\0\0\0\0\0\0\0\0\0",
        ),
        (
            "a.txt",
            b"account: c 0 0 3, c 1 0 0, c 2 1 3, c 3 1 0, c 4 0 2, l 00000100 00000009, c 5 0 0, \
              t 0 0000001C ended:1 00000000 0 x5=9 x10=1, t 1 00000030 ended:0 00000000 0 x6=9, \
              m 00000000 9308100013050002130600007300000083220010930800007300000013, \
              m 00000020 13039000232060109308000073, m 00000100 09, end complete 6",
        ),
        (
            "r.txt",
            b"lines: g 4 0 0 chunk 3, g 6 0 0 serial 0, g 12 0 1 chunk 3, g 17 0 1 serial 0, g 23 0 0 chunk 2, \
              g 25 0 0 serial 0, r Ran 8, r Closed 6, r Idle 1, r Granted 6, r SphereBusy 1, r Drained 1, \
              r Retired 1, r Placed 2, events 26, commits 6, s 0 record 6",
        ),
    ],
};

const RESERVATION_KEPT: Case = Case {
    words: RUN,
    read: &[
        (
            "a.elf",
            b"code: 10400293 10502023 1002A32F 1852A3AF 00000893 00000073",
        ),
        ("plan.toml", b"plan: record, mode = \"order-only\""),
        (
            "s.txt",
            b"lines: step 0 x6, ask 0, drain 0 x2, retire 0, step 0, ask 0",
        ),
    ],
    status: Status::Done,
    said: b"events 12\ncommits 2\ns 0 record 2\n",
    written: &[
        (
            "a.log",
            b"DLRN\x01\x01\0\0d\0\0\0\x02\0\0\0\x02\0\0\0\0\0\0\0\0\0\0\0\0\0\0\0\0\0\0\0\0",
        ),
        (
            "a.txt",
            b"account: c 0 0 5, l 00000104 00000000, c 1 0 0, t 0 00000018 ended:0 00000000 0 x5=104, \
              m 00000000 93024010232050102FA30210AFA352189308000073, m 00000100 040100000401, end complete 2",
        ),
        (
            "r.txt",
            b"g 6 0 0 chunk 5\ng 11 0 0 serial 0\nr Ran 5\nr Closed 2\nr Granted 2\nr Drained 2\nr Retired 1\nevents 12\ncommits 2\ns 0 record 2\n",
        ),
    ],
};

const PIECES_BY_HAND: Case = Case {
    words: RUN,
    read: &[
        (
            "a.elf",
            b"code: 10400293 10502023 1002A32F 1852A3AF 00000893 00000073",
        ),
        (
            "a.log",
            b"DLRN\x01\x01\0\0d\0\0\0\x02\0\0\0\x02\0\0\0\0\0\0\0\0\0\0\0\0\0\0\0\0\0\0\0\0",
        ),
        ("plan.toml", b"plan: buffer = 1; replay"),
        (
            "s.txt",
            b"lines: step 0 x4, ask 0, drain 0, retire 0, step 0 x3, ask 0, drain 0, retire 0, step 0, ask 0",
        ),
    ],
    status: Status::Done,
    said: b"events 15\ncommits 2\ns 0 complete 2\n",
    written: &[
        (
            "b.txt",
            b"account: c 0 0 5, l 00000104 00000000, c 1 0 0, t 0 00000018 ended:0 00000000 0 x5=104, \
              m 00000000 93024010232050102FA30210AFA352189308000073, m 00000100 040100000401, end complete 2",
        ),
        (
            "r.txt",
            b"lines: g 4 0 0 piece 3, g 10 0 0 chunk 2, g 14 0 0 serial 0, r Ran 5, r Closed 3, r Granted 2, \
              r Piece 1, r Drained 2, r Retired 2, events 15, commits 2, s 0 complete 2",
        ),
    ],
};

const REPLAY_IN_PIECES: Case = Case {
    words: RUN,
    read: &[
        (
            "a.elf",
            b"code: 10400293 10502023 1002A32F 1852A3AF 00000893 00000073",
        ),
        (
            "a.log",
            b"DLRN\x01\x01\0\0d\0\0\0\x02\0\0\0\x02\0\0\0\0\0\0\0\0\0\0\0\0\0\0\0\0\0\0\0\0",
        ),
        ("plan.toml", b"plan: buffer = 1; replay"),
        ("s.txt", b""),
    ],
    status: Status::Done,
    said: b"events 15\ncommits 2\ns 0 complete 2\n",
    written: &[
        (
            "b.txt",
            b"account: c 0 0 5, l 00000104 00000000, c 1 0 0, t 0 00000018 ended:0 00000000 0 x5=104, \
              m 00000000 93024010232050102FA30210AFA352189308000073, m 00000100 040100000401, end complete 2",
        ),
        (
            "r.txt",
            b"lines: g 4 0 0 piece 3, g 10 0 0 chunk 2, g 14 0 0 serial 0, r Ran 5, r Closed 3, r Granted 2, \
              r Piece 1, r Drained 2, r Retired 2, events 15, commits 2, s 0 complete 2",
        ),
    ],
};

const FINISHING_A_FLIGHT: Case = Case {
    words: RUN,
    read: &[
        (
            "a.elf",
            b"code: 10400293 10502023 1002A32F 1852A3AF 00000893 00000073",
        ),
        ("plan.toml", b"plan: buffer = 1; record"),
        ("s.txt", b"lines: step 0 x4, ask 0"),
    ],
    status: Status::Done,
    said: b"events 7\ncommits 1\ns 0 record 1\n",
    written: &[
        (
            "a.log",
            b"DLRN\x01\0\0\0d\0\0\0\x01\0\0\0\x01\0\0\0\0\x01\0\0\0\x03\0\0\0\0\0\0\0\0\0\0\0\0\0",
        ),
        (
            "a.txt",
            b"account: c 0 0 3, l 00000104 00000000, t 0 0000000C live 00000000 0 x5=104, \
              m 00000000 93024010232050102FA30210AFA352189308000073, m 00000100 0401, end complete 1",
        ),
        (
            "r.txt",
            b"g 4 0 0 chunk 3\nr Ran 3\nr Closed 1\nr Granted 1\nr Drained 1\nr Retired 1\nevents 7\ncommits 1\ns 0 record 1\n",
        ),
    ],
};

const WRITES_ITS_NEXT_INSTRUCTION: Case = Case {
    words: RUN,
    read: &[
        (
            "a.elf",
            b"code: 007002B7 51328293 00502823 00000893 00000013 00000073",
        ),
        ("plan.toml", b"plan: record"),
        (
            "s.txt",
            b"lines: step 0 x6, ask 0, step 0, drain 0, retire 0, step 0, ask 0",
        ),
    ],
    status: Status::Done,
    said: b"events 12\ncommits 2\ns 0 record 2\n",
    written: &[
        (
            "a.log",
            b"DLRN\x01\0\0\0d\0\0\0\x02\0\0\0\x02\0\0\0\0\x02\0\0\0\x05\0\0\0\0\0\0\0\0\0\0\0\0\0\0\0",
        ),
        (
            "a.txt",
            b"account: c 0 0 5, c 1 0 0, t 0 00000018 ended:7 00000000 0 x5=700513 x10=7, \
              m 00000000 B70270009382325123285000930800001305700073, end complete 2",
        ),
        (
            "r.txt",
            b"lines: g 6 0 0 chunk 5, g 11 0 0 serial 0, r Ran 5, r Closed 2, r Bounced 1, r Granted 2, r Drained 1, \
              r Retired 1, events 12, commits 2, s 0 record 2",
        ),
    ],
};

const WRITES_ITS_NEXT_INSTRUCTION_REPLAYED: Case = Case {
    words: RUN,
    read: &[
        (
            "a.elf",
            b"code: 007002B7 51328293 00502823 00000893 00000013 00000073",
        ),
        (
            "a.log",
            b"DLRN\x01\0\0\0d\0\0\0\x02\0\0\0\x02\0\0\0\0\x02\0\0\0\x05\0\0\0\0\0\0\0\0\0\0\0\0\0\0\0",
        ),
        ("plan.toml", b"plan: buffer = 1; replay"),
        ("s.txt", b""),
    ],
    status: Status::Done,
    said: b"events 10\ncommits 2\ns 0 complete 2\n",
    written: &[
        (
            "b.txt",
            b"account: c 0 0 5, c 1 0 0, t 0 00000018 ended:7 00000000 0 x5=700513 x10=7, \
              m 00000000 B70270009382325123285000930800001305700073, end complete 2",
        ),
        (
            "r.txt",
            b"g 5 0 0 chunk 5\ng 9 0 0 serial 0\nr Ran 4\nr Closed 2\nr Granted 2\nr Drained 1\nr Retired 1\nevents 10\ncommits 2\ns 0 complete 2\n",
        ),
    ],
};

const PIPE_BETWEEN_SPHERES: Case = Case {
    words: RUN,
    read: &[
        (
            "a.elf",
            b"code: 00300893 10000593 00800613 00000073 10002283 00000893 00000073",
        ),
        (
            "plan.toml",
            b"cores = 2\n\
              chunk = 100\n\
              buffer = 16\n\
              window = 2\n\
              signature = 64\n\
              script = \"s.txt\"\n\
              report = \"r.txt\"\n\
              [[sphere]]\n\
              image = \"x.elf\"\n\
              memory = 4096\n\
              role = \"plain\"\n\
              account = \"x.txt\"\n\
              [[sphere]]\n\
              image = \"a.elf\"\n\
              memory = 4096\n\
              role = \"record\"\n\
              mode = \"order-size\"\n\
              log = \"a.log\"\n\
              account = \"a.txt\"\n",
        ),
        (
            "s.txt",
            b"lines: step 0 x3, ask 0, step 0, ask 0, step 1 x4, ask 1, step 1, ask 1, deliver 0 0, drain 0, \
              retire 0, step 1 x3, ask 1, step 1, ask 1",
        ),
        (
            "x.elf",
            b"code: 00200893 00200613 00000073 00000893 00000073",
        ),
    ],
    status: Status::Done,
    said: b"events 22\ncommits 6\ns 0 plain 2\ns 1 record 4\n",
    written: &[
        (
            "a.log",
            b"DLRN\x01\0\0\0d\0\0\0\x04\0\0\0\x04\0\0\0\0\0\x04\0\0\0\x03\0\0\0\x02\0\0\0\0\0\0\0\x01\0\0\0\x03\x02\0\0\0\x02\0\x93\x08\0\0\0\0",
        ),
        (
            "a.txt",
            b"account: c 0 0 3, c 1 0 0, c 2 0 2, l 00000100 00000893, c 3 0 0, \
              t 0 0000001C ended:2 00000000 0 x5=893 x10=2 x11=100 x12=8, \
              m 00000000 93083000930500101306800073000000832200109308000073, m 00000100 9308, end complete 4",
        ),
        (
            "r.txt",
            b"lines: g 3 0 0 chunk 2, g 5 0 0 serial 0, g 10 1 0 chunk 3, g 12 1 0 serial 0, g 19 1 0 chunk 2, \
              g 21 1 0 serial 0, r Ran 7, r Closed 6, r Granted 6, r Drained 1, r Delivered 1, r Retired 1, \
              events 22, commits 6, s 0 plain 2, s 1 record 4",
        ),
        (
            "x.txt",
            b"account: c 0 0 2, c 1 0 0, o 0 9308, t 0 0000000C live 00000000 0 x10=2 x12=2 x17=2, \
              m 00000000 9308200013062000730000009308000073, end complete 2",
        ),
    ],
};

const PIPE_REPLAYED_ALONE: Case = Case {
    words: RUN,
    read: &[
        (
            "a.elf",
            b"code: 00300893 10000593 00800613 00000073 10002283 00000893 00000073",
        ),
        (
            "a.log",
            b"DLRN\x01\0\0\0d\0\0\0\x04\0\0\0\x04\0\0\0\0\0\x04\0\0\0\x03\0\0\0\x02\0\0\0\0\0\0\0\x01\0\0\0\x03\x02\0\0\0\x02\0\x93\x08\0\0\0\0",
        ),
        ("plan.toml", b"plan: replay"),
        ("s.txt", b""),
    ],
    status: Status::Done,
    said: b"events 13\ncommits 4\ns 0 complete 4\n",
    written: &[
        (
            "b.txt",
            b"account: c 0 0 3, c 1 0 0, c 2 0 2, l 00000100 00000893, c 3 0 0, \
              t 0 0000001C ended:2 00000000 0 x5=893 x10=2 x11=100 x12=8, \
              m 00000000 93083000930500101306800073000000832200109308000073, m 00000100 9308, end complete 4",
        ),
        (
            "r.txt",
            b"lines: g 3 0 0 chunk 3, g 5 0 0 serial 0, g 10 0 0 chunk 2, g 12 0 0 serial 0, r Ran 3, r Closed 4, \
              r Granted 4, r Drained 1, r Retired 1, events 13, commits 4, s 0 complete 4",
        ),
    ],
};

const DMA: Case = Case {
    words: RUN,
    read: &[
        (
            "a.elf",
            b"code: 00800893 10000513 00400593 00000073 10402283 00000893 00000073",
        ),
        ("in", b"AB"),
        (
            "plan.toml",
            b"plan: input = \"in\"; record, mode = \"picolog\"",
        ),
        (
            "s.txt",
            b"lines: step 0 x4, ask 0, step 0, ask 0, dma 0, step 0, deliver 0 0, drain 0 x3, retire 0, step 0 x3, \
              ask 0, step 0, ask 0",
        ),
    ],
    status: Status::Done,
    said: b"events 20\ncommits 5\ns 0 record 5\n",
    written: &[
        (
            "a.log",
            b"DLRN\x01\x02\0\0d\0\0\0\x05\0\0\0\0\0\0\0\0\0\0\0\0\0\0\0\0\0\0\0\x01\0\0\0\x02\0\0\0\x02\0AB",
        ),
        (
            "a.txt",
            b"account: c 0 0 3, c 1 0 0, c 2 63 0, c 3 0 2, l 00000104 00004241, c 4 0 0, \
              t 0 0000001C ended:0 00000000 0 x5=4241 x11=4, \
              m 00000000 93088000130500109305400073000000832240109308000073, m 00000100 020000004142, end complete 5",
        ),
        (
            "r.txt",
            b"lines: g 4 0 0 chunk 3, g 6 0 0 serial 0, g 7 0 63 dma 0, g 17 0 0 chunk 2, g 19 0 0 serial 0, r Ran 6, \
              r Closed 4, r Granted 4, r Drained 2, r Clean 1, r Squashed 1, r Retired 1, r DmaDone 1, events 20, \
              commits 5, s 0 record 5",
        ),
    ],
};

const DMA_REPLAYED: Case = Case {
    words: RUN,
    read: &[
        (
            "a.elf",
            b"code: 00800893 10000513 00400593 00000073 10402283 00000893 00000073",
        ),
        (
            "a.log",
            b"DLRN\x01\x02\0\0d\0\0\0\x05\0\0\0\0\0\0\0\0\0\0\0\0\0\0\0\0\0\0\0\x01\0\0\0\x02\0\0\0\x02\0AB",
        ),
        ("plan.toml", b"plan: replay"),
        ("s.txt", b""),
    ],
    status: Status::Done,
    said: b"events 18\ncommits 5\ns 0 complete 5\n",
    written: &[
        (
            "b.txt",
            b"account: c 0 0 3, c 1 0 0, c 2 63 0, c 3 0 2, l 00000104 00004241, c 4 0 0, \
              t 0 0000001C ended:0 00000000 0 x5=4241 x11=4, \
              m 00000000 93088000130500109305400073000000832240109308000073, m 00000100 020000004142, end complete 5",
        ),
        (
            "r.txt",
            b"lines: g 4 0 0 chunk 3, g 6 0 0 serial 0, g 7 0 63 dma 0, g 15 0 0 chunk 2, g 17 0 0 serial 0, r Ran 5, \
              r Closed 4, r Granted 4, r Drained 2, r Delivered 1, r Retired 1, r DmaDone 1, events 18, commits 5, \
              s 0 complete 5",
        ),
    ],
};

const INTERRUPT: Case = Case {
    words: RUN,
    read: &[
        (
            "a.elf",
            b"code: 00600893 01400513 00000073 0000006F 00000013 0000006F",
        ),
        ("plan.toml", b"plan: record"),
        (
            "s.txt",
            b"lines: step 0 x3, ask 0, step 0, ask 0, raise 0 0 5, raise 0 0 6",
        ),
    ],
    status: Status::Done,
    said: b"events 8\ncommits 2\ns 0 record 2\n",
    written: &[
        (
            "a.log",
            b"DLRN\x01\0\0\0d\0\0\0\x02\0\0\0\x02\0\0\0\0\x02\0\0\0\x02\0\0\0\x01\0\0\0\0\x02\0\0\0\x05\0\0\0\0\0\0\0\0\0\0\0",
        ),
        (
            "a.txt",
            b"account: c 0 0 2, c 1 0 0, t 0 00000014 live 00000014 1 x10=5 x17=6, h 0 0000000C 00000000 00000000, \
              m 00000000 9308600013054001730000006F000000130000006F, end complete 2",
        ),
        (
            "r.txt",
            b"lines: g 3 0 0 chunk 2, g 5 0 0 serial 0, g 6 0 0 raise 00000005, r Ran 2, r Closed 2, r Granted 2, \
              r Raised 1, r Masked 1, events 8, commits 2, s 0 record 2",
        ),
    ],
};

const INTERRUPT_REPLAYED: Case = Case {
    words: RUN,
    read: &[
        (
            "a.elf",
            b"code: 00600893 01400513 00000073 0000006F 00000013 0000006F",
        ),
        (
            "a.log",
            b"DLRN\x01\0\0\0d\0\0\0\x02\0\0\0\x02\0\0\0\0\x02\0\0\0\x02\0\0\0\x01\0\0\0\0\x02\0\0\0\x05\0\0\0\0\0\0\0\0\0\0\0",
        ),
        ("plan.toml", b"plan: replay"),
        ("s.txt", b""),
    ],
    status: Status::Done,
    said: b"events 5\ncommits 2\ns 0 complete 2\n",
    written: &[
        (
            "b.txt",
            b"account: c 0 0 2, c 1 0 0, t 0 00000014 live 00000014 1 x10=5 x17=6, h 0 0000000C 00000000 00000000, \
              m 00000000 9308600013054001730000006F000000130000006F, end complete 2",
        ),
        (
            "r.txt",
            b"g 2 0 0 chunk 2\ng 4 0 0 serial 0\nr Ran 1\nr Closed 2\nr Granted 2\nevents 5\ncommits 2\ns 0 complete 2\n",
        ),
    ],
};

const DIVERGED_THEN_STOPPED: Case = Case {
    words: RUN,
    read: &[
        ("a.elf", b"code: 00000893 00700513 00000073"),
        (
            "a.log",
            b"DLRN\x01\0\0\0d\0\0\0\x02\0\0\0\x02\0\0\0\0\x02\0\0\0\x03\0\0\0\0\0\0\0\0\0\0\0\0\0\0\0",
        ),
        ("plan.toml", b"plan: replay"),
        ("s.txt", b"lines: step 0 x3, ask 0, step 0"),
    ],
    status: Status::Diverged,
    said: b"events 5\ncommits 0\ns 0 diverged 0 2 3 2\n",
    written: &[
        ("b.txt", b"end diverged 0 2 3 2\n"),
        (
            "r.txt",
            b"r Ran 2\nr Closed 1\nr Stopped 1\nr Diverged 1\nevents 5\ncommits 0\ns 0 diverged 0 2 3 2\n",
        ),
    ],
};

const WRONG_RECORD: Case = Case {
    words: RUN,
    read: &[
        (
            "a.elf",
            b"code: 00300893 10000593 00800613 00000073 10002283 00000893 00000073",
        ),
        (
            "a.log",
            b"DLRN\x01\0\0\0d\0\0\0\x04\0\0\0\x04\0\0\0\0\0\x04\0\0\0\x03\0\0\0\x02\0\0\0\0\0\0\0\x01\0\0\0\x04\x02\0\0\0\x02\0\x93\x08\0\0\0\0",
        ),
        ("plan.toml", b"plan: replay"),
        ("s.txt", b""),
    ],
    status: Status::Diverged,
    said: b"events 6\ncommits 1\ns 0 diverged 1 4\n",
    written: &[
        ("b.txt", b"c 0 0 3\nend diverged 1 4\n"),
        (
            "r.txt",
            b"g 3 0 0 chunk 3\nr Ran 2\nr Closed 2\nr Granted 1\nr Diverged 1\nevents 6\ncommits 1\ns 0 diverged 1 4\n",
        ),
    ],
};

const TOO_SHORT: Case = Case {
    words: RUN,
    read: &[
        ("a.elf", b"code: 00000893 00700513 00000073"),
        (
            "a.log",
            b"DLRN\x01\0\0\0d\0\0\0\x02\0\0\0\x02\0\0\0\0\x02\0\0\0\x03\0\0\0\0\0\0\0\0\0\0\0\0\0\0\0",
        ),
        ("plan.toml", b"plan: replay"),
        ("s.txt", b""),
    ],
    status: Status::Diverged,
    said: b"events 4\ncommits 0\ns 0 diverged 0 2 3 2\n",
    written: &[
        ("b.txt", b"end diverged 0 2 3 2\n"),
        (
            "r.txt",
            b"r Ran 2\nr Closed 1\nr Diverged 1\nevents 4\ncommits 0\ns 0 diverged 0 2 3 2\n",
        ),
    ],
};

const NO_SUCH_THREAD: Case = Case {
    words: RUN,
    read: &[
        ("a.elf", b"code: 00000893 00700513 00000073"),
        (
            "a.log",
            b"DLRN\x01\0\0\0d\0\0\0\x02\0\0\0\x02\0\0\0\x05\x02\0\0\0\x02\0\0\0\0\0\0\0\0\0\0\0\0\0\0\0",
        ),
        ("plan.toml", b"plan: replay"),
        ("s.txt", b""),
    ],
    status: Status::Diverged,
    said: b"events 0\ncommits 0\ns 0 diverged 0 1\n",
    written: &[
        ("b.txt", b"end diverged 0 1\n"),
        ("r.txt", b"events 0\ncommits 0\ns 0 diverged 0 1\n"),
    ],
};

const RECORD_LEFT_OVER: Case = Case {
    words: RUN,
    read: &[
        ("a.elf", b"code: 00000893 00700513 00000073"),
        (
            "a.log",
            b"DLRN\x01\0\0\0d\0\0\0\x02\0\0\0\x02\0\0\0\0\x02\0\0\0\x02\0\0\0\0\0\0\0\x01\0\0\0\x05\0\0\0\0\0\0\0\0\0\0",
        ),
        ("plan.toml", b"plan: replay"),
        ("s.txt", b""),
    ],
    status: Status::Diverged,
    said: b"events 5\ncommits 2\ns 0 diverged 2 8\n",
    written: &[
        ("b.txt", b"c 0 0 2\nc 1 0 0\nend diverged 2 8\n"),
        (
            "r.txt",
            b"g 2 0 0 chunk 2\ng 4 0 0 serial 0\nr Ran 1\nr Closed 2\nr Granted 2\nevents 5\ncommits 2\ns 0 diverged 2 8\n",
        ),
    ],
};

const LOG_CUT_TO_16: Case = Case {
    words: RUN,
    read: &[
        ("a.elf", b"code: 00000893 00700513 00000073"),
        ("a.log", b"DLRN\x01\0\0\0d\0\0\0\x02\0\0\0"),
        ("plan.toml", b"plan: replay"),
        ("s.txt", b""),
    ],
    status: Status::Grammar,
    said: b"refused log 0 1 16\n",
    written: &[],
};

const LOG_AND_ONE_BYTE: Case = Case {
    words: RUN,
    read: &[
        ("a.elf", b"code: 00000893 00700513 00000073"),
        (
            "a.log",
            b"DLRN\x01\0\0\0d\0\0\0\x02\0\0\0\x02\0\0\0\0\x02\0\0\0\x02\0\0\0\0\0\0\0\0\0\0\0\0\0\0\0\0",
        ),
        ("plan.toml", b"plan: replay"),
        ("s.txt", b""),
    ],
    status: Status::Grammar,
    said: b"refused log 0 7 41\n",
    written: &[],
};
