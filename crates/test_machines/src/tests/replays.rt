//! Worked replays.
use super::programs::{
    EXITS, HANDLES, RACE, READS_FROM_PIPE, RESERVES, STORES_BESIDE, TRANSFERS, USES_DEVICES,
    WRITES_ITS_NEXT,
};
use super::{Life, Lived, Row, T0, T1};
use dl_entry::{Actor, End, Load, Why};
use spec_engine::answers::How::{self, Limit, Overflow, Serial};
use spec_log::ModeName;
use spec_protocol::Event::{Ask, Cut, Deliver, Dma, Drain, Place, Raise, Retire, Step};
use spec_protocol::Reply::{
    Closed, Delivered, Diverged, DmaDone, Drained, Elsewhere, FromLog, Granted, NotClosed, NotTurn,
    Piece, Placed, Ran, Retired, Stopped, WindowFull,
};

pub(crate) const ROWS: &[Row] = &[
    RACE_REPLAYED,
    RACE_CUT,
    RACE_CUT_AT_NOTHING,
    PIECES,
    PIECES_FINISHED,
    EMPTY_LAST_PART,
    STORE_BESIDE_REPLAYED,
    DMA_TOO_LONG,
    DMA_REPLAYED,
    PIPE_REPLAYED,
    WRONG_RECORD,
    TOO_SHORT,
    NOT_SERIAL,
    SIZE_OF_A_SERIAL_STEP,
    NO_HANDLER_TO_ENTER,
    NO_SUCH_THREAD,
    RECORD_LEFT_OVER,
    EMPTY_LOG,
    INTERRUPT_REPLAYED,
    DEVICE_WORDS_REPLAYED,
    NEXT_INSTRUCTION_REPLAYED,
    FLIGHT_AND_REPLAY,
];

// Two threads were recorded on two cores, and are replayed on one, which holds now one of them, now the other.
const RACE_REPLAYED: Row = Row {
    name: "race replayed",
    cores: 1,
    depth: 1,
    window: 2,
    s: 100,
    capacity: 16,
    input: b"",
    spheres: &[Life {
        code: RACE,
        role: Lived::Replayed {
            log: b"\x44\x4C\x52\x4E\x01\x00\x00\x00\x64\x00\x00\x00\x06\x00\x00\x00\
                  \x06\x00\x00\x00\x00\x01\x10\x06\x00\x00\x00\x03\x00\x00\x00\x03\
                  \x00\x02\x00\x00\x00\x00\x00\x00\x00\x00\x00\x00\x00\x00\x00\x00\
                  \x00\x00\x00",
            end: Some(End::Complete(6)),
        },
        commits: &[(T0, 3), (T0, 0), (T1, 3), (T0, 2), (T0, 0), (T1, 0)],
        loads: &[Load {
            address: 0x100,
            value: 9,
        }],
    }],
    events: &[],
    finishing: &[
        (Step(0), Ran),
        (Step(0), Ran),
        (Step(0), Closed(Limit)),
        (Ask(0), Granted),
        (Step(0), Closed(Serial)),
        (Ask(0), Granted),
        (Place(0, 0, 1), Placed),
        (Step(0), Ran),
        (Step(0), Ran),
        (Step(0), Closed(Limit)),
        (Ask(0), Granted),
        (Drain(0), Drained),
        (Retire(0), Retired),
        (Place(0, 0, 0), Placed),
        (Step(0), Ran),
        (Step(0), Closed(Limit)),
        (Ask(0), Granted),
        (Step(0), Closed(Serial)),
        (Ask(0), Granted),
        (Place(0, 0, 1), Placed),
        (Step(0), Closed(Serial)),
        (Ask(0), Granted),
    ],
    console: b"",
};

// Of the same log three commits are replayed, after which the fourth isn't looked at.
const RACE_CUT: Row = Row {
    name: "race cut",
    cores: 1,
    depth: 1,
    window: 2,
    s: 100,
    capacity: 16,
    input: b"",
    spheres: &[Life {
        code: RACE,
        role: Lived::Cut {
            log: b"\x44\x4C\x52\x4E\x01\x00\x00\x00\x64\x00\x00\x00\x06\x00\x00\x00\
                  \x06\x00\x00\x00\x00\x01\x10\x06\x00\x00\x00\x03\x00\x00\x00\x03\
                  \x00\x02\x00\x00\x00\x00\x00\x00\x00\x00\x00\x00\x00\x00\x00\x00\
                  \x00\x00\x00",
            to: 3,
            end: Some(End::At(3)),
        },
        commits: &[(T0, 3), (T0, 0), (T1, 3)],
        loads: &[],
    }],
    events: &[],
    finishing: &[
        (Step(0), Ran),
        (Step(0), Ran),
        (Step(0), Closed(Limit)),
        (Ask(0), Granted),
        (Step(0), Closed(Serial)),
        (Ask(0), Granted),
        (Place(0, 0, 1), Placed),
        (Step(0), Ran),
        (Step(0), Ran),
        (Step(0), Closed(Limit)),
        (Ask(0), Granted),
        (Drain(0), Drained),
        (Retire(0), Retired),
    ],
    console: b"",
};

// An interval with no commit has ended before the first event.
const RACE_CUT_AT_NOTHING: Row = Row {
    name: "race cut at nothing",
    cores: 1,
    depth: 1,
    window: 2,
    s: 100,
    capacity: 16,
    input: b"",
    spheres: &[Life {
        code: RACE,
        role: Lived::Cut {
            log: b"\x44\x4C\x52\x4E\x01\x00\x00\x00\x64\x00\x00\x00\x06\x00\x00\x00\
                  \x06\x00\x00\x00\x00\x01\x10\x06\x00\x00\x00\x03\x00\x00\x00\x03\
                  \x00\x02\x00\x00\x00\x00\x00\x00\x00\x00\x00\x00\x00\x00\x00\x00\
                  \x00\x00\x00",
            to: 0,
            end: Some(End::At(0)),
        },
        commits: &[],
        loads: &[],
    }],
    events: &[(Step(0), Stopped), (Ask(0), NotClosed), (Dma(0), Stopped)],
    finishing: &[],
    console: b"",
};

// With a buffer of one word, a commit is done in two pieces, and the reservation stays.
const PIECES: Row = Row {
    name: "pieces",
    cores: 1,
    depth: 1,
    window: 2,
    s: 100,
    capacity: 1,
    input: b"",
    spheres: &[Life {
        code: RESERVES,
        role: Lived::Replayed {
            log: b"\x44\x4C\x52\x4E\x01\x01\x00\x00\x64\x00\x00\x00\x02\x00\x00\x00\
                  \x02\x00\x00\x00\x00\x00\x00\x00\x00\x00\x00\x00\x00\x00\x00\x00\
                  \x00\x00\x00\x00\x00",
            end: Some(End::Complete(2)),
        },
        commits: &[(T0, 5), (T0, 0)],
        loads: &[Load {
            address: 0x104,
            value: 0,
        }],
    }],
    events: &[
        (Step(0), Ran),
        (Step(0), Ran),
        (Step(0), Ran),
        (Step(0), Closed(Overflow)),
        (Ask(0), Piece),
        (Drain(0), Drained),
        (Retire(0), Retired),
        (Step(0), Ran),
        (Step(0), Ran),
        (Step(0), Closed(Serial)),
        (Ask(0), Granted),
        (Drain(0), Drained),
        (Retire(0), Retired),
        (Step(0), Closed(Serial)),
        (Ask(0), Granted),
    ],
    finishing: &[],
    console: b"",
};

// The same without a schedule.
const PIECES_FINISHED: Row = Row {
    name: "pieces finished",
    cores: 1,
    depth: 1,
    window: 2,
    s: 100,
    capacity: 1,
    input: b"",
    spheres: &[Life {
        code: RESERVES,
        role: Lived::Replayed {
            log: b"\x44\x4C\x52\x4E\x01\x01\x00\x00\x64\x00\x00\x00\x02\x00\x00\x00\
                  \x02\x00\x00\x00\x00\x00\x00\x00\x00\x00\x00\x00\x00\x00\x00\x00\
                  \x00\x00\x00\x00\x00",
            end: Some(End::Complete(2)),
        },
        commits: &[(T0, 5), (T0, 0)],
        loads: &[Load {
            address: 0x104,
            value: 0,
        }],
    }],
    events: &[],
    finishing: &[
        (Step(0), Ran),
        (Step(0), Ran),
        (Step(0), Ran),
        (Step(0), Closed(Overflow)),
        (Ask(0), Piece),
        (Drain(0), Drained),
        (Retire(0), Retired),
        (Step(0), Ran),
        (Step(0), Ran),
        (Step(0), Closed(Serial)),
        (Ask(0), Granted),
        (Drain(0), Drained),
        (Retire(0), Retired),
        (Step(0), Closed(Serial)),
        (Ask(0), Granted),
    ],
    console: b"",
};

// A commit that is cut off before its serial step ends with an empty part, and the serial step comes after it.
const EMPTY_LAST_PART: Row = Row {
    name: "empty last part",
    cores: 1,
    depth: 1,
    window: 2,
    s: 100,
    capacity: 16,
    input: b"",
    spheres: &[Life {
        code: EXITS,
        role: Lived::Replayed {
            log: b"\x44\x4C\x52\x4E\x01\x01\x00\x00\x64\x00\x00\x00\x02\x00\x00\x00\
                  \x02\x00\x00\x00\x00\x00\x00\x00\x00\x00\x00\x00\x00\x00\x00\x00\
                  \x00\x00\x00\x00\x00",
            end: Some(End::Complete(2)),
        },
        commits: &[(T0, 2), (T0, 0)],
        loads: &[],
    }],
    events: &[
        (Step(0), Ran),
        (Step(0), Ran),
        (Cut(0), Closed(How::Cut)),
        (Ask(0), Piece),
        (Step(0), Closed(Serial)),
        (Ask(0), Granted),
        (Step(0), Closed(Serial)),
        (Ask(0), Granted),
    ],
    finishing: &[],
    console: b"",
};

// The recording with a DMA beside a store, with at most one flight: threads and DMAs wait for each other's turns.
const STORE_BESIDE_REPLAYED: Row = Row {
    name: "store beside replayed",
    cores: 1,
    depth: 1,
    window: 1,
    s: 100,
    capacity: 16,
    input: b"",
    spheres: &[Life {
        code: STORES_BESIDE,
        role: Lived::Replayed {
            log: b"\x44\x4C\x52\x4E\x01\x00\x00\x00\x64\x00\x00\x00\x06\x00\x00\x00\
                  \x06\x00\x00\x00\x00\xF0\x00\x06\x00\x00\x00\x03\x00\x00\x00\x01\
                  \x00\x00\x00\x01\x00\x00\x00\x00\x00\x00\x00\x00\x00\x00\x00\x01\
                  \x00\x00\x00\x03\x00\x00\x00\x02\x00\x41\x42",
            end: Some(End::Complete(6)),
        },
        commits: &[(T0, 3), (T0, 0), (T0, 1), (Actor::Dma, 0), (T0, 1), (T0, 0)],
        loads: &[],
    }],
    events: &[
        (Dma(0), NotTurn(T0)),
        (Step(0), Ran),
        (Step(0), Ran),
        (Step(0), Closed(Limit)),
        (Ask(0), Granted),
        (Step(0), Closed(Serial)),
        (Ask(0), Granted),
        (Step(0), Closed(Limit)),
        (Ask(0), Granted),
        (Step(0), Closed(Limit)),
        (Ask(0), NotTurn(Actor::Dma)),
        (Dma(0), WindowFull),
        (Drain(0), Drained),
        (Retire(0), Retired),
        (Dma(0), DmaDone),
        (Deliver(0, 0), Delivered),
        (Drain(0), Drained),
        (Drain(0), Drained),
        (Retire(0), Retired),
        (Ask(0), Granted),
        (Step(0), Closed(Serial)),
        (Ask(0), Granted),
    ],
    finishing: &[],
    console: b"",
};

// Its log with a DMA of five bytes, though four are asked for.
const DMA_TOO_LONG: Row = Row {
    name: "dma too long",
    cores: 1,
    depth: 1,
    window: 2,
    s: 100,
    capacity: 16,
    input: b"",
    spheres: &[Life {
        code: STORES_BESIDE,
        role: Lived::Replayed {
            log: b"\x44\x4C\x52\x4E\x01\x00\x00\x00\x64\x00\x00\x00\x06\x00\x00\x00\
                  \x06\x00\x00\x00\x00\xF0\x00\x06\x00\x00\x00\x03\x00\x00\x00\x01\
                  \x00\x00\x00\x01\x00\x00\x00\x00\x00\x00\x00\x00\x00\x00\x00\x01\
                  \x00\x00\x00\x03\x00\x00\x00\x05\x00\x41\x42\x43\x44\x45",
            end: Some(End::Diverged(3, Why::Dma)),
        },
        commits: &[(T0, 3), (T0, 0), (T0, 1)],
        loads: &[],
    }],
    events: &[
        (Step(0), Ran),
        (Step(0), Ran),
        (Step(0), Closed(Limit)),
        (Ask(0), Granted),
        (Step(0), Closed(Serial)),
        (Ask(0), Granted),
        (Step(0), Closed(Limit)),
        (Ask(0), Granted),
        (Dma(0), Diverged(3, Why::Dma)),
        (Dma(0), Stopped),
    ],
    finishing: &[(Drain(0), Drained), (Retire(0), Retired)],
    console: b"",
};

// A DMA in picolog comes at its logged position, and no core is told of its flight until then.
const DMA_REPLAYED: Row = Row {
    name: "dma replayed",
    cores: 1,
    depth: 1,
    window: 2,
    s: 100,
    capacity: 16,
    input: b"",
    spheres: &[Life {
        code: TRANSFERS,
        role: Lived::Replayed {
            log: b"\x44\x4C\x52\x4E\x01\x02\x00\x00\x64\x00\x00\x00\x05\x00\x00\x00\
                  \x00\x00\x00\x00\x00\x00\x00\x00\x00\x00\x00\x00\x00\x00\x00\x00\
                  \x01\x00\x00\x00\x02\x00\x00\x00\x02\x00\x41\x42",
            end: Some(End::Complete(5)),
        },
        commits: &[(T0, 3), (T0, 0), (Actor::Dma, 0), (T0, 2), (T0, 0)],
        loads: &[Load {
            address: 0x104,
            value: 0x4241,
        }],
    }],
    events: &[],
    finishing: &[
        (Step(0), Ran),
        (Step(0), Ran),
        (Step(0), Ran),
        (Step(0), Closed(Serial)),
        (Ask(0), Granted),
        (Step(0), Closed(Serial)),
        (Ask(0), Granted),
        (Dma(0), DmaDone),
        (Drain(0), Drained),
        (Drain(0), Drained),
        (Deliver(0, 0), Delivered),
        (Retire(0), Retired),
        (Step(0), Ran),
        (Step(0), Ran),
        (Step(0), Closed(Serial)),
        (Ask(0), Granted),
        (Step(0), Closed(Serial)),
        (Ask(0), Granted),
    ],
    console: b"",
};

// What was read from a pipe comes from the log, and no other sphere is there.
const PIPE_REPLAYED: Row = Row {
    name: "pipe replayed",
    cores: 1,
    depth: 1,
    window: 2,
    s: 100,
    capacity: 16,
    input: b"",
    spheres: &[Life {
        code: READS_FROM_PIPE,
        role: Lived::Replayed {
            log: b"\x44\x4C\x52\x4E\x01\x00\x00\x00\x64\x00\x00\x00\x04\x00\x00\x00\
                  \x04\x00\x00\x00\x00\x00\x04\x00\x00\x00\x03\x00\x00\x00\x02\x00\
                  \x00\x00\x00\x00\x00\x00\x01\x00\x00\x00\x03\x02\x00\x00\x00\x02\
                  \x00\x93\x08\x00\x00\x00\x00",
            end: Some(End::Complete(4)),
        },
        commits: &[(T0, 3), (T0, 0), (T0, 2), (T0, 0)],
        loads: &[Load {
            address: 0x100,
            value: 0x893,
        }],
    }],
    events: &[],
    finishing: &[
        (Step(0), Ran),
        (Step(0), Ran),
        (Step(0), Closed(Limit)),
        (Ask(0), Granted),
        (Step(0), Closed(Serial)),
        (Ask(0), Granted),
        (Drain(0), Drained),
        (Retire(0), Retired),
        (Step(0), Ran),
        (Step(0), Closed(Limit)),
        (Ask(0), Granted),
        (Step(0), Closed(Serial)),
        (Ask(0), Granted),
    ],
    console: b"",
};

// The record of what was read is of another call.
const WRONG_RECORD: Row = Row {
    name: "wrong record",
    cores: 1,
    depth: 1,
    window: 2,
    s: 100,
    capacity: 16,
    input: b"",
    spheres: &[Life {
        code: READS_FROM_PIPE,
        role: Lived::Replayed {
            log: b"\x44\x4C\x52\x4E\x01\x00\x00\x00\x64\x00\x00\x00\x04\x00\x00\x00\
                  \x04\x00\x00\x00\x00\x00\x04\x00\x00\x00\x03\x00\x00\x00\x02\x00\
                  \x00\x00\x00\x00\x00\x00\x01\x00\x00\x00\x04\x02\x00\x00\x00\x02\
                  \x00\x93\x08\x00\x00\x00\x00",
            end: Some(End::Diverged(1, Why::Input)),
        },
        commits: &[(T0, 3)],
        loads: &[],
    }],
    events: &[],
    finishing: &[
        (Step(0), Ran),
        (Step(0), Ran),
        (Step(0), Closed(Limit)),
        (Ask(0), Granted),
        (Step(0), Closed(Serial)),
        (Ask(0), Diverged(1, Why::Input)),
    ],
    console: b"",
};

// A chunk of three instructions is logged, and two are run.
const TOO_SHORT: Row = Row {
    name: "too short",
    cores: 1,
    depth: 1,
    window: 2,
    s: 100,
    capacity: 16,
    input: b"",
    spheres: &[Life {
        code: EXITS,
        role: Lived::Replayed {
            log: b"\x44\x4C\x52\x4E\x01\x00\x00\x00\x64\x00\x00\x00\x02\x00\x00\x00\
                  \x02\x00\x00\x00\x00\x02\x00\x00\x00\x03\x00\x00\x00\x00\x00\x00\
                  \x00\x00\x00\x00\x00\x00\x00\x00\x00",
            end: Some(End::Diverged(0, Why::Short(3, 2))),
        },
        commits: &[],
        loads: &[],
    }],
    events: &[
        (Step(0), Ran),
        (Step(0), Ran),
        (Step(0), Closed(Serial)),
        (Ask(0), Diverged(0, Why::Short(3, 2))),
        (Step(0), Stopped),
    ],
    finishing: &[],
    console: b"",
};

// A serial step is logged, and the next instruction isn't serial.
const NOT_SERIAL: Row = Row {
    name: "not serial",
    cores: 1,
    depth: 1,
    window: 2,
    s: 100,
    capacity: 16,
    input: b"",
    spheres: &[Life {
        code: EXITS,
        role: Lived::Replayed {
            log: b"\x44\x4C\x52\x4E\x01\x00\x00\x00\x64\x00\x00\x00\x02\x00\x00\x00\
                  \x02\x00\x00\x00\x00\x02\x00\x00\x00\x00\x00\x00\x00\x00\x00\x00\
                  \x00\x00\x00\x00\x00\x00\x00\x00\x00",
            end: Some(End::Diverged(0, Why::NotSerial)),
        },
        commits: &[],
        loads: &[],
    }],
    events: &[],
    finishing: &[
        (Step(0), Closed(Limit)),
        (Ask(0), Diverged(0, Why::NotSerial)),
    ],
    console: b"",
};

// A size is logged for a serial step.
const SIZE_OF_A_SERIAL_STEP: Row = Row {
    name: "size of a serial step",
    cores: 1,
    depth: 1,
    window: 2,
    s: 100,
    capacity: 16,
    input: b"",
    spheres: &[Life {
        code: EXITS,
        role: Lived::Replayed {
            log: b"\x44\x4C\x52\x4E\x01\x00\x00\x00\x64\x00\x00\x00\x02\x00\x00\x00\
                  \x02\x00\x00\x00\x00\x02\x00\x00\x00\x02\x00\x05\x00\x00\x00\x00\
                  \x00\x00\x00\x00\x00\x00\x00\x00\x00",
            end: Some(End::Diverged(1, Why::SizeOfSerial(5))),
        },
        commits: &[(T0, 2)],
        loads: &[],
    }],
    events: &[],
    finishing: &[
        (Step(0), Ran),
        (Step(0), Closed(Limit)),
        (Ask(0), Granted),
        (Step(0), Closed(Serial)),
        (Ask(0), Diverged(1, Why::SizeOfSerial(5))),
    ],
    console: b"",
};

// An interrupt is logged for a thread that has no handler.
const NO_HANDLER_TO_ENTER: Row = Row {
    name: "no handler to enter",
    cores: 1,
    depth: 1,
    window: 2,
    s: 100,
    capacity: 16,
    input: b"",
    spheres: &[Life {
        code: EXITS,
        role: Lived::Replayed {
            log: b"\x44\x4C\x52\x4E\x01\x00\x00\x00\x64\x00\x00\x00\x02\x00\x00\x00\
                  \x02\x00\x00\x00\x00\x02\x00\x00\x00\x02\x00\x00\x00\x01\x00\x00\
                  \x00\x00\x01\x00\x00\x00\x05\x00\x00\x00\x00\x00\x00\x00\x00\x00\
                  \x00\x00",
            end: Some(End::Diverged(0, Why::Interrupt)),
        },
        commits: &[],
        loads: &[],
    }],
    events: &[],
    finishing: &[
        (Step(0), Ran),
        (Step(0), Closed(Limit)),
        (Ask(0), Diverged(0, Why::Interrupt)),
    ],
    console: b"",
};

// The first commit is of a thread that isn't there: the replay ends before it starts.
const NO_SUCH_THREAD: Row = Row {
    name: "no such thread",
    cores: 1,
    depth: 1,
    window: 2,
    s: 100,
    capacity: 16,
    input: b"",
    spheres: &[Life {
        code: EXITS,
        role: Lived::Replayed {
            log: b"\x44\x4C\x52\x4E\x01\x00\x00\x00\x64\x00\x00\x00\x02\x00\x00\x00\
                  \x02\x00\x00\x00\x05\x02\x00\x00\x00\x02\x00\x00\x00\x00\x00\x00\
                  \x00\x00\x00\x00\x00\x00\x00\x00\x00",
            end: Some(End::Diverged(0, Why::NoThread)),
        },
        commits: &[],
        loads: &[],
    }],
    events: &[],
    finishing: &[],
    console: b"",
};

// A record of an input is left over at the last commit.
const RECORD_LEFT_OVER: Row = Row {
    name: "record left over",
    cores: 1,
    depth: 1,
    window: 2,
    s: 100,
    capacity: 16,
    input: b"",
    spheres: &[Life {
        code: EXITS,
        role: Lived::Replayed {
            log: b"\x44\x4C\x52\x4E\x01\x00\x00\x00\x64\x00\x00\x00\x02\x00\x00\x00\
                  \x02\x00\x00\x00\x00\x02\x00\x00\x00\x02\x00\x00\x00\x00\x00\x00\
                  \x00\x01\x00\x00\x00\x05\x00\x00\x00\x00\x00\x00\x00\x00\x00\x00",
            end: Some(End::Diverged(2, Why::LeftOver)),
        },
        commits: &[(T0, 2), (T0, 0)],
        loads: &[],
    }],
    events: &[],
    finishing: &[
        (Step(0), Ran),
        (Step(0), Closed(Limit)),
        (Ask(0), Granted),
        (Step(0), Closed(Serial)),
        (Ask(0), Granted),
    ],
    console: b"",
};

// A replay of no commit is complete from its start.
const EMPTY_LOG: Row = Row {
    name: "empty log",
    cores: 1,
    depth: 1,
    window: 2,
    s: 100,
    capacity: 16,
    input: b"",
    spheres: &[Life {
        code: EXITS,
        role: Lived::Replayed {
            log: b"\x44\x4C\x52\x4E\x01\x00\x00\x00\x64\x00\x00\x00\x00\x00\x00\x00\
                  \x00\x00\x00\x00\x00\x00\x00\x00\x00\x00\x00\x00\x00\x00\x00\x00\
                  \x00\x00\x00\x00",
            end: Some(End::Complete(0)),
        },
        commits: &[],
        loads: &[],
    }],
    events: &[
        (Step(0), Stopped),
        (Place(0, 0, 0), Elsewhere(0)),
        (Raise(0, 0, 1), FromLog),
        (Dma(0), Stopped),
    ],
    finishing: &[],
    console: b"",
};

// An interrupt comes where it is logged.
const INTERRUPT_REPLAYED: Row = Row {
    name: "interrupt replayed",
    cores: 1,
    depth: 1,
    window: 2,
    s: 100,
    capacity: 16,
    input: b"",
    spheres: &[Life {
        code: HANDLES,
        role: Lived::Replayed {
            log: b"\x44\x4C\x52\x4E\x01\x00\x00\x00\x64\x00\x00\x00\x02\x00\x00\x00\
                  \x02\x00\x00\x00\x00\x02\x00\x00\x00\x02\x00\x00\x00\x01\x00\x00\
                  \x00\x00\x02\x00\x00\x00\x05\x00\x00\x00\x00\x00\x00\x00\x00\x00\
                  \x00\x00",
            end: Some(End::Complete(2)),
        },
        commits: &[(T0, 2), (T0, 0)],
        loads: &[],
    }],
    events: &[],
    finishing: &[
        (Step(0), Ran),
        (Step(0), Closed(Limit)),
        (Ask(0), Granted),
        (Step(0), Closed(Serial)),
        (Ask(0), Granted),
    ],
    console: b"",
};

// What was loaded from the devices comes from the log, and the console stays empty.
const DEVICE_WORDS_REPLAYED: Row = Row {
    name: "device words replayed",
    cores: 1,
    depth: 1,
    window: 2,
    s: 100,
    capacity: 16,
    input: b"",
    spheres: &[Life {
        code: USES_DEVICES,
        role: Lived::Replayed {
            log: b"\x44\x4C\x52\x4E\x01\x00\x00\x00\x64\x00\x00\x00\x05\x00\x00\x00\
                  \x05\x00\x00\x00\x00\x00\x00\x05\x00\x00\x00\x01\x00\x00\x00\x00\
                  \x00\x00\x00\x00\x00\x00\x00\x00\x00\x02\x00\x00\x00\x10\x04\x00\
                  \x00\x00\x00\x00\x11\x41\x00\x00\x00\x00\x00\x00\x00\x00\x00",
            end: Some(End::Complete(5)),
        },
        commits: &[(T0, 1), (T0, 0), (T0, 0), (T0, 0), (T0, 0)],
        loads: &[
            Load {
                address: 0xF0000000,
                value: 4,
            },
            Load {
                address: 0xF0000004,
                value: 0x41,
            },
        ],
    }],
    events: &[],
    finishing: &[
        (Step(0), Closed(Limit)),
        (Ask(0), Granted),
        (Step(0), Closed(Serial)),
        (Ask(0), Granted),
        (Step(0), Closed(Serial)),
        (Ask(0), Granted),
        (Step(0), Closed(Serial)),
        (Ask(0), Granted),
        (Step(0), Closed(Serial)),
        (Ask(0), Granted),
    ],
    console: b"",
};

// A program that stores over its next instruction, with a buffer of one word.
const NEXT_INSTRUCTION_REPLAYED: Row = Row {
    name: "next instruction replayed",
    cores: 1,
    depth: 1,
    window: 2,
    s: 100,
    capacity: 1,
    input: b"",
    spheres: &[Life {
        code: WRITES_ITS_NEXT,
        role: Lived::Replayed {
            log: b"\x44\x4C\x52\x4E\x01\x00\x00\x00\x64\x00\x00\x00\x02\x00\x00\x00\
                  \x02\x00\x00\x00\x00\x02\x00\x00\x00\x05\x00\x00\x00\x00\x00\x00\
                  \x00\x00\x00\x00\x00\x00\x00\x00\x00",
            end: Some(End::Complete(2)),
        },
        commits: &[(T0, 5), (T0, 0)],
        loads: &[],
    }],
    events: &[],
    finishing: &[
        (Step(0), Ran),
        (Step(0), Ran),
        (Step(0), Ran),
        (Step(0), Ran),
        (Step(0), Closed(Limit)),
        (Ask(0), Granted),
        (Drain(0), Drained),
        (Retire(0), Retired),
        (Step(0), Closed(Serial)),
        (Ask(0), Granted),
    ],
    console: b"",
};

// There is a flight, and the replay on the second core is at its start: the flight goes first.
const FLIGHT_AND_REPLAY: Row = Row {
    name: "flight and replay",
    cores: 2,
    depth: 1,
    window: 2,
    s: 100,
    capacity: 1,
    input: b"",
    spheres: &[
        Life {
            code: RESERVES,
            role: Lived::Recorded {
                mode: ModeName::OrderSize,
                log: b"\x44\x4C\x52\x4E\x01\x00\x00\x00\x64\x00\x00\x00\x01\x00\x00\x00\
                  \x01\x00\x00\x00\x00\x01\x00\x00\x00\x03\x00\x00\x00\x00\x00\x00\
                  \x00\x00\x00\x00\x00\x00\x00",
            },
            commits: &[(T0, 3)],
            loads: &[Load {
                address: 0x104,
                value: 0,
            }],
        },
        Life {
            code: EXITS,
            role: Lived::Replayed {
                log: b"\x44\x4C\x52\x4E\x01\x00\x00\x00\x64\x00\x00\x00\x02\x00\x00\x00\
                  \x02\x00\x00\x00\x00\x02\x00\x00\x00\x02\x00\x00\x00\x00\x00\x00\
                  \x00\x00\x00\x00\x00\x00\x00\x00\x00",
                end: Some(End::Complete(2)),
            },
            commits: &[(T0, 2), (T0, 0)],
            loads: &[],
        },
    ],
    events: &[
        (Step(0), Ran),
        (Step(0), Ran),
        (Step(0), Ran),
        (Step(0), Closed(Overflow)),
        (Ask(0), Granted),
    ],
    finishing: &[
        (Drain(0), Drained),
        (Deliver(1, 0), Delivered),
        (Retire(0), Retired),
        (Step(1), Ran),
        (Step(1), Closed(Limit)),
        (Ask(1), Granted),
        (Step(1), Closed(Serial)),
        (Ask(1), Granted),
    ],
    console: b"",
};
