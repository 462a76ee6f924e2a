//! Worked recordings.
use super::programs::{
    EXITS, HANDLES, LOADS_AND_STORES, RACE, READS_FROM_PIPE, RESERVES, SHARES_BITS, STORES_BESIDE,
    TRANSFERS, USES_DEVICES, WRITES_ITS_NEXT, WRITES_TO_PIPE,
};
use super::{Life, Lived, Row, T0, T1};
use dl_entry::{Actor, Load};
use spec_engine::answers::How::{self, Limit, Overflow, Serial};
use spec_log::ModeName;
use spec_protocol::Event::{Ask, Cut, Deliver, Dma, Drain, Place, Raise, Retire, Step};
use spec_protocol::Reply::{
    Already, Bounced, Clean, Closed, Delivered, Denied, DmaDone, Drained, Elsewhere, Ended,
    Granted, Idle, Masked, NoCommit, NoDma, NoHandler, NoThread, NotClosed, NotDone, NotTurn,
    NothingRun, Placed, Raised, Ran, Retired, SphereBusy, Squashed, Waiting, WindowFull,
};

pub(crate) const ROWS: &[Row] = &[
    SPAWN_AND_RACE,
    FALSE_HIT,
    TURNS,
    TURNS_IN_A_FULL_WINDOW,
    TWO_THREADS_ON_ONE_CORE,
    RESERVATION_LOST,
    RESERVATION_KEPT,
    BUSY_SPHERE,
    HALVED_LIMIT,
    PIPE,
    DMA,
    INTERRUPT,
    SMALL_ANSWERS,
    DEVICE_WORDS,
    NEXT_INSTRUCTION,
    STORE_BESIDE,
    FLIGHT_LEFT,
];

// A thread spawns another one, which stores on a second core while the first loads: the load is denied, squashed and bounced,
// and then done again.
const SPAWN_AND_RACE: Row = Row {
    name: "spawn and race",
    cores: 2,
    depth: 1,
    window: 2,
    s: 100,
    capacity: 16,
    input: b"",
    spheres: &[Life {
        code: RACE,
        role: Lived::Recorded {
            mode: ModeName::OrderSize,
            log: b"\x44\x4C\x52\x4E\x01\x00\x00\x00\x64\x00\x00\x00\x06\x00\x00\x00\
                  \x06\x00\x00\x00\x00\x01\x10\x06\x00\x00\x00\x03\x00\x00\x00\x03\
                  \x00\x02\x00\x00\x00\x00\x00\x00\x00\x00\x00\x00\x00\x00\x00\x00\
                  \x00\x00\x00",
        },
        commits: &[(T0, 3), (T0, 0), (T1, 3), (T0, 2), (T0, 0), (T1, 0)],
        loads: &[Load {
            address: 0x100,
            value: 9,
        }],
    }],
    events: &[
        (Step(0), Ran),
        (Step(0), Ran),
        (Step(0), Ran),
        (Step(0), Closed(Serial)),
        (Ask(0), Granted),
        (Step(0), Closed(Serial)),
        (Ask(0), Granted),
        (Place(1, 0, 1), Placed),
        (Step(1), Ran),
        (Step(1), Ran),
        (Step(1), Ran),
        (Step(1), Closed(Serial)),
        (Ask(1), Granted),
        (Step(0), Ran),
        (Step(0), Ran),
        (Step(0), Closed(Serial)),
        (Ask(0), Denied(0)),
        (Deliver(0, 0), Squashed),
        (Step(0), Bounced(0)),
        (Drain(0), Drained),
        (Retire(0), Retired),
        (Step(0), Ran),
        (Step(0), Ran),
        (Step(0), Closed(Serial)),
        (Ask(0), Granted),
        (Step(0), Closed(Serial)),
        (Ask(0), Granted),
        (Step(1), Closed(Serial)),
        (Ask(1), Granted),
    ],
    finishing: &[],
    console: b"",
};

// The same with the words in different lines of the same bits: the load is denied though nothing is stored to its word.
const FALSE_HIT: Row = Row {
    name: "false hit",
    cores: 2,
    depth: 1,
    window: 2,
    s: 100,
    capacity: 16,
    input: b"",
    spheres: &[Life {
        code: SHARES_BITS,
        role: Lived::Recorded {
            mode: ModeName::OrderSize,
            log: b"\x44\x4C\x52\x4E\x01\x00\x00\x00\x64\x00\x00\x00\x06\x00\x00\x00\
                  \x06\x00\x00\x00\x00\x01\x10\x06\x00\x00\x00\x03\x00\x00\x00\x03\
                  \x00\x02\x00\x00\x00\x00\x00\x00\x00\x00\x00\x00\x00\x00\x00\x00\
                  \x00\x00\x00",
        },
        commits: &[(T0, 3), (T0, 0), (T1, 3), (T0, 2), (T0, 0), (T1, 0)],
        loads: &[Load {
            address: 0x100,
            value: 0,
        }],
    }],
    events: &[
        (Step(0), Ran),
        (Step(0), Ran),
        (Step(0), Ran),
        (Step(0), Closed(Serial)),
        (Ask(0), Granted),
        (Step(0), Closed(Serial)),
        (Ask(0), Granted),
        (Place(1, 0, 1), Placed),
        (Step(1), Ran),
        (Step(1), Ran),
        (Step(1), Ran),
        (Step(1), Closed(Serial)),
        (Ask(1), Granted),
        (Step(0), Ran),
        (Step(0), Ran),
        (Step(0), Closed(Serial)),
        (Ask(0), Denied(0)),
        (Deliver(0, 0), Squashed),
        (Step(0), Bounced(0)),
        (Drain(0), Drained),
        (Retire(0), Retired),
        (Step(0), Ran),
        (Step(0), Ran),
        (Step(0), Closed(Serial)),
        (Ask(0), Granted),
        (Step(0), Closed(Serial)),
        (Ask(0), Granted),
        (Step(1), Closed(Serial)),
        (Ask(1), Granted),
    ],
    finishing: &[],
    console: b"",
};

// In picolog the new thread has its turn before the first goes on.
const TURNS: Row = Row {
    name: "turns",
    cores: 2,
    depth: 1,
    window: 2,
    s: 100,
    capacity: 16,
    input: b"",
    spheres: &[Life {
        code: RACE,
        role: Lived::Recorded {
            mode: ModeName::Picolog,
            log: b"\x44\x4C\x52\x4E\x01\x02\x00\x00\x64\x00\x00\x00\x05\x00\x00\x00\
                  \x00\x00\x00\x00\x00\x00\x00\x00\x00\x00\x00\x00\x00\x00\x00\x00\
                  \x00\x00\x00\x00",
        },
        commits: &[(T0, 3), (T0, 0), (T1, 3), (T0, 2), (T1, 0)],
        loads: &[Load {
            address: 0x100,
            value: 9,
        }],
    }],
    events: &[
        (Step(0), Ran),
        (Step(0), Ran),
        (Step(0), Ran),
        (Step(0), Closed(Serial)),
        (Ask(0), Granted),
        (Step(0), Closed(Serial)),
        (Ask(0), Granted),
        (Place(1, 0, 1), Placed),
        (Step(1), Ran),
        (Step(1), Ran),
        (Step(1), Ran),
        (Step(1), Closed(Serial)),
        (Ask(1), Granted),
        (Step(0), Ran),
        (Step(0), Ran),
        (Step(0), Closed(Serial)),
        (Ask(0), Denied(0)),
        (Deliver(0, 0), Squashed),
        (Step(0), Bounced(0)),
        (Drain(0), Drained),
        (Retire(0), Retired),
        (Step(0), Ran),
        (Step(0), Ran),
        (Step(0), Closed(Serial)),
        (Ask(0), Granted),
        (Step(0), Closed(Serial)),
        (Ask(0), NotTurn(T1)),
        (Step(1), Closed(Serial)),
        (Ask(1), Granted),
    ],
    finishing: &[],
    console: b"",
};

// The same in picolog with at most one flight: the window is full where the load was denied, and the new thread has its turn.
const TURNS_IN_A_FULL_WINDOW: Row = Row {
    name: "turns in a full window",
    cores: 2,
    depth: 1,
    window: 1,
    s: 100,
    capacity: 16,
    input: b"",
    spheres: &[Life {
        code: RACE,
        role: Lived::Recorded {
            mode: ModeName::Picolog,
            log: b"\x44\x4C\x52\x4E\x01\x02\x00\x00\x64\x00\x00\x00\x05\x00\x00\x00\
                  \x00\x00\x00\x00\x00\x00\x00\x00\x00\x00\x00\x00\x00\x00\x00\x00\
                  \x00\x00\x00\x00",
        },
        commits: &[(T0, 3), (T0, 0), (T1, 3), (T0, 2), (T1, 0)],
        loads: &[Load {
            address: 0x100,
            value: 9,
        }],
    }],
    events: &[
        (Step(0), Ran),
        (Step(0), Ran),
        (Step(0), Ran),
        (Step(0), Closed(Serial)),
        (Ask(0), Granted),
        (Step(0), Closed(Serial)),
        (Ask(0), Granted),
        (Place(1, 0, 1), Placed),
        (Step(1), Ran),
        (Step(1), Ran),
        (Step(1), Ran),
        (Step(1), Closed(Serial)),
        (Ask(1), Granted),
        (Step(0), Ran),
        (Step(0), Ran),
        (Step(0), Closed(Serial)),
        (Ask(0), WindowFull),
        (Deliver(0, 0), Squashed),
        (Step(0), Bounced(0)),
        (Drain(0), Drained),
        (Retire(0), Retired),
        (Step(0), Ran),
        (Step(0), Ran),
        (Step(0), Closed(Serial)),
        (Ask(0), Granted),
        (Step(0), Closed(Serial)),
        (Ask(0), NotTurn(T1)),
        (Step(1), Closed(Serial)),
        (Ask(1), Granted),
    ],
    finishing: &[],
    console: b"",
};

// The new thread is placed on the one core, and runs until it exits; then the first is placed there again.
const TWO_THREADS_ON_ONE_CORE: Row = Row {
    name: "two threads on one core",
    cores: 1,
    depth: 1,
    window: 2,
    s: 100,
    capacity: 16,
    input: b"",
    spheres: &[Life {
        code: RACE,
        role: Lived::Recorded {
            mode: ModeName::OrderSize,
            log: b"\x44\x4C\x52\x4E\x01\x00\x00\x00\x64\x00\x00\x00\x06\x00\x00\x00\
                  \x06\x00\x00\x00\x00\x11\x00\x06\x00\x00\x00\x03\x00\x00\x00\x03\
                  \x00\x00\x00\x02\x00\x00\x00\x00\x00\x00\x00\x00\x00\x00\x00\x00\
                  \x00\x00\x00",
        },
        commits: &[(T0, 3), (T0, 0), (T1, 3), (T1, 0), (T0, 2), (T0, 0)],
        loads: &[Load {
            address: 0x100,
            value: 9,
        }],
    }],
    events: &[
        (Step(0), Ran),
        (Step(0), Ran),
        (Step(0), Ran),
        (Step(0), Closed(Serial)),
        (Ask(0), Granted),
        (Step(0), Closed(Serial)),
        (Ask(0), Granted),
        (Place(0, 0, 1), Placed),
        (Step(0), Ran),
        (Step(0), Ran),
        (Step(0), Ran),
        (Step(0), Closed(Serial)),
        (Ask(0), Granted),
        (Step(0), Closed(Serial)),
        (Ask(0), SphereBusy(0)),
        (Drain(0), Drained),
        (Retire(0), Retired),
        (Ask(0), Granted),
        (Step(0), Idle),
        (Place(0, 0, 0), Placed),
        (Step(0), Ran),
        (Step(0), Ran),
        (Step(0), Closed(Serial)),
        (Ask(0), Granted),
        (Step(0), Closed(Serial)),
        (Ask(0), Granted),
    ],
    finishing: &[],
    console: b"",
};

// A buffer of one word ends a chunk between the reservation and the store, and the exit waits for the flight.
const RESERVATION_LOST: Row = Row {
    name: "reservation lost",
    cores: 1,
    depth: 1,
    window: 2,
    s: 100,
    capacity: 1,
    input: b"",
    spheres: &[Life {
        code: RESERVES,
        role: Lived::Recorded {
            mode: ModeName::OrderOnly,
            log: b"\x44\x4C\x52\x4E\x01\x01\x00\x00\x64\x00\x00\x00\x03\x00\x00\x00\
                  \x03\x00\x00\x00\x00\x00\x01\x00\x00\x00\x00\x00\x00\x00\x00\x03\
                  \x00\x00\x00\x00\x00\x00\x00\x00\x00\x00\x00\x00\x00",
        },
        commits: &[(T0, 3), (T0, 2), (T0, 0)],
        loads: &[Load {
            address: 0x104,
            value: 0,
        }],
    }],
    events: &[
        (Step(0), Ran),
        (Step(0), Ran),
        (Step(0), Ran),
        (Step(0), Closed(Overflow)),
        (Ask(0), Granted),
        (Step(0), Ran),
        (Step(0), Ran),
        (Step(0), Closed(Serial)),
        (Ask(0), Granted),
        (Step(0), Closed(Serial)),
        (Ask(0), SphereBusy(0)),
        (Drain(0), Drained),
        (Retire(0), Retired),
        (Ask(0), Granted),
    ],
    finishing: &[],
    console: b"",
};

// With room for both words the chunk isn't cut, and the store is done.
const RESERVATION_KEPT: Row = Row {
    name: "reservation kept",
    cores: 1,
    depth: 1,
    window: 2,
    s: 100,
    capacity: 16,
    input: b"",
    spheres: &[Life {
        code: RESERVES,
        role: Lived::Recorded {
            mode: ModeName::OrderOnly,
            log: b"\x44\x4C\x52\x4E\x01\x01\x00\x00\x64\x00\x00\x00\x02\x00\x00\x00\
                  \x02\x00\x00\x00\x00\x00\x00\x00\x00\x00\x00\x00\x00\x00\x00\x00\
                  \x00\x00\x00\x00\x00",
        },
        commits: &[(T0, 5), (T0, 0)],
        loads: &[Load {
            address: 0x104,
            value: 0,
        }],
    }],
    events: &[
        (Step(0), Ran),
        (Step(0), Ran),
        (Step(0), Ran),
        (Step(0), Ran),
        (Step(0), Ran),
        (Step(0), Closed(Serial)),
        (Ask(0), Granted),
        (Drain(0), Drained),
        (Drain(0), Drained),
        (Retire(0), Retired),
        (Step(0), Closed(Serial)),
        (Ask(0), Granted),
    ],
    finishing: &[],
    console: b"",
};

// A serial step waits until the flight of its sphere is gone.
const BUSY_SPHERE: Row = Row {
    name: "busy sphere",
    cores: 1,
    depth: 1,
    window: 2,
    s: 100,
    capacity: 1,
    input: b"",
    spheres: &[Life {
        code: RESERVES,
        role: Lived::Recorded {
            mode: ModeName::OrderSize,
            log: b"\x44\x4C\x52\x4E\x01\x00\x00\x00\x64\x00\x00\x00\x03\x00\x00\x00\
                  \x03\x00\x00\x00\x00\x00\x03\x00\x00\x00\x03\x00\x02\x00\x00\x00\
                  \x00\x00\x00\x00\x00\x00\x00\x00\x00\x00\x00\x00",
        },
        commits: &[(T0, 3), (T0, 2), (T0, 0)],
        loads: &[Load {
            address: 0x104,
            value: 0,
        }],
    }],
    events: &[
        (Step(0), Ran),
        (Step(0), Ran),
        (Step(0), Ran),
        (Step(0), Closed(Overflow)),
        (Ask(0), Granted),
        (Step(0), Ran),
        (Step(0), Ran),
        (Step(0), Closed(Serial)),
        (Ask(0), Granted),
        (Step(0), Closed(Serial)),
        (Ask(0), SphereBusy(0)),
        (Drain(0), Drained),
        (Retire(0), Retired),
        (Ask(0), Granted),
    ],
    finishing: &[],
    console: b"",
};

// A chunk that is squashed four times has half of its limit, and its size is logged.
const HALVED_LIMIT: Row = Row {
    name: "halved limit",
    cores: 2,
    depth: 1,
    window: 2,
    s: 16,
    capacity: 16,
    input: b"",
    spheres: &[Life {
        code: LOADS_AND_STORES,
        role: Lived::Recorded {
            mode: ModeName::OrderOnly,
            log: b"\x44\x4C\x52\x4E\x01\x01\x00\x00\x10\x00\x00\x00\x07\x00\x00\x00\
                  \x07\x00\x00\x00\x00\x11\x11\x00\x05\x00\x00\x00\x00\x02\x00\x00\
                  \x00\x08\x00\x01\x00\x00\x00\x00\x02\x00\x01\x01\x00\x00\x00\x02\
                  \x00\x01\x02\x00\x00\x00\x02\x00\x01\x03\x00\x00\x00\x02\x00\x00\
                  \x00\x00\x00\x00\x00\x00\x00\x00\x00\x00\x00",
        },
        commits: &[
            (T0, 3),
            (T0, 0),
            (T1, 2),
            (T1, 2),
            (T1, 2),
            (T1, 2),
            (T0, 8),
        ],
        loads: &[
            Load {
                address: 0x100,
                value: 0,
            },
            Load {
                address: 0x100,
                value: 0,
            },
            Load {
                address: 0x100,
                value: 0,
            },
            Load {
                address: 0x100,
                value: 0,
            },
        ],
    }],
    events: &[
        (Step(0), Ran),
        (Step(0), Ran),
        (Step(0), Ran),
        (Step(0), Closed(Serial)),
        (Ask(0), Granted),
        (Step(0), Closed(Serial)),
        (Ask(0), Granted),
        (Place(1, 0, 1), Placed),
        (Step(0), Ran),
        (Step(1), Ran),
        (Step(1), Ran),
        (Cut(1), Closed(How::Cut)),
        (Ask(1), Granted),
        (Deliver(0, 0), Squashed),
        (Drain(0), Drained),
        (Retire(0), Retired),
        (Step(0), Ran),
        (Step(1), Ran),
        (Step(1), Ran),
        (Cut(1), Closed(How::Cut)),
        (Ask(1), Granted),
        (Deliver(0, 0), Squashed),
        (Drain(0), Drained),
        (Retire(0), Retired),
        (Step(0), Ran),
        (Step(1), Ran),
        (Step(1), Ran),
        (Cut(1), Closed(How::Cut)),
        (Ask(1), Granted),
        (Deliver(0, 0), Squashed),
        (Drain(0), Drained),
        (Retire(0), Retired),
        (Step(0), Ran),
        (Step(1), Ran),
        (Step(1), Ran),
        (Cut(1), Closed(How::Cut)),
        (Ask(1), Granted),
        (Deliver(0, 0), Squashed),
        (Drain(0), Drained),
        (Retire(0), Retired),
        (Step(0), Ran),
        (Step(0), Ran),
        (Step(0), Ran),
        (Step(0), Ran),
        (Step(0), Ran),
        (Step(0), Ran),
        (Step(0), Ran),
        (Step(0), Closed(Limit)),
        (Ask(0), Granted),
    ],
    finishing: &[],
    console: b"",
};

// A plain sphere writes two bytes to a channel, and a recorded one reads them.
const PIPE: Row = Row {
    name: "pipe",
    cores: 2,
    depth: 1,
    window: 2,
    s: 100,
    capacity: 16,
    input: b"",
    spheres: &[
        Life {
            code: WRITES_TO_PIPE,
            role: Lived::Plain,
            commits: &[(T0, 2), (T0, 0)],
            loads: &[],
        },
        Life {
            code: READS_FROM_PIPE,
            role: Lived::Recorded {
                mode: ModeName::OrderSize,
                log: b"\x44\x4C\x52\x4E\x01\x00\x00\x00\x64\x00\x00\x00\x04\x00\x00\x00\
                  \x04\x00\x00\x00\x00\x00\x04\x00\x00\x00\x03\x00\x00\x00\x02\x00\
                  \x00\x00\x00\x00\x00\x00\x01\x00\x00\x00\x03\x02\x00\x00\x00\x02\
                  \x00\x93\x08\x00\x00\x00\x00",
            },
            commits: &[(T0, 3), (T0, 0), (T0, 2), (T0, 0)],
            loads: &[Load {
                address: 0x100,
                value: 0x893,
            }],
        },
    ],
    events: &[
        (Step(0), Ran),
        (Step(0), Ran),
        (Step(0), Closed(Serial)),
        (Ask(0), Granted),
        (Step(0), Closed(Serial)),
        (Ask(0), Granted),
        (Step(1), Ran),
        (Step(1), Ran),
        (Step(1), Ran),
        (Step(1), Closed(Serial)),
        (Ask(1), Granted),
        (Step(1), Closed(Serial)),
        (Ask(1), Granted),
        (Deliver(0, 0), Delivered),
        (Drain(0), Drained),
        (Retire(0), Retired),
        (Step(1), Ran),
        (Step(1), Ran),
        (Step(1), Closed(Serial)),
        (Ask(1), Granted),
        (Step(1), Closed(Serial)),
        (Ask(1), Granted),
    ],
    finishing: &[],
    console: b"",
};

// A DMA squashes the chunk that read before it, and takes no turn in picolog.
const DMA: Row = Row {
    name: "dma",
    cores: 1,
    depth: 1,
    window: 2,
    s: 100,
    capacity: 16,
    input: b"AB",
    spheres: &[Life {
        code: TRANSFERS,
        role: Lived::Recorded {
            mode: ModeName::Picolog,
            log: b"\x44\x4C\x52\x4E\x01\x02\x00\x00\x64\x00\x00\x00\x05\x00\x00\x00\
                  \x00\x00\x00\x00\x00\x00\x00\x00\x00\x00\x00\x00\x00\x00\x00\x00\
                  \x01\x00\x00\x00\x02\x00\x00\x00\x02\x00\x41\x42",
        },
        commits: &[(T0, 3), (T0, 0), (Actor::Dma, 0), (T0, 2), (T0, 0)],
        loads: &[Load {
            address: 0x104,
            value: 0x4241,
        }],
    }],
    events: &[
        (Step(0), Ran),
        (Step(0), Ran),
        (Step(0), Ran),
        (Step(0), Closed(Serial)),
        (Ask(0), Granted),
        (Step(0), Closed(Serial)),
        (Ask(0), Granted),
        (Dma(0), DmaDone),
        (Step(0), Ran),
        (Deliver(0, 0), Squashed),
        (Drain(0), Drained),
        (Drain(0), Drained),
        (Drain(0), Clean),
        (Retire(0), Retired),
        (Step(0), Ran),
        (Step(0), Ran),
        (Step(0), Closed(Serial)),
        (Ask(0), Granted),
        (Step(0), Closed(Serial)),
        (Ask(0), Granted),
    ],
    finishing: &[],
    console: b"",
};

// An interrupt enters the handler, and the next one is masked.
const INTERRUPT: Row = Row {
    name: "interrupt",
    cores: 1,
    depth: 1,
    window: 2,
    s: 100,
    capacity: 16,
    input: b"",
    spheres: &[Life {
        code: HANDLES,
        role: Lived::Recorded {
            mode: ModeName::OrderSize,
            log: b"\x44\x4C\x52\x4E\x01\x00\x00\x00\x64\x00\x00\x00\x02\x00\x00\x00\
                  \x02\x00\x00\x00\x00\x02\x00\x00\x00\x02\x00\x00\x00\x01\x00\x00\
                  \x00\x00\x02\x00\x00\x00\x05\x00\x00\x00\x00\x00\x00\x00\x00\x00\
                  \x00\x00",
        },
        commits: &[(T0, 2), (T0, 0)],
        loads: &[],
    }],
    events: &[
        (Step(0), Ran),
        (Step(0), Ran),
        (Step(0), Closed(Serial)),
        (Ask(0), Granted),
        (Step(0), Closed(Serial)),
        (Ask(0), Granted),
        (Raise(0, 0, 5), Raised),
        (Raise(0, 0, 6), Masked),
    ],
    finishing: &[],
    console: b"",
};

// What has no effect, and a chunk that is cut off.
const SMALL_ANSWERS: Row = Row {
    name: "small answers",
    cores: 1,
    depth: 1,
    window: 2,
    s: 100,
    capacity: 16,
    input: b"",
    spheres: &[Life {
        code: EXITS,
        role: Lived::Recorded {
            mode: ModeName::OrderSize,
            log: b"\x44\x4C\x52\x4E\x01\x00\x00\x00\x64\x00\x00\x00\x01\x00\x00\x00\
                  \x01\x00\x00\x00\x00\x01\x00\x00\x00\x01\x00\x00\x00\x00\x00\x00\
                  \x00\x00\x00\x00\x00\x00\x00",
        },
        commits: &[(T0, 1)],
        loads: &[],
    }],
    events: &[
        (Ask(0), NotClosed),
        (Cut(0), NothingRun),
        (Drain(0), NoCommit),
        (Deliver(0, 0), NoCommit),
        (Retire(1), NoCommit),
        (Place(0, 0, 0), Elsewhere(0)),
        (Place(0, 0, 3), NoThread),
        (Raise(0, 0, 5), NoHandler),
        (Dma(0), NoDma),
        (Step(0), Ran),
        (Cut(0), Closed(How::Cut)),
        (Step(0), Waiting),
        (Ask(0), Granted),
    ],
    finishing: &[],
    console: b"",
};

// The moment, a byte of the input, a byte for the console, and a load of one byte there, which faults.
const DEVICE_WORDS: Row = Row {
    name: "device words",
    cores: 1,
    depth: 1,
    window: 2,
    s: 100,
    capacity: 16,
    input: b"A",
    spheres: &[Life {
        code: USES_DEVICES,
        role: Lived::Recorded {
            mode: ModeName::OrderSize,
            log: b"\x44\x4C\x52\x4E\x01\x00\x00\x00\x64\x00\x00\x00\x05\x00\x00\x00\
                  \x05\x00\x00\x00\x00\x00\x00\x05\x00\x00\x00\x01\x00\x00\x00\x00\
                  \x00\x00\x00\x00\x00\x00\x00\x00\x00\x02\x00\x00\x00\x10\x04\x00\
                  \x00\x00\x00\x00\x11\x41\x00\x00\x00\x00\x00\x00\x00\x00\x00",
        },
        commits: &[(T0, 1), (T0, 0), (T0, 0), (T0, 0), (T0, 0)],
        loads: &[
            Load {
                address: 0xF0000000,
                value: 4,
            },
            Load {
                address: 0xF0000004,
                value: 0x41,
            },
        ],
    }],
    events: &[
        (Step(0), Ran),
        (Step(0), Closed(Serial)),
        (Ask(0), Granted),
        (Step(0), Closed(Serial)),
        (Ask(0), Granted),
        (Step(0), Closed(Serial)),
        (Ask(0), Granted),
        (Step(0), Closed(Serial)),
        (Ask(0), Granted),
        (Step(0), Closed(Serial)),
        (Ask(0), Granted),
    ],
    finishing: &[],
    console: b"A",
};

// A store over the code bounces the core that committed it, until the flight is gone.
const NEXT_INSTRUCTION: Row = Row {
    name: "next instruction",
    cores: 1,
    depth: 1,
    window: 2,
    s: 100,
    capacity: 16,
    input: b"",
    spheres: &[Life {
        code: WRITES_ITS_NEXT,
        role: Lived::Recorded {
            mode: ModeName::OrderSize,
            log: b"\x44\x4C\x52\x4E\x01\x00\x00\x00\x64\x00\x00\x00\x02\x00\x00\x00\
                  \x02\x00\x00\x00\x00\x02\x00\x00\x00\x05\x00\x00\x00\x00\x00\x00\
                  \x00\x00\x00\x00\x00\x00\x00\x00\x00",
        },
        commits: &[(T0, 5), (T0, 0)],
        loads: &[],
    }],
    events: &[
        (Step(0), Ran),
        (Step(0), Ran),
        (Step(0), Ran),
        (Step(0), Ran),
        (Step(0), Ran),
        (Step(0), Closed(Serial)),
        (Ask(0), Granted),
        (Step(0), Bounced(0)),
        (Drain(0), Drained),
        (Retire(0), Retired),
        (Step(0), Closed(Serial)),
        (Ask(0), Granted),
    ],
    finishing: &[],
    console: b"",
};

// A DMA is denied by a flight that stores to its buffer, and an exit waits for the DMA's flight.
const STORE_BESIDE: Row = Row {
    name: "store beside",
    cores: 1,
    depth: 1,
    window: 2,
    s: 100,
    capacity: 16,
    input: b"AB",
    spheres: &[Life {
        code: STORES_BESIDE,
        role: Lived::Recorded {
            mode: ModeName::OrderSize,
            log: b"\x44\x4C\x52\x4E\x01\x00\x00\x00\x64\x00\x00\x00\x06\x00\x00\x00\
                  \x06\x00\x00\x00\x00\xF0\x00\x06\x00\x00\x00\x03\x00\x00\x00\x01\
                  \x00\x00\x00\x01\x00\x00\x00\x00\x00\x00\x00\x00\x00\x00\x00\x01\
                  \x00\x00\x00\x03\x00\x00\x00\x02\x00\x41\x42",
        },
        commits: &[(T0, 3), (T0, 0), (T0, 1), (Actor::Dma, 0), (T0, 1), (T0, 0)],
        loads: &[],
    }],
    events: &[
        (Step(0), Ran),
        (Step(0), Ran),
        (Step(0), Ran),
        (Step(0), Closed(Serial)),
        (Ask(0), Granted),
        (Step(0), Closed(Serial)),
        (Ask(0), Granted),
        (Step(0), Ran),
        (Cut(0), Closed(How::Cut)),
        (Ask(0), Granted),
        (Dma(0), Denied(0)),
        (Deliver(0, 0), Already),
        (Retire(0), NotDone),
        (Drain(0), Drained),
        (Retire(0), Retired),
        (Dma(0), DmaDone),
        (Step(0), Ran),
        (Step(0), Closed(Serial)),
        (Ask(0), Granted),
        (Step(0), Closed(Serial)),
        (Ask(0), SphereBusy(0)),
        (Drain(0), Drained),
        (Drain(0), Drained),
        (Deliver(0, 0), Delivered),
        (Retire(0), Retired),
        (Ask(0), Granted),
        (Step(0), Idle),
        (Place(0, 0, 0), Ended),
        (Raise(0, 0, 1), Ended),
    ],
    finishing: &[],
    console: b"",
};

// A flight that is left after the schedule is drained and retired.
const FLIGHT_LEFT: Row = Row {
    name: "flight left",
    cores: 1,
    depth: 1,
    window: 2,
    s: 100,
    capacity: 1,
    input: b"",
    spheres: &[Life {
        code: RESERVES,
        role: Lived::Recorded {
            mode: ModeName::OrderSize,
            log: b"\x44\x4C\x52\x4E\x01\x00\x00\x00\x64\x00\x00\x00\x01\x00\x00\x00\
                  \x01\x00\x00\x00\x00\x01\x00\x00\x00\x03\x00\x00\x00\x00\x00\x00\
                  \x00\x00\x00\x00\x00\x00\x00",
        },
        commits: &[(T0, 3)],
        loads: &[Load {
            address: 0x104,
            value: 0,
        }],
    }],
    events: &[
        (Step(0), Ran),
        (Step(0), Ran),
        (Step(0), Ran),
        (Step(0), Closed(Overflow)),
        (Ask(0), Granted),
    ],
    finishing: &[(Drain(0), Drained), (Retire(0), Retired)],
    console: b"",
};
