//! Instructions over a small memory, with results from outside.
ghost use Rattle.std.specs.Prelude.{◌≡◌, ◌*◌, ◌/◌, ◌+◌, ◌<◌, Some, None, nat_eq, length, if◌then◌else◌};
ghost use Rattle.spec_isa.specs.Words.{lay, read, with_byte};
ghost use Rattle.spec_isa.specs.Masks.{bytes_of, some_if};

use dl_thread::{Did, Full, Kind, Load, Thread, ThreadStatus, Threads, View, one};

// A memory of 64 bytes, of which flight 3 holds up one word, and which may have no room for stores.
#[derive(Drop)]
struct Small {
    bytes: [u8; 64],
    held: u32,
    has_room: bool,
}

impl View for Small {
    ghost sight = { λ v. record { bytes = v.bytes; held = λ a. if nat_eq (4 * a) v.held then Some 3 else None; room = λ _. v.has_room } };

    ghost Read = { λ v a w. w ≡ v };

    ghost Wrote = { λ v b w. w.bytes ≡ lay v.bytes b };

    fn size(&self) -> u32 {
        64
    }

    fn fetch(&mut self, addr: u32) -> Result<u32, u8> {
        if addr == self.held {
            Err(3)
        } else {
            Ok(word_at(&self.bytes, addr))
        }
    }

    fn load(&mut self, word: u32) -> Result<u32, u8> {
        self.fetch(word)
    }

    fn store(&mut self, word: u32, mask: u8, value: u32) -> Result<(), Full> {
        if !self.has_room {
            return Err(Full);
        }
        put_word(&mut self.bytes, word, mask, value);
        Ok(())
    }
}

#[tactic(auto, unfolding(spec_isa::specs::Words::read))]
fn word_at(bytes: &[u8], addr: u32) -> u32
    requires { 4 * (addr / 4) + 3 < length bytes.now }
    ensures { result ≡ read bytes.now (addr / 4) }
{
    let at = 4 * (addr as usize / 4);
    u32::from(bytes[at])
        + u32::from(bytes[at + 1]) * (1 << 8)
        + u32::from(bytes[at + 2]) * (1 << 16)
        + u32::from(bytes[at + 3]) * (1 << 24)
}

#[tactic(auto, unfolding(spec_isa::specs::Words::lay, spec_isa::specs::Masks::bytes_of))]
fn put_word(bytes: &mut [u8], addr: u32, mask: u8, value: u32)
    requires { 4 * (addr / 4) + 3 < length bytes.old }
    ensures { bytes.new ≡ lay bytes.old (bytes_of (addr / 4) mask value) }
{
    let at = 4 * (addr as usize / 4);
    put_byte(bytes, at, mask % 2 == 1, (value % 256) as u8);
    put_byte(
        bytes,
        at + 1,
        mask / 2 % 2 == 1,
        (value / (1 << 8) % 256) as u8,
    );
    put_byte(
        bytes,
        at + 2,
        mask / 4 % 2 == 1,
        (value / (1 << 16) % 256) as u8,
    );
    put_byte(
        bytes,
        at + 3,
        mask / 8 % 2 == 1,
        (value / (1 << 24) % 256) as u8,
    );
}

fn put_byte(bytes: &mut [u8], at: usize, chosen: bool, byte: u8)
    requires { at < length bytes.old }
    ensures { bytes.new ≡ with_byte bytes.old at (some_if chosen byte) }
{
    if chosen {
        bytes[at] = byte;
    }
}

// The word of memory that programs here load and store, and its address.
const DATA: u32 = 0x80FF_7F01;

const AT: u32 = 32;

fn memory_of(program: [u32; 2]) -> Small {
    let mut view = Small {
        bytes: [0; 64],
        held: 64,
        has_room: true,
    };
    put_word(&mut view.bytes, 0, 15, program[0]);
    put_word(&mut view.bytes, 4, 15, program[1]);
    put_word(&mut view.bytes, AT, 15, DATA);
    view
}

// A thread at 0 with these values of x1 and x2, and 7 in x3.
fn thread(x1: u32, x2: u32) -> Thread {
    let mut parts = Thread::started(0).parts();
    parts.x[1] = x1;
    parts.x[2] = x2;
    parts.x[3] = 7;
    Thread::from_parts(&parts)
}

// The outcome of one instruction, and what it left.
#[derive(Clone, Copy, PartialEq, Eq)]
struct After {
    did: Did,
    pc: u32,
    x3: u32,
    data: u32,
}

fn ran(word: u32, x1: u32, x2: u32) -> After {
    let mut view = memory_of([word, 0]);
    let mut t = thread(x1, x2);
    let did = one(&mut t, &mut view);
    After {
        did,
        pc: t.pc(),
        x3: t.x()[3],
        data: word_at(&view.bytes, AT),
    }
}

#[test]
fn computes_at_the_edges(rt: HostRuntime) {
    for (word, x1, x2, x3) in COMPUTED {
        let want = After {
            did: Did::Next(None),
            pc: 4,
            x3: *x3,
            data: DATA,
        };
        assert!(rt;
            ran(*word, *x1, *x2) == want,
            "{word:#x} of {x1:#x} and {x2:#x}"
        );
    }
}

// An instruction, x1 and x2, and what x3 then is.
const COMPUTED: &[(u32, u32, u32, u32)] = &[
    (0x0220_C1B3, 0x8000_0000, 0xFFFF_FFFF, 0x8000_0000),
    (0x0220_E1B3, 0x8000_0000, 0xFFFF_FFFF, 0),
    (0x0220_C1B3, 7, 0, 0xFFFF_FFFF),
    (0x0220_D1B3, 7, 0, 0xFFFF_FFFF),
    (0x0220_E1B3, 7, 0, 7),
    (0x0220_F1B3, 7, 0, 7),
    (0x0220_A1B3, 0x8000_0000, 0xFFFF_FFFF, 0x8000_0000),
    (0x0220_A1B3, 0xFFFF_FFFF, 0xFFFF_FFFF, 0xFFFF_FFFF),
    (0x0220_B1B3, 0xFFFF_FFFF, 0xFFFF_FFFF, 0xFFFF_FFFE),
    (0x0220_91B3, 0x8000_0000, 0x8000_0000, 0x4000_0000),
    (0x0220_C1B3, 0xFFFF_FFF9, 2, 0xFFFF_FFFD),
    (0x0220_E1B3, 0xFFFF_FFF9, 2, 0xFFFF_FFFF),
    (0x4020_D1B3, 0x8000_0000, 33, 0xC000_0000),
    (0x0020_A1B3, 0xFFFF_FFFF, 0, 1),
    (0x0020_B1B3, 0xFFFF_FFFF, 0, 0),
    (0xFFF0_8193, 0, 0, 0xFFFF_FFFF),
    (0xFFFF_F1B7, 0, 0, 0xFFFF_F000),
];

#[test]
fn loads_stores_and_jumps(rt: HostRuntime) {
    for (word, x1, did, pc, x3, data) in DONE {
        let want = After {
            did: *did,
            pc: *pc,
            x3: *x3,
            data: *data,
        };
        assert!(rt;
            ran(*word, *x1, 0x1234_5678) == want,
            "{word:#x} at {x1:#x}"
        );
    }
}

// An instruction, x1, its outcome, and then pc, x3 and the word of memory.
const DONE: &[(u32, u32, Did, u32, u32, u32)] = &[
    (
        0x0000_8183,
        34,
        Did::Next(Some(Load {
            addr: 34,
            value: 0xFFFF_FFFF,
        })),
        4,
        0xFFFF_FFFF,
        DATA,
    ),
    (
        0x0000_C183,
        34,
        Did::Next(Some(Load {
            addr: 34,
            value: 0xFF,
        })),
        4,
        0xFF,
        DATA,
    ),
    (
        0x0000_9183,
        34,
        Did::Next(Some(Load {
            addr: 34,
            value: 0xFFFF_80FF,
        })),
        4,
        0xFFFF_80FF,
        DATA,
    ),
    (
        0x0000_D183,
        34,
        Did::Next(Some(Load {
            addr: 34,
            value: 0x80FF,
        })),
        4,
        0x80FF,
        DATA,
    ),
    (
        0x0000_A183,
        32,
        Did::Next(Some(Load {
            addr: 32,
            value: DATA,
        })),
        4,
        DATA,
        DATA,
    ),
    (
        0x0000_8003,
        34,
        Did::Next(Some(Load {
            addr: 34,
            value: 0xFFFF_FFFF,
        })),
        4,
        7,
        DATA,
    ),
    (0x0000_9183, 33, Did::Serial(Kind::Fault(4)), 0, 7, DATA),
    (0x0000_A183, 34, Did::Serial(Kind::Fault(4)), 0, 7, DATA),
    (0x0000_A183, 64, Did::Serial(Kind::Fault(5)), 0, 7, DATA),
    (
        0x0000_A183,
        0xF000_0000,
        Did::Serial(Kind::DeviceLoad),
        0,
        7,
        DATA,
    ),
    (
        0x0000_9183,
        0xF000_0000,
        Did::Serial(Kind::Fault(5)),
        0,
        7,
        DATA,
    ),
    (0x0020_8023, 33, Did::Next(None), 4, 7, 0x80FF_7801),
    (0x0020_9023, 34, Did::Next(None), 4, 7, 0x5678_7F01),
    (0x0020_A023, 32, Did::Next(None), 4, 7, 0x1234_5678),
    (0x0020_9023, 33, Did::Serial(Kind::Fault(6)), 0, 7, DATA),
    (0x0020_A023, 64, Did::Serial(Kind::Fault(7)), 0, 7, DATA),
    (
        0x0020_A023,
        0xF000_0008,
        Did::Serial(Kind::DeviceStore),
        0,
        7,
        DATA,
    ),
    (
        0x0020_8023,
        0xF000_0008,
        Did::Serial(Kind::Fault(7)),
        0,
        7,
        DATA,
    ),
    (0x0000_81E7, 6, Did::Serial(Kind::Fault(0)), 0, 7, DATA),
    (0x0000_81E7, 9, Did::Next(None), 8, 4, DATA),
    (0x1000_A1AF, 34, Did::Serial(Kind::Fault(4)), 0, 7, DATA),
    (0x1820_A1AF, 64, Did::Serial(Kind::Fault(7)), 0, 7, DATA),
    (0x1820_A1AF, 32, Did::Next(None), 4, 1, DATA),
    (
        0x0020_A1AF,
        32,
        Did::Next(Some(Load {
            addr: 32,
            value: DATA,
        })),
        4,
        DATA,
        0x9333_D579,
    ),
    (
        0xA020_A1AF,
        32,
        Did::Next(Some(Load {
            addr: 32,
            value: DATA,
        })),
        4,
        DATA,
        0x1234_5678,
    ),
    (0x0000_0073, 0, Did::Serial(Kind::Call), 0, 7, DATA),
    (0x0010_0073, 0, Did::Serial(Kind::Break), 0, 7, DATA),
    (0x0000_0000, 0, Did::Serial(Kind::Fault(2)), 0, 7, DATA),
];

fn loaded(addr: u32, value: u32) -> Did {
    Did::Next(Some(Load { addr, value }))
}

fn faulted(cause: u8) -> Did {
    Did::Serial(Kind::Fault(cause))
}

// LR and then SC of the same word.
const RESERVE_AND_STORE: [u32; 2] = [0x1000_A1AF, 0x1820_A1AF];

#[test]
fn stores_where_it_reserved(rt: HostRuntime) {
    let mut view = memory_of(RESERVE_AND_STORE);
    let mut t = thread(AT, 5);
    assert!(rt; one(&mut t, &mut view) == loaded(AT, DATA));
    assert!(rt; t.reservation() == Some(AT));
    assert!(rt; one(&mut t, &mut view) == Did::Next(None));
    assert!(rt; t.reservation().is_none());
    assert!(rt; t.x()[3] == 0);
    assert!(rt; word_at(&view.bytes, AT) == 5);
}

#[test]
fn waits_for_flights_and_room(rt: HostRuntime) {
    let mut view = memory_of(RESERVE_AND_STORE);
    let mut t = thread(AT, 5);
    view.held = 0;
    assert!(rt; one(&mut t, &mut view) == Did::Bounced(3));
    view.held = AT;
    assert!(rt; one(&mut t, &mut view) == Did::Bounced(3));
    assert!(rt; t == thread(AT, 5));
    view.held = 64;
    assert!(rt; one(&mut t, &mut view) == loaded(AT, DATA));
    let reserved = t;
    view.has_room = false;
    assert!(rt; one(&mut t, &mut view) == Did::NoRoom);
    assert!(rt; t == reserved);
    assert!(rt; one(&mut Thread::started(64), &mut view) == faulted(1));
}

#[test]
fn keeps_sixty_three_threads(rt: HostRuntime) {
    let mut threads = Threads::start(8);
    let other = thread(1, 2);
    for n in 1..63u8 {
        assert!(rt; threads.len() == n);
        assert!(rt; threads.add(&other));
    }
    assert!(rt; !threads.add(&other));
    threads.set(0, &Thread::from_parts(&other.parts()));
    assert!(rt; threads.get(0).is_some_and(|t| t.pc() == 0));
    assert!(rt;
        threads
            .get(62)
            .is_some_and(|t| t.status() == ThreadStatus::Live)
    );
    assert!(rt; threads.get(63).is_none());
}
