//! Logs of one commit, and how their replays end.
ghost use Rattle.std.specs.Prelude.{◌≡◌, ◌∷◌, [], IfOk};
ghost use Rattle.spec_isa.specs.Threads.{started};
ghost use Rattle.spec_play.specs.Turns.{Turn};
ghost use Rattle.dl_replay.specs.Replays.{IsReplaying};
ghost use Rattle.test_spheres.specs.Replaying.{IsFirst};

use dl_entry::{Actor, End, OutOfMemory, Why};
use dl_kernel::State;
use dl_logfmt::read_log;
use dl_mem::Memory;
use dl_mode::{Noting, OrderAndSize, OrderOnly, PicoLog};
use dl_replay::Replayer;
use dl_thread::Thread;
use spec_log::{Log, ModeName};
use std::alloc::Global;
use std::test::Fail;

// A file whose code is `ecall`.
const FILE: &[u8] = &[
    0x7f, 0x45, 0x4c, 0x46, 0x01, 0x01, 0x01, 0x00, 0x00, 0x00, 0x00, 0x00, 0x00, 0x00, 0x00, 0x00,
    0x02, 0x00, 0xf3, 0x00, 0x01, 0x00, 0x00, 0x00, 0x00, 0x00, 0x00, 0x00, 0x34, 0x00, 0x00, 0x00,
    0x00, 0x00, 0x00, 0x00, 0x00, 0x00, 0x00, 0x00, 0x34, 0x00, 0x20, 0x00, 0x01, 0x00, 0x00, 0x00,
    0x00, 0x00, 0x00, 0x00, 0x01, 0x00, 0x00, 0x00, 0x54, 0x00, 0x00, 0x00, 0x00, 0x00, 0x00, 0x00,
    0x00, 0x00, 0x00, 0x00, 0x04, 0x00, 0x00, 0x00, 0x04, 0x00, 0x00, 0x00, 0x07, 0x00, 0x00, 0x00,
    0x04, 0x00, 0x00, 0x00, 0x73, 0x00, 0x00, 0x00,
];

/// The bytes of a log, what its first actor asks, and the end.
#[derive(Clone, Copy)]
struct Row {
    log: &'static [u8],
    total: u32,
    serial: bool,
    end: End,
}

#[test]
fn replays_end_where_they_leave_their_logs(rt: HostRuntime) -> Result<(), Fail> {
    let start = start(rt.alloc(), FILE)?;
    for row in ROWS {
        let end = ended(rt.alloc(), row, &start)?;
        assert!(rt; end == Some(row.end));
    }
    Ok(())
}

fn start(alloc: Global, file: &[u8]) -> Result<State, Fail>
    ensures { IfOk result IsFirst }
{
    let image = dl_elf::load(alloc, file, 4096)?;
    Ok(State::first(Memory::new(alloc, &image)?, 0))
}

fn ended(alloc: Global, row: &Row, start: &State) -> Result<Option<End>, Fail>
    requires { IsFirst start.now }
{
    let log = read_log(alloc, row.log)?;
    match log.parts().mode {
        ModeName::OrderSize => ended_in::<OrderAndSize>(alloc, &log, row, start),
        ModeName::OrderOnly => ended_in::<OrderOnly>(alloc, &log, row, start),
        ModeName::Picolog => ended_in::<PicoLog>(alloc, &log, row, start),
    }
}

/// How the replay has ended once its first actor has asked.
fn ended_in<M: Noting>(
    alloc: Global,
    log: &Log,
    row: &Row,
    start: &State,
) -> Result<Option<End>, Fail>
    requires mode { log.now.mode ≡ M.mode }
    requires start { IsFirst start.now }
{
    let mut state = start.again(alloc)?;
    let mut replayer = Replayer::<M>::at(alloc, log, None, &state)?;
    match replayer.head() {
        Some(Actor::Thread(thread)) => ask(&mut replayer, thread, row, &mut state)?,
        Some(Actor::Dma) => {
            let _ = replayer.serve_dma(&mut state)?;
        }
        None => {}
    }
    Ok(replayer.ended())
}

/// The thread asks; there is only thread 0.
fn ask<M: Noting>(
    replayer: &mut Replayer<M>,
    thread: u8,
    row: &Row,
    state: &mut State,
) -> Result<(), OutOfMemory>
    requires turn { replayer.old.now ≡ Turn thread }
    requires at { IsReplaying replayer.old state.old }
    requires threads { state.old.threads ≡ started 0 ∷ [] }
    requires commits { state.old.commits ≡ 0 }
{
    if thread != 0 {
        return Ok(());
    }
    if row.serial && row.total == 0 {
        let _ = replayer.serve_step(thread, state)?;
        return Ok(());
    }
    let _ = replayer.end_chunk(thread, &Thread::started(0), row.total, state);
    Ok(())
}

const ROWS: &[Row] = &[
    // A chunk of two instructions is logged.
    Row {
        log: b"\x44\x4C\x52\x4E\x01\x00\x00\x00\x64\x00\x00\x00\x01\x00\x00\x00\
          \x01\x00\x00\x00\x00\
          \x01\x00\x00\x00\x02\x00\
          \x00\x00\x00\x00\x00\x00\x00\x00\x00\x00\x00\x00",
        total: 2,
        serial: true,
        end: End::Complete(1),
    },
    Row {
        log: b"\x44\x4C\x52\x4E\x01\x01\x00\x00\x64\x00\x00\x00\x01\x00\x00\x00\
          \x01\x00\x00\x00\x00\
          \x01\x00\x00\x00\x00\x00\x00\x00\x00\x02\x00\
          \x00\x00\x00\x00\x00\x00\x00\x00\x00\x00\x00\x00",
        total: 2,
        serial: false,
        end: End::Complete(1),
    },
    Row {
        log: b"\x44\x4C\x52\x4E\x01\x02\x00\x00\x64\x00\x00\x00\x01\x00\x00\x00\
          \x00\x00\x00\x00\x00\x00\x00\x00\
          \x00\x00\x00\x00\x00\x00\x00\x00\x00\x00\x00\x00",
        total: 2,
        serial: true,
        end: End::Complete(1),
    },
    // Thread 5 is logged.
    Row {
        log: b"\x44\x4C\x52\x4E\x01\x00\x00\x00\x64\x00\x00\x00\x01\x00\x00\x00\
          \x01\x00\x00\x00\x05\
          \x01\x00\x00\x00\x02\x00\
          \x00\x00\x00\x00\x00\x00\x00\x00\x00\x00\x00\x00",
        total: 2,
        serial: true,
        end: End::Diverged(0, Why::NoThread),
    },
    // Three instructions are logged.
    Row {
        log: b"\x44\x4C\x52\x4E\x01\x00\x00\x00\x64\x00\x00\x00\x01\x00\x00\x00\
          \x01\x00\x00\x00\x00\
          \x01\x00\x00\x00\x03\x00\
          \x00\x00\x00\x00\x00\x00\x00\x00\x00\x00\x00\x00",
        total: 2,
        serial: true,
        end: End::Diverged(0, Why::Short(3, 2)),
    },
    // A serial step is logged: in the first row there is a chunk, and in the second a serial step.
    Row {
        log: b"\x44\x4C\x52\x4E\x01\x00\x00\x00\x64\x00\x00\x00\x01\x00\x00\x00\
          \x01\x00\x00\x00\x00\
          \x01\x00\x00\x00\x00\x00\
          \x00\x00\x00\x00\x00\x00\x00\x00\x00\x00\x00\x00",
        total: 1,
        serial: false,
        end: End::Diverged(0, Why::NotSerial),
    },
    Row {
        log: b"\x44\x4C\x52\x4E\x01\x00\x00\x00\x64\x00\x00\x00\x01\x00\x00\x00\
          \x01\x00\x00\x00\x00\
          \x01\x00\x00\x00\x00\x00\
          \x00\x00\x00\x00\x00\x00\x00\x00\x00\x00\x00\x00",
        total: 0,
        serial: true,
        end: End::Complete(1),
    },
    // An interrupt is logged after it, for a thread without a handler.
    Row {
        log: b"\x44\x4C\x52\x4E\x01\x00\x00\x00\x64\x00\x00\x00\x01\x00\x00\x00\
          \x01\x00\x00\x00\x00\
          \x01\x00\x00\x00\x02\x00\
          \x01\x00\x00\x00\x00\x01\x00\x00\x00\x05\x00\x00\x00\
          \x00\x00\x00\x00\x00\x00\x00\x00",
        total: 2,
        serial: true,
        end: End::Diverged(0, Why::Interrupt),
    },
    // A DMA is logged, and none is asked for.
    Row {
        log: b"\x44\x4C\x52\x4E\x01\x01\x00\x00\x64\x00\x00\x00\x01\x00\x00\x00\
          \x01\x00\x00\x00\x0F\
          \x00\x00\x00\x00\
          \x00\x00\x00\x00\x00\x00\x00\x00\
          \x01\x00\x00\x00\x00\x00\x00\x00\x02\x00\x41\x42",
        total: 0,
        serial: false,
        end: End::Diverged(0, Why::Dma),
    },
    // A size is logged, and the step is serial.
    Row {
        log: b"\x44\x4C\x52\x4E\x01\x00\x00\x00\x64\x00\x00\x00\x01\x00\x00\x00\
          \x01\x00\x00\x00\x00\
          \x01\x00\x00\x00\x02\x00\
          \x00\x00\x00\x00\x00\x00\x00\x00\x00\x00\x00\x00",
        total: 0,
        serial: true,
        end: End::Diverged(0, Why::SizeOfSerial(2)),
    },
    // An input is logged that nothing takes.
    Row {
        log: b"\x44\x4C\x52\x4E\x01\x02\x00\x00\x64\x00\x00\x00\x01\x00\x00\x00\
          \x00\x00\x00\x00\x00\x00\x00\x00\
          \x00\x00\x00\x00\
          \x01\x00\x00\x00\x05\x00\x00\x00\x00\x00\x00\
          \x00\x00\x00\x00",
        total: 2,
        serial: true,
        end: End::Diverged(1, Why::LeftOver),
    },
];
