//! Accounts of worked runs, and one that another program wrote.
ghost use Rattle.std.specs.Prelude.{◌≡◌, ◌%◌, ◌<◌, length};
ghost use Rattle.spec_isa.specs.Threads.{IsThread};

use dl_account::{Commit, CommitLists, End, Memory, OutOfMemory, Request, Threads, account_text};
use dl_elf::load;
use dl_entry::{Actor, Bytes, CommitKind, Load, Loads, Output, Outputs, Why};
use dl_thread::{Parts, Thread, ThreadStatus};
use std::alloc::Global;
use std::process::Abort;
use std::test::Fail;

#[test]
fn accounts_are_those_of_the_worked_runs(rt: HostRuntime) -> Result<(), Fail> {
    assert!(rt; three_instructions(rt.alloc())?.as_slice() == THREE_INSTRUCTIONS);
    assert!(rt; interrupt(rt.alloc())?.as_slice() == INTERRUPT);
    assert!(rt; device_words(rt.alloc())?.as_slice() == DEVICE_WORDS);
    Ok(())
}

#[test]
fn accounts_end_where_their_logs_are_left(rt: HostRuntime) -> Result<(), Fail> {
    let alloc = rt.alloc();
    let none = CommitLists::of(&[]);
    let account = diverged(alloc, 0, none, End::Diverged(0, Why::Short(3, 2)))?;
    assert!(rt; account.as_slice() == b"end diverged 0 2 3 2\n".as_slice());
    let commits = [commit(alloc, Actor::Thread(0), 3)];
    let one = CommitLists::of(&commits);
    let account = diverged(alloc, 0, one, End::Diverged(1, Why::Input))?;
    assert!(rt; account.as_slice() == b"c 0 0 3\nend diverged 1 4\n".as_slice());
    let account = diverged(alloc, 2, one, End::Diverged(3, Why::Dma))?;
    assert!(rt; account.as_slice() == b"c 2 0 3\nend diverged 3 6\n".as_slice());
    Ok(())
}

#[test]
fn commits_of_lists_come_after_the_others(rt: HostRuntime) -> Result<(), Fail> {
    let alloc = rt.alloc();
    let whole = [commit(alloc, Actor::Thread(2), 5)];
    let by_thread = [
        vec![in alloc;
            commit(alloc, Actor::Thread(0), 6),
            commit(alloc, Actor::Thread(0), 0),
        ]?,
        Vec::new(alloc),
        vec![in alloc; commit(alloc, Actor::Thread(2), 7)]?,
    ];
    let commits = CommitLists {
        whole: &whole,
        by_thread: &by_thread,
    };
    let account = diverged(alloc, 1, commits, End::Diverged(5, Why::Input))?;
    assert!(rt; account.as_slice() == IN_LISTS);
    Ok(())
}

fn three_instructions(alloc: Global) -> Result<Vec<u8>, Fail> {
    let commits = [
        commit(alloc, Actor::Thread(0), 2),
        commit(alloc, Actor::Thread(0), 0),
    ];
    let mut x = [0; 32];
    x[10] = 7;
    let thread = thread(0x0C, ThreadStatus::Ended(7), x);
    let memory = memory(alloc, b"\x93\x08\0\0\x13\x05\x70\0\x73\0\0\0")?;
    Ok(account_text(
        alloc,
        CommitLists::of(&commits),
        &alone(&thread),
        &None,
        &memory,
        &End::Complete(2),
        0,
    )?)
}

fn interrupt(alloc: Global) -> Result<Vec<u8>, Fail> {
    let commits = [
        commit(alloc, Actor::Thread(0), 2),
        commit(alloc, Actor::Thread(0), 0),
    ];
    let mut x = [0; 32];
    x[10] = 5;
    x[17] = 6;
    let mut thread = thread(0x14, ThreadStatus::Live, x);
    thread.handler = 0x14;
    thread.mask = true;
    thread.saved_pc = 0x0C;
    let memory = memory(
        alloc,
        b"\x93\x08\x60\0\x13\x05\x40\x01\x73\0\0\0\x6F\0\0\0\x13\0\0\0\x6F\0\0\0",
    )?;
    Ok(account_text(
        alloc,
        CommitLists::of(&commits),
        &alone(&thread),
        &None,
        &memory,
        &End::Complete(2),
        0,
    )?)
}

fn device_words(alloc: Global) -> Result<Vec<u8>, Fail> {
    let mut commits = [
        commit(alloc, Actor::Thread(0), 1),
        commit(alloc, Actor::Thread(0), 0),
        commit(alloc, Actor::Thread(0), 0),
        commit(alloc, Actor::Thread(0), 0),
        commit(alloc, Actor::Thread(0), 0),
    ];
    commits[1].loads.push(Load {
        address: 0xF000_0000,
        value: 4,
    })?;
    commits[2].loads.push(Load {
        address: 0xF000_0004,
        value: 0x41,
    })?;
    commits[3].outputs.push(output(alloc, 8, b"A")?)?;
    let mut x = [0; 32];
    x[5] = 0xF000_0000;
    x[6] = 4;
    x[7] = 0x41;
    let thread = thread(0x10, ThreadStatus::Fault(5), x);
    let memory = memory(
        alloc,
        b"\xB7\x02\0\xF0\x03\xA3\x02\0\x83\xA3\x42\0\x23\xA4\x72\0\x03\x84\x02\0",
    )?;
    Ok(account_text(
        alloc,
        CommitLists::of(&commits),
        &alone(&thread),
        &None,
        &memory,
        &End::Complete(5),
        0,
    )?)
}

fn diverged(
    alloc: Global,
    first: u32,
    commits: CommitLists<'_>,
    end: End,
) -> Result<Vec<u8>, Fail> {
    let threads = Threads::start(0);
    Ok(account_text(
        alloc,
        commits,
        &threads,
        &None,
        &memory(alloc, b"\x13\0\0\0")?,
        &end,
        first,
    )?)
}

#[test]
fn accounts_begin_with_any_commit(rt: HostRuntime) -> Result<(), Fail> {
    assert!(rt; interval(&rt, rt.alloc())?.as_slice() == INTERVAL);
    Ok(())
}

// The third and fourth commit of two threads, the second of which stores a word that the first one loads.
fn interval(rt: &impl Abort, alloc: Global) -> Result<Vec<u8>, Fail> {
    let mut commits = [
        commit(alloc, Actor::Thread(1), 3),
        commit(alloc, Actor::Thread(0), 2),
    ];
    commits[1].loads.push(Load {
        address: 0x100,
        value: 9,
    })?;
    let mut x = [0; 32];
    x[5] = 9;
    x[10] = 1;
    let mut threads = alone(&thread(0x18, ThreadStatus::Live, x));
    let mut x = [0; 32];
    x[6] = 9;
    let second = thread(0x2C, ThreadStatus::Live, x);
    assert!(rt; threads.add(&Thread::from_parts(&second)));
    let mut memory = memory(
        alloc,
        b"\x93\x08\x10\0\x13\x05\0\x02\x13\x06\0\0\x73\0\0\0\x83\x22\0\x10\x93\x08\0\0\x73\0\0\0\x13\0\0\0\
          \x13\x03\x90\0\x23\x20\x60\x10\x93\x08\0\0\x73\0\0\0",
    )?;
    assert!(rt; memory.size() == 4096);
    memory.put(0x100, 0b1111, 9);
    Ok(account_text(
        alloc,
        CommitLists::of(&commits),
        &threads,
        &None,
        &memory,
        &End::At(4),
        2,
    )?)
}

#[test]
fn an_account_has_what_no_worked_run_shows(rt: HostRuntime) -> Result<(), Fail> {
    assert!(rt; made(&rt, rt.alloc())?.as_slice() == MADE);
    Ok(())
}

fn made(rt: &impl Abort, alloc: Global) -> Result<Vec<u8>, Fail> {
    let mut commits = [
        commit(alloc, Actor::Thread(0), 4096),
        commit(alloc, Actor::Thread(14), 0),
        commit(alloc, Actor::Dma, 0),
    ];
    commits[0].loads.push(Load {
        address: 0x1FC,
        value: 0xFFFF_FFFF,
    })?;
    commits[1].outputs.push(output(alloc, 0, b"")?)?;
    commits[1]
        .outputs
        .push(output(alloc, 8, b"\xFA\xFB\xFC\xFD\xFE\xFF")?)?;
    let request = Some(Request {
        buf: 0x1F0,
        len: 4096,
    });
    Ok(account_text(
        alloc,
        CommitLists::of(&commits),
        &ended_and_masked(rt),
        &request,
        &memory_of_two_words(rt, alloc)?,
        &End::Complete(3),
        0,
    )?)
}

// A thread that has ended, and one in its handler.
fn ended_and_masked(rt: &impl Abort) -> Threads {
    let mut x = [0; 32];
    x[1] = 0xDEAD_BEEF;
    x[31] = 0x000A_0B0C;
    let first = thread(0x24, ThreadStatus::Ended(u32::MAX), x);
    let mut x = [0; 32];
    x[10] = 1;
    let mut masked = thread(8, ThreadStatus::Live, x);
    masked.handler = 0x10;
    masked.mask = true;
    masked.saved_pc = 0x30;
    masked.saved_a0 = 0xFFFF_FFFD;
    masked.saved_a1 = 0x7A;
    let mut threads = alone(&first);
    assert!(rt; threads.add(&Thread::from_parts(&masked)));
    threads
}

fn memory_of_two_words(rt: &impl Abort, alloc: Global) -> Result<Memory, Fail> {
    let mut memory = memory(alloc, b"")?;
    assert!(rt; memory.size() == 4096);
    memory.put(64, 0b0001, 0x10);
    memory.put(4092, 0b1111, 0x0DEF_00AB);
    Ok(memory)
}

fn commit(alloc: Global, actor: Actor, size: u32) -> Commit {
    Commit {
        actor,
        kind: CommitKind::Chunk,
        size,
        loads: Loads::new(alloc),
        outputs: Outputs::new(alloc),
    }
}

fn output(alloc: Global, channel: u32, bytes: &[u8]) -> Result<Output, OutOfMemory> {
    Ok(Output {
        channel,
        bytes: Bytes::from_slice(alloc, bytes)?,
    })
}

// A thread without a handler.
fn thread(pc: u32, status: ThreadStatus, mut x: [u32; 32]) -> Parts
    requires { pc % 4 ≡ 0 }
    ensures thread { IsThread result }
    ensures pc { result.pc ≡ pc }
{
    x[0] = 0;
    Parts {
        pc,
        x,
        reservation: None,
        handler: 0,
        mask: false,
        saved_pc: 0,
        saved_a0: 0,
        saved_a1: 0,
        status,
        commits: 0,
    }
}

fn alone(thread: &Parts) -> Threads
    requires { IsThread thread.now }
{
    let mut threads = Threads::start(0);
    threads.set(0, &Thread::from_parts(thread));
    threads
}

// The headers of a file whose code, of no bytes yet, goes to address 0.
const HEADERS: [u8; 84] = [
    0x7f, 0x45, 0x4c, 0x46, 0x01, 0x01, 0x01, 0x00, 0x00, 0x00, 0x00, 0x00, 0x00, 0x00, 0x00, 0x00,
    0x02, 0x00, 0xf3, 0x00, 0x01, 0x00, 0x00, 0x00, 0x00, 0x00, 0x00, 0x00, 0x34, 0x00, 0x00, 0x00,
    0x00, 0x00, 0x00, 0x00, 0x00, 0x00, 0x00, 0x00, 0x34, 0x00, 0x20, 0x00, 0x01, 0x00, 0x00, 0x00,
    0x00, 0x00, 0x00, 0x00, 0x01, 0x00, 0x00, 0x00, 0x54, 0x00, 0x00, 0x00, 0x00, 0x00, 0x00, 0x00,
    0x00, 0x00, 0x00, 0x00, 0x00, 0x00, 0x00, 0x00, 0x00, 0x00, 0x00, 0x00, 0x07, 0x00, 0x00, 0x00,
    0x04, 0x00, 0x00, 0x00,
];

// A memory of 4,096 bytes that begins with this code.
fn memory(alloc: Global, code: &[u8]) -> Result<Memory, Fail>
    requires { length code.now < 256 }
{
    let length = code.len() as u8;
    let mut headers = HEADERS;
    headers[68] = length;
    headers[72] = length;
    let mut image = Vec::from_slice(alloc, &headers)?;
    image.extend_from_slice(code)?;
    Ok(Memory::new(alloc, &load(alloc, &image, 4096)?)?)
}

const IN_LISTS: &[u8] = b"\
    c 1 2 5\n\
    c 2 0 6\n\
    c 3 0 0\n\
    c 4 2 7\n\
    end diverged 5 4\n";

const THREE_INSTRUCTIONS: &[u8] = b"\
    c 0 0 2\n\
    c 1 0 0\n\
    t 0 0000000C ended:7 00000000 0 00000000 00000000 00000000 00000000 00000000 00000000 00000000 00000000 \
    00000000 00000007 00000000 00000000 00000000 00000000 00000000 00000000 00000000 00000000 00000000 \
    00000000 00000000 00000000 00000000 00000000 00000000 00000000 00000000 00000000 00000000 00000000 \
    00000000\n\
    m 00000000 9308000013057000730000000000000000000000000000000000000000000000\n\
    end complete 2\n";

const INTERRUPT: &[u8] = b"\
    c 0 0 2\n\
    c 1 0 0\n\
    t 0 00000014 live 00000014 1 00000000 00000000 00000000 00000000 00000000 00000000 00000000 00000000 \
    00000000 00000005 00000000 00000000 00000000 00000000 00000000 00000000 00000006 00000000 00000000 \
    00000000 00000000 00000000 00000000 00000000 00000000 00000000 00000000 00000000 00000000 00000000 \
    00000000\n\
    h 0 0000000C 00000000 00000000\n\
    m 00000000 9308600013054001730000006F000000130000006F0000000000000000000000\n\
    end complete 2\n";

const DEVICE_WORDS: &[u8] = b"\
    c 0 0 1\n\
    c 1 0 0\n\
    l F0000000 00000004\n\
    c 2 0 0\n\
    l F0000004 00000041\n\
    c 3 0 0\n\
    o 8 41\n\
    c 4 0 0\n\
    t 0 00000010 fault:5 00000000 0 00000000 00000000 00000000 00000000 F0000000 00000004 00000041 00000000 \
    00000000 00000000 00000000 00000000 00000000 00000000 00000000 00000000 00000000 00000000 00000000 \
    00000000 00000000 00000000 00000000 00000000 00000000 00000000 00000000 00000000 00000000 00000000 \
    00000000\n\
    m 00000000 B70200F003A3020083A3420023A4720003840200000000000000000000000000\n\
    end complete 5\n";

const INTERVAL: &[u8] = b"\
    c 2 1 3\n\
    c 3 0 2\n\
    l 00000100 00000009\n\
    t 0 00000018 live 00000000 0 00000000 00000000 00000000 00000000 00000009 00000000 00000000 00000000 \
    00000000 00000001 00000000 00000000 00000000 00000000 00000000 00000000 00000000 00000000 00000000 \
    00000000 00000000 00000000 00000000 00000000 00000000 00000000 00000000 00000000 00000000 00000000 \
    00000000\n\
    t 1 0000002C live 00000000 0 00000000 00000000 00000000 00000000 00000000 00000009 00000000 00000000 \
    00000000 00000000 00000000 00000000 00000000 00000000 00000000 00000000 00000000 00000000 00000000 \
    00000000 00000000 00000000 00000000 00000000 00000000 00000000 00000000 00000000 00000000 00000000 \
    00000000\n\
    m 00000000 9308100013050002130600007300000083220010930800007300000013000000\n\
    m 00000020 1303900023206010930800007300000000000000000000000000000000000000\n\
    m 00000100 0900000000000000000000000000000000000000000000000000000000000000\n\
    end at 4\n";

const MADE: &[u8] = b"\
    c 0 0 4096\n\
    l 000001FC FFFFFFFF\n\
    c 1 14 0\n\
    o 8 FAFBFCFDFEFF\n\
    c 2 63 0\n\
    t 0 00000024 ended:4294967295 00000000 0 DEADBEEF 00000000 00000000 00000000 00000000 00000000 00000000 \
    00000000 00000000 00000000 00000000 00000000 00000000 00000000 00000000 00000000 00000000 00000000 \
    00000000 00000000 00000000 00000000 00000000 00000000 00000000 00000000 00000000 00000000 00000000 \
    00000000 000A0B0C\n\
    t 1 00000008 live 00000010 1 00000000 00000000 00000000 00000000 00000000 00000000 00000000 00000000 \
    00000000 00000001 00000000 00000000 00000000 00000000 00000000 00000000 00000000 00000000 00000000 \
    00000000 00000000 00000000 00000000 00000000 00000000 00000000 00000000 00000000 00000000 00000000 \
    00000000\n\
    h 1 00000030 FFFFFFFD 0000007A\n\
    d 000001F0 4096\n\
    m 00000040 1000000000000000000000000000000000000000000000000000000000000000\n\
    m 00000FE0 00000000000000000000000000000000000000000000000000000000AB00EF0D\n\
    end complete 3\n";
