//! The devices: input, console, pipes and random bytes.
use dl_dev::Devices;
use std::process::Abort;
use std::test::Fail;

#[test]
fn input_ends(rt: HostRuntime) -> Result<(), Fail> {
    let mut devices = Devices::new(rt.alloc(), b"ABCDE", 0)?;
    assert!(rt; devices.input_left() == 5);
    assert!(rt; devices.input_byte() == Some(0x41));
    devices.input_take(2);
    assert!(rt; devices.input() == b"DE".as_slice());
    devices.input_take(9);
    assert!(rt; devices.input_left() == 0);
    assert!(rt; devices.input_byte().is_none());
    Ok(())
}

#[test]
fn console_takes_all(rt: HostRuntime) -> Result<(), Fail> {
    let mut devices = Devices::new(rt.alloc(), b"", 0)?;
    devices.console_put(b"A")?;
    devices.console_put(b"")?;
    devices.console_put(b"BC")?;
    assert!(rt; devices.console() == b"ABC".as_slice());
    Ok(())
}

/// What is done to a pipe: bytes are put, of which it takes that many; or these bytes are got, or looked at, in a buffer
/// of that many.
enum Step {
    Put(&'static [u8], u32),
    Get(usize, &'static [u8]),
    Look(usize, &'static [u8]),
}

#[test]
fn a_pipe_holds_256_bytes(rt: HostRuntime) -> Result<(), Fail> {
    let mut devices = Devices::new(rt.alloc(), b"", 0)?;
    for step in STEPS {
        follow(&rt, &mut devices, step);
    }
    Ok(())
}

fn follow(rt: &impl Abort, devices: &mut Devices, step: &Step) {
    match step {
        Step::Put(bytes, count) => assert!(rt; devices.pipe_put(3, bytes) == *count),
        Step::Get(size, bytes) => assert!(rt; gets(devices, *size, bytes)),
        Step::Look(size, bytes) => assert!(rt; looks_at(devices, *size, bytes)),
    }
}

fn gets(devices: &mut Devices, size: usize, bytes: &[u8]) -> bool {
    let mut room = [9; 300];
    let count = devices.pipe_get(3, &mut room[..size.min(300)]);
    holds(&room, count, bytes)
}

fn looks_at(devices: &Devices, size: usize, bytes: &[u8]) -> bool {
    let mut room = [9; 300];
    let count = devices.pipe_first(3, &mut room[..size.min(300)]);
    holds(&room, count, bytes)
}

// The buffer begins with the bytes, and the byte after them is as it was.
fn holds(room: &[u8], count: u32, bytes: &[u8]) -> bool {
    count as usize == bytes.len() && room.starts_with(bytes) && room.get(bytes.len()) == Some(&9)
}

const STEPS: &[Step] = &[
    Step::Get(300, &[]),
    Step::Put(&[7; 200], 200),
    Step::Put(&[], 0),
    Step::Put(&[8; 100], 56),
    Step::Put(&[9], 0),
    Step::Get(0, &[]),
    Step::Get(199, &[7; 199]),
    // the next bytes go across the end of the block
    Step::Put(&[1, 2, 3], 3),
    Step::Look(2, &[7, 8]),
    Step::Get(
        300,
        &[
            7, 8, 8, 8, 8, 8, 8, 8, 8, 8, 8, 8, 8, 8, 8, 8, 8, 8, 8, 8, 8, 8, 8, 8, 8, 8, 8, 8, 8,
            8, 8, 8, 8, 8, 8, 8, 8, 8, 8, 8, 8, 8, 8, 8, 8, 8, 8, 8, 8, 8, 8, 8, 8, 8, 8, 8, 8, 1,
            2, 3,
        ],
    ),
    Step::Get(300, &[]),
];

#[test]
fn pipes_are_apart(rt: HostRuntime) -> Result<(), Fail> {
    let mut devices = Devices::new(rt.alloc(), b"", 0)?;
    let mut byte = [0u8; 1];
    for pipe in 0..8 {
        assert!(rt; devices.pipe_put(pipe, &[pipe]) == 1);
    }
    for pipe in 0..8 {
        assert!(rt; devices.pipe_get(pipe, &mut byte) == 1);
        assert!(rt; byte[0] == pipe);
    }
    Ok(())
}

// The expected bytes are those of an independent model.
#[test]
fn random_bytes_are_those_of_the_seed(rt: HostRuntime) -> Result<(), Fail> {
    let mut twelve = [0u8; 12];
    let mut devices = Devices::new(rt.alloc(), b"", 7)?;
    devices.random_first(&mut twelve);
    assert!(rt; twelve == [212, 83, 14, 69, 161, 89, 226, 249, 69, 12, 174, 254]);
    let mut three = [0u8; 3];
    devices.random(&mut three);
    assert!(rt; three == [212, 83, 14]);
    assert!(rt; next_four(&mut devices) == [69, 161, 89, 226]);
    Ok(())
}

#[test]
fn a_seed_has_64_bits(rt: HostRuntime) -> Result<(), Fail> {
    let mut devices = Devices::new(rt.alloc(), b"", u64::MAX)?;
    assert!(rt; next_four(&mut devices) == [145, 198, 23, 79]);
    Ok(())
}

fn next_four(devices: &mut Devices) -> [u8; 4] {
    let mut four = [0u8; 4];
    devices.random(&mut four);
    four
}
