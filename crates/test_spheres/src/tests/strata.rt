//! Strata that worked logs are cut into, and strata checked on images.
use crate::tests::trails::{FILE, LOG};
use dl_elf::Image;
use dl_entry::Why;
use dl_logfmt::read_log;
use dl_strata::{CheckError, Log, Stratified, check_strata, read_strata, stratify, write_strata};
use std::alloc::Global;
use std::test::Fail;

/// The code of an image, the bytes of a log of it, and those of the strata that it is cut into.
struct Cut {
    code: &'static [u8],
    log: &'static [u8],
    strata: &'static [u8],
}

/// The code of an image, the bytes of strata, and what their check on the image answers.
struct Check {
    code: &'static [u8],
    strata: &'static [u8],
    error: Option<CheckError>,
}

#[test]
fn logs_are_cut_where_chunks_conflict(rt: HostRuntime) -> Result<(), Fail> {
    for row in CUTS {
        let image = image(rt.alloc(), row.code)?;
        let log = read_log(rt.alloc(), row.log)?;
        let strata = cut_of(rt.alloc(), &image, &log)?;
        assert!(rt; strata.as_slice() == row.strata);
    }
    Ok(())
}

#[test]
fn a_log_that_diverges_is_not_cut(rt: HostRuntime) -> Result<(), Fail> {
    let image = dl_elf::load(rt.alloc(), FILE, 4096)?;
    let log = read_log(rt.alloc(), LOG)?;
    let stratified = stratify(rt.alloc(), &image, &log)?;
    assert!(rt; matches!(&stratified, Stratified::Diverged(3, Why::Short(3, 2))));
    Ok(())
}

#[test]
fn the_first_commit_that_is_wrong_is_named(rt: HostRuntime) -> Result<(), Fail> {
    for (i, row) in CHECKS.iter().enumerate() {
        let image = image(rt.alloc(), row.code)?;
        let strata = read_strata(rt.alloc(), row.strata)?;
        assert!(rt;
            check_strata(rt.alloc(), &image, &strata).err() == row.error,
            "{i}"
        );
    }
    Ok(())
}

// The bytes of the strata that a log is cut into, or none.
fn cut_of(alloc: Global, image: &Image, log: &Log) -> Result<Vec<u8>, Fail> {
    match stratify(alloc, image, log)? {
        Stratified::Made(strata) => Ok(write_strata(alloc, &strata)?),
        Stratified::Diverged(..) => Ok(Vec::new(alloc)),
    }
}

// An image in 12,288 bytes of memory, with the header of `FILE`.
fn image(alloc: Global, code: &[u8]) -> Result<Image, Fail> {
    let mut file = Vec::new(alloc);
    file.extend_from_slice(&FILE[..84])?;
    file.extend_from_slice(code)?;
    Ok(dl_elf::load(alloc, &file, 12288)?)
}

// Codes. Thread 0 spawns a thread. It loads the word at 256, and the other stores to it, or to another word; or it loads
// nothing, and the other stores over its `ecall`.
const RACE: &[u8] = b"\x93\x08\x10\x00\x13\x05\x00\x02\x13\x06\x00\x00\x73\x00\x00\x00\
  \x83\x22\x00\x10\x93\x08\x00\x00\x73\x00\x00\x00\x13\x00\x00\x00\
  \x13\x03\x90\x00\x23\x20\x60\x10\x93\x08\x00\x00\x73\x00\x00\x00";

const NO_RACE: &[u8] = b"\x93\x08\x10\x00\x13\x05\x00\x02\x13\x06\x00\x00\x73\x00\x00\x00\
  \x83\x22\x00\x10\x93\x08\x00\x00\x73\x00\x00\x00\x13\x00\x00\x00\
  \x37\x23\x00\x00\x23\x20\x63\x50\x93\x08\x00\x00\x73\x00\x00\x00";

const STORES_CODE: &[u8] = b"\x93\x08\x10\x00\x13\x05\x00\x02\x13\x06\x00\x00\x73\x00\x00\x00\
  \x93\x02\x10\x00\x93\x08\x00\x00\x73\x00\x00\x00\x13\x00\x00\x00\
  \x13\x03\x30\x07\x23\x2C\x60\x00\x93\x08\x00\x00\x73\x00\x00\x00";

// Logs: of both threads' chunks with their sizes, of which thread 1's is first, or second; and the second without sizes.
const FIRST: &[u8] = b"\x44\x4C\x52\x4E\x01\x00\x00\x00\x64\x00\x00\x00\x06\x00\x00\x00\
  \x06\x00\x00\x00\x00\x01\x10\x06\x00\x00\x00\x03\x00\x00\x00\x03\
  \x00\x02\x00\x00\x00\x00\x00\x00\x00\x00\x00\x00\x00\x00\x00\x00\x00\x00\x00";

const SECOND: &[u8] = b"\x44\x4C\x52\x4E\x01\x00\x00\x00\x64\x00\x00\x00\x06\x00\x00\x00\
  \x06\x00\x00\x00\x00\x10\x10\x06\x00\x00\x00\x03\x00\x00\x00\x02\
  \x00\x03\x00\x00\x00\x00\x00\x00\x00\x00\x00\x00\x00\x00\x00\x00\x00\x00\x00";

const SECOND_UNSIZED: &[u8] = b"\x44\x4C\x52\x4E\x01\x01\x00\x00\x64\x00\x00\x00\x06\x00\x00\x00\
  \x06\x00\x00\x00\x00\x10\x10\x00\x00\x00\x00\x00\x00\x00\x00\x00\
  \x00\x00\x00\x00\x00\x00\x00";

// Strata with both threads' chunks in one, each with its size.
const TOGETHER: &[u8] = b"\x44\x4C\x52\x53\x01\x02\x0F\x00\x64\x00\x00\x00\x05\x00\x00\x00\
  \x00\x01\x00\x01\x00\x00\x01\x01\x01\x00\x01\x01\
  \x03\x00\x00\x00\
  \x00\x00\x00\x00\x00\x03\x00\x00\x00\
  \x00\x02\x00\x00\x00\x02\x00\x00\x00\
  \x01\x00\x00\x00\x00\x03\x00\x00\x00\
  \x00\x00\x00\x00\
  \x00\x00\x00\x00\x00\x00\x00\x00";

// Those of `FIRST` and of `SECOND_UNSIZED`, if they conflict.
const FIRST_ALONE: &[u8] = b"\x44\x4C\x52\x53\x01\x02\x0F\x00\x64\x00\x00\x00\x06\x00\x00\x00\
  \x00\x01\x00\x01\x00\x00\x00\x01\x00\x01\x00\x01\x00\x01\x01\
  \x03\x00\x00\x00\
  \x00\x00\x00\x00\x00\x03\x00\x00\x00\
  \x00\x02\x00\x00\x00\x02\x00\x00\x00\
  \x01\x00\x00\x00\x00\x03\x00\x00\x00\
  \x00\x00\x00\x00\
  \x00\x00\x00\x00\x00\x00\x00\x00";

const SECOND_ALONE: &[u8] = b"\x44\x4C\x52\x53\x01\x02\x0F\x00\x64\x00\x00\x00\x06\x00\x00\x00\
  \x00\x01\x00\x01\x00\x00\x01\x00\x00\x00\x01\x01\x00\x01\x01\
  \x00\x00\x00\x00\
  \x00\x00\x00\x00\
  \x00\x00\x00\x00\x00\x00\x00\x00";

// `TOGETHER` without sizes, so that the word of each `ecall` is in the footprint of the chunk before it.
const UNSIZED: &[u8] = b"\x44\x4C\x52\x53\x01\x02\x0F\x00\x64\x00\x00\x00\x05\x00\x00\x00\
  \x00\x01\x00\x01\x00\x00\x01\x01\x01\x00\x01\x01\
  \x00\x00\x00\x00\
  \x00\x00\x00\x00\
  \x00\x00\x00\x00\x00\x00\x00\x00";

// `TOGETHER` with a size that no commit has.
const LEFT_OVER: &[u8] = b"\x44\x4C\x52\x53\x01\x02\x0F\x00\x64\x00\x00\x00\x05\x00\x00\x00\
  \x00\x01\x00\x01\x00\x00\x01\x01\x01\x00\x01\x01\
  \x04\x00\x00\x00\
  \x00\x00\x00\x00\x00\x03\x00\x00\x00\
  \x00\x02\x00\x00\x00\x02\x00\x00\x00\
  \x01\x00\x00\x00\x00\x03\x00\x00\x00\
  \x01\x05\x00\x00\x00\x01\x00\x00\x00\
  \x00\x00\x00\x00\
  \x00\x00\x00\x00\x00\x00\x00\x00";

// With a serial step among the chunks.
const SERIAL_IN_CHUNKS: &[u8] = b"\x44\x4C\x52\x53\x01\x02\x0F\x00\x64\x00\x00\x00\x04\x00\x00\x00\
  \x00\x02\x00\x00\x01\x01\x01\x00\x01\x01\
  \x03\x00\x00\x00\
  \x00\x00\x00\x00\x00\x03\x00\x00\x00\
  \x00\x02\x00\x00\x00\x02\x00\x00\x00\
  \x01\x00\x00\x00\x00\x03\x00\x00\x00\
  \x00\x00\x00\x00\
  \x00\x00\x00\x00\x00\x00\x00\x00";

// With a chunk alone, as if it were a serial step.
const CHUNK_ALONE: &[u8] = b"\x44\x4C\x52\x53\x01\x02\x0F\x00\x64\x00\x00\x00\x05\x00\x00\x00\
  \x01\x00\x01\x00\x00\x01\x01\x01\x00\x01\x01\
  \x03\x00\x00\x00\
  \x00\x00\x00\x00\x00\x03\x00\x00\x00\
  \x00\x02\x00\x00\x00\x02\x00\x00\x00\
  \x01\x00\x00\x00\x00\x03\x00\x00\x00\
  \x00\x00\x00\x00\
  \x00\x00\x00\x00\x00\x00\x00\x00";

// With a DMA that nobody asked for.
const NO_REQUEST: &[u8] = b"\x44\x4C\x52\x53\x01\x02\x0F\x00\x64\x00\x00\x00\x06\x00\x00\x00\
  \x00\x01\x00\x01\x00\x02\x00\x01\x01\x01\x00\x01\x01\
  \x03\x00\x00\x00\
  \x00\x00\x00\x00\x00\x03\x00\x00\x00\
  \x00\x02\x00\x00\x00\x02\x00\x00\x00\
  \x01\x00\x00\x00\x00\x03\x00\x00\x00\
  \x00\x00\x00\x00\
  \x00\x00\x00\x00\x00\x00\x00\x00";

// With an instruction too many in the second chunk of the stratum.
const TOO_LONG: &[u8] = b"\x44\x4C\x52\x53\x01\x02\x0F\x00\x64\x00\x00\x00\x05\x00\x00\x00\
  \x00\x01\x00\x01\x00\x00\x01\x01\x01\x00\x01\x01\
  \x03\x00\x00\x00\
  \x00\x00\x00\x00\x00\x03\x00\x00\x00\
  \x00\x02\x00\x00\x00\x02\x00\x00\x00\
  \x01\x00\x00\x00\x00\x04\x00\x00\x00\
  \x00\x00\x00\x00\
  \x00\x00\x00\x00\x00\x00\x00\x00";

const CUTS: &[Cut] = &[
    Cut {
        code: NO_RACE,
        log: FIRST,
        strata: TOGETHER,
    },
    Cut {
        code: RACE,
        log: FIRST,
        strata: FIRST_ALONE,
    },
    Cut {
        code: STORES_CODE,
        log: SECOND,
        strata: TOGETHER,
    },
    Cut {
        code: STORES_CODE,
        log: SECOND_UNSIZED,
        strata: SECOND_ALONE,
    },
];

// Where a commit doesn't fit, that is answered although another conflicts.
const CHECKS: &[Check] = &[
    Check {
        code: NO_RACE,
        strata: TOGETHER,
        error: None,
    },
    Check {
        code: RACE,
        strata: FIRST_ALONE,
        error: None,
    },
    Check {
        code: STORES_CODE,
        strata: TOGETHER,
        error: None,
    },
    Check {
        code: STORES_CODE,
        strata: SECOND_ALONE,
        error: None,
    },
    Check {
        code: RACE,
        strata: TOGETHER,
        error: Some(CheckError::Conflict(3)),
    },
    Check {
        code: STORES_CODE,
        strata: UNSIZED,
        error: Some(CheckError::Conflict(3)),
    },
    Check {
        code: RACE,
        strata: LEFT_OVER,
        error: Some(CheckError::Unfit(6)),
    },
    Check {
        code: RACE,
        strata: SERIAL_IN_CHUNKS,
        error: Some(CheckError::Unfit(1)),
    },
    Check {
        code: RACE,
        strata: CHUNK_ALONE,
        error: Some(CheckError::Unfit(0)),
    },
    Check {
        code: RACE,
        strata: NO_REQUEST,
        error: Some(CheckError::Unfit(2)),
    },
    Check {
        code: RACE,
        strata: TOO_LONG,
        error: Some(CheckError::Unfit(3)),
    },
];
