//! The limits of a plan's numbers.
use super::plans::{RECORDED_LOG, RECORDED_ROLE, SPHERE, are_refused, changed};
use dl_plan::{PlanError, read_plan};
use std::test::Fail;

#[test]
fn accepts_each_limit(rt: HostRuntime) -> Result<(), Fail> {
    for (from, to) in LIMITS {
        assert!(rt; changed(rt.alloc(), from, to)?.is_ok(), "{to}");
    }
    Ok(())
}

const LIMITS: &[(&str, &str)] = &[
    ("cores = 1", "cores = 8"),
    ("chunk = 100", "chunk = 16"),
    ("chunk = 100", "chunk = 4096"),
    ("buffer = 16", "buffer = 1"),
    ("buffer = 16", "buffer = 4096"),
    ("window = 2", "window = 1"),
    ("window = 2", "window = 8"),
    ("window", "depth = 2\nwindow"),
    ("signature = 64", "signature = 2048"),
    ("memory = 4096", "memory = 16777216"),
    ("cores", "seed = 9223372036854775807\ncores"),
    ("script = \"s.txt\"", "events = 16777216"),
    ("script = \"s.txt\"", "events = 0"),
    ("report = \"r.txt\"\n", ""),
    ("account = \"a.txt\"\n", ""),
    (
        "role = \"record\"\nmode = \"order-size\"\nlog = \"a.log\"\n",
        "role = \"plain\"\n",
    ),
    (
        "role = \"record\"\nmode = \"order-size\"",
        "role = \"replay\"",
    ),
    ("order-size", "order-only"),
    ("order-size", "picolog"),
    ("account", "version = 2\naccount"),
    (RECORDED_ROLE, "role = \"replay\"\nfrom = 0"),
    (RECORDED_ROLE, "role = \"replay\"\nto = 0"),
    (RECORDED_ROLE, "role = \"replay\"\nfrom = 16777216"),
    (RECORDED_ROLE, "role = \"replay\"\nto = 16777216"),
    (RECORDED_ROLE, "role = \"replay\"\nfrom = 3\nto = 3"),
    (RECORDED_LOG, "role = \"replay\"\nstrata = \"a.strata\""),
    (RECORDED_LOG, "role = \"replay\"\nstrata = \"a.elf\""),
    ("account", "version = 2\nepoch = 1\nkeep = 1\naccount"),
    (
        "account",
        "version = 2\nepoch = 16777216\nkeep = 64\naccount",
    ),
    ("cores", "input = \"s.txt\"\nconsole = \"c.bin\"\ncores"),
];

#[test]
fn refuses_numbers_outside_their_limits(rt: HostRuntime) -> Result<(), Fail> {
    are_refused(&rt, rt.alloc(), OUTSIDE_LIMITS)
}

const OUTSIDE_LIMITS: &[(&str, &str, u8)] = &[
    ("cores = 1", "cores = 0", 4),
    ("cores = 1", "cores = 9", 4),
    ("chunk = 100", "chunk = 15", 4),
    ("chunk = 100", "chunk = 65537", 4),
    ("buffer = 16", "buffer = 0", 4),
    ("window = 2", "window = 9", 4),
    ("window = 2", "window = -2", 4),
    ("window", "depth = 0\nwindow", 4),
    ("window", "depth = 3\nwindow", 4),
    ("window", "depth = -1\nwindow", 4),
    ("signature = 64", "signature = 32", 4),
    ("signature = 64", "signature = 96", 4),
    ("cores", "seed = -1\ncores", 4),
    ("script = \"s.txt\"", "events = 16777217", 4),
    ("memory = 4096", "memory = 4097", 4),
    ("memory = 4096", "memory = 16781312", 4),
    ("account", "version = 0\naccount", 4),
    ("account", "version = 3\naccount", 4),
    ("account", "version = -1\naccount", 4),
    (
        "role = \"record\"\nmode = \"order-size\"\nlog = \"a.log\"\n",
        "role = \"plain\"\nversion = 3\n",
        4,
    ),
    (RECORDED_ROLE, "role = \"replay\"\nfrom = -1", 4),
    (RECORDED_ROLE, "role = \"replay\"\nfrom = 16777217", 4),
    (RECORDED_ROLE, "role = \"replay\"\nto = -1", 4),
    (RECORDED_ROLE, "role = \"replay\"\nto = 16777217", 4),
    ("account", "version = 2\nepoch = 0\nkeep = 1\naccount", 4),
    (
        "account",
        "version = 2\nepoch = 16777217\nkeep = 1\naccount",
        4,
    ),
    ("account", "version = 2\nepoch = 1\nkeep = 0\naccount", 4),
    ("account", "version = 2\nepoch = 1\nkeep = 65\naccount", 4),
    (SPHERE, "", 4),
    (SPHERE, "sphere = []", 4),
];

#[test]
fn a_chunk_is_no_longer_than_a_recorded_log_can_have(rt: HostRuntime) -> Result<(), Fail> {
    let alloc = rt.alloc();
    for (chunk, role, rule) in CHUNKS {
        let text = format!(in alloc; "cores = 1\nchunk = {chunk}\n{REST}{role}")?;
        let refused = match read_plan(alloc, "p.toml", text.as_bytes()) {
            Ok(_) => 0,
            Err(PlanError::Refused(rule)) => rule,
            Err(PlanError::OutOfMemory) => 255,
        };
        assert!(rt; refused == *rule, "{chunk} {role}");
    }
    Ok(())
}

/// The keys of a plan but `cores` and `chunk`, and those of a sphere but that of its role.
const REST: &str =
    "buffer = 1\nwindow = 1\nsignature = 64\nevents = 0\n[[sphere]]\nimage = \"a.elf\"\nmemory = 4096\n";

/// A chunk, a role, and the rule that they break, or 0.
const CHUNKS: &[(u32, &str, u8)] = &[
    (4096, RECORDED, 0),
    (4097, RECORDED, 8),
    (4097, RECORDED_1, 8),
    (65536, RECORDED_1, 8),
    (65536, RECORDED_2, 0),
    (65537, RECORDED_2, 4),
    (65536, "role = \"plain\"", 0),
    (65536, "role = \"replay\"\nlog = \"a.log\"", 0),
    (65536, "role = \"replay\"\nstrata = \"a.strata\"", 0),
    (4097, RECORDED_FROM, 8),
    (4096, RECORDED_FROM, 9),
];

const RECORDED: &str = "role = \"record\"\nmode = \"picolog\"\nlog = \"a.log\"";

const RECORDED_1: &str = "role = \"record\"\nmode = \"picolog\"\nversion = 1\nlog = \"a.log\"";

const RECORDED_FROM: &str = "role = \"record\"\nmode = \"picolog\"\nlog = \"a.log\"\nfrom = 0";

const RECORDED_2: &str = "role = \"record\"\nmode = \"picolog\"\nversion = 2\nlog = \"a.log\"";
