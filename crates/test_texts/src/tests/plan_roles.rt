//! Schedules and roles that lack something or have too much, with their intervals and epochs.
use super::plans::{RECORDED_LOG, RECORDED_ROLE, are_refused};
use std::test::Fail;

#[test]
fn refuses_schedules_and_roles_that_lack_something(rt: HostRuntime) -> Result<(), Fail> {
    are_refused(&rt, rt.alloc(), LACKING)
}

const LACKING: &[(&str, &str, u8)] = &[
    ("script = \"s.txt\"\n", "", 5),
    ("cores", "events = 9\ncores", 5),
    ("mode = \"order-size\"\n", "", 6),
    ("log = \"a.log\"\n", "", 6),
    ("\"record\"", "\"replay\"", 6),
    (RECORDED_LOG, "role = \"replay\"", 6),
    ("\"record\"", "\"plain\"", 6),
    (
        "role = \"record\"\nmode = \"order-size\"",
        "role = \"plain\"",
        6,
    ),
    (RECORDED_LOG, "role = \"plain\"\nmode = \"picolog\"", 6),
    (
        "role = \"record\"\nmode = \"order-size\"\nlog = \"a.log\"\n",
        "role = \"plain\"\nversion = 1\n",
        6,
    ),
    (
        "role = \"record\"\nmode = \"order-size\"",
        "role = \"replay\"\nversion = 1",
        6,
    ),
    (RECORDED_ROLE, "role = \"replay\"\nstrata = \"a.strata\"", 6),
    ("account", "strata = \"a.strata\"\naccount", 6),
    (
        RECORDED_LOG,
        "role = \"record\"\nmode = \"order-size\"\nstrata = \"a.strata\"",
        6,
    ),
    (RECORDED_LOG, "role = \"plain\"\nstrata = \"a.strata\"", 6),
    (
        RECORDED_LOG,
        "role = \"replay\"\nmode = \"order-size\"\nstrata = \"a.strata\"",
        6,
    ),
    (
        RECORDED_LOG,
        "role = \"replay\"\nversion = 2\nstrata = \"a.strata\"",
        6,
    ),
];

#[test]
fn refuses_intervals_that_are_not_replayed_or_end_before_they_begin(
    rt: HostRuntime,
) -> Result<(), Fail> {
    are_refused(&rt, rt.alloc(), INTERVALS)
}

const INTERVALS: &[(&str, &str, u8)] = &[
    ("account", "from = 0\naccount", 9),
    ("account", "to = 16777216\naccount", 9),
    (RECORDED_LOG, "role = \"plain\"\nfrom = 0\nto = 0", 9),
    (RECORDED_ROLE, "role = \"replay\"\nfrom = 3\nto = 2", 9),
    (
        RECORDED_ROLE,
        "role = \"replay\"\nfrom = 16777216\nto = 0",
        9,
    ),
    (
        RECORDED_LOG,
        "role = \"replay\"\nstrata = \"a.strata\"\nfrom = 0",
        9,
    ),
    (
        RECORDED_LOG,
        "role = \"replay\"\nstrata = \"a.strata\"\nto = 16777216",
        9,
    ),
    (
        RECORDED_LOG,
        "role = \"replay\"\nstrata = \"a.strata\"\nfrom = 2\nto = 4",
        9,
    ),
];

#[test]
fn refuses_epochs_that_lack_something_or_are_not_recorded(rt: HostRuntime) -> Result<(), Fail> {
    are_refused(&rt, rt.alloc(), EPOCHS)
}

const EPOCHS: &[(&str, &str, u8)] = &[
    ("account", "version = 2\nepoch = 8\naccount", 10),
    ("account", "version = 2\nkeep = 2\naccount", 10),
    ("account", "epoch = 8\nkeep = 2\naccount", 10),
    ("account", "version = 1\nepoch = 8\nkeep = 2\naccount", 10),
    (RECORDED_ROLE, "role = \"replay\"\nepoch = 8\nkeep = 2", 10),
    (RECORDED_LOG, "role = \"plain\"\nepoch = 8", 10),
    (
        RECORDED_LOG,
        "role = \"replay\"\nstrata = \"a.strata\"\nepoch = 8\nkeep = 2",
        10,
    ),
];
