//! Summaries of worked runs, and two that another program wrote.
use dl_account::{Counts, End, SphereLine, summary_text};
use dl_entry::Why;
use std::test::Fail;

/// The events and the spheres of a run, and its summary.
struct Row {
    events: u64,
    spheres: &'static [SphereLine],
    summary: &'static [u8],
}

#[test]
fn summaries_name_each_sphere(rt: HostRuntime) -> Result<(), Fail> {
    for row in ROWS {
        let mut counts = Counts::new();
        counts.events = row.events;
        let summary = summary_text(rt.alloc(), &counts, row.spheres)?;
        assert!(rt; summary.as_slice() == row.summary);
    }
    Ok(())
}

const ROWS: &[Row] = &[
    Row {
        events: 22,
        spheres: &[SphereLine::Plain(2), SphereLine::Record(4)],
        summary: PIPE_BETWEEN_SPHERES,
    },
    Row {
        events: 10,
        spheres: &[
            SphereLine::Plain(3),
            SphereLine::Record(10),
            SphereLine::Complete(5),
        ],
        summary: EVERY_ROLE,
    },
    Row {
        events: u64::MAX,
        spheres: &[
            SphereLine::Diverged(1, Why::NoThread),
            SphereLine::Diverged(2, Why::Short(4096, 4095)),
            SphereLine::Diverged(3, Why::NotSerial),
            SphereLine::Diverged(4, Why::Input),
            SphereLine::Diverged(5, Why::Interrupt),
            SphereLine::Diverged(6, Why::Dma),
            SphereLine::Diverged(7, Why::SizeOfSerial(7)),
            SphereLine::Diverged(8, Why::LeftOver),
        ],
        summary: EVERY_REASON,
    },
    Row {
        events: 11,
        spheres: &[
            SphereLine::Interval(2, End::At(4)),
            SphereLine::Interval(0, End::At(6)),
            SphereLine::Interval(1, End::Diverged(3, Why::Short(3, 2))),
            SphereLine::Interval(0, End::Diverged(3, Why::Short(3, 2))),
            SphereLine::Complete(6),
        ],
        summary: INTERVALS,
    },
];

const PIPE_BETWEEN_SPHERES: &[u8] = b"\
    events 22\n\
    commits 6\n\
    s 0 plain 2\n\
    s 1 record 4\n";

const EVERY_ROLE: &[u8] = b"\
    events 10\n\
    commits 18\n\
    s 0 plain 3\n\
    s 1 record 10\n\
    s 2 complete 5\n";

const EVERY_REASON: &[u8] = b"\
    events 18446744073709551615\n\
    commits 36\n\
    s 0 diverged 1 1\n\
    s 1 diverged 2 2 4096 4095\n\
    s 2 diverged 3 3\n\
    s 3 diverged 4 4\n\
    s 4 diverged 5 5\n\
    s 5 diverged 6 6\n\
    s 6 diverged 7 7 7\n\
    s 7 diverged 8 8\n";

const INTERVALS: &[u8] = b"\
    events 11\n\
    commits 9\n\
    s 0 complete 4\n\
    s 1 complete 6\n\
    s 2 diverged 3 2 3 2\n\
    s 3 diverged 3 2 3 2\n\
    s 4 complete 6\n";
