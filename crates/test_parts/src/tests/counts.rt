//! Counts of replies by their names.
use dl_entry::{Counts, ReplyName};

const NOTED: &[ReplyName] = &[ReplyName::Ran, ReplyName::Diverged, ReplyName::Ran];

// A name, and how often it was noted.
const COUNTED: &[(ReplyName, u64)] = &[
    (ReplyName::Ran, 2),
    (ReplyName::Diverged, 1),
    (ReplyName::NoDma, 0),
];

#[test]
fn each_name_is_counted_apart(rt: HostRuntime) {
    let mut counts = Counts::new();
    for name in NOTED {
        counts = counted_once(counts, *name);
    }
    assert!(rt; counts.events == 3);
    for (name, count) in COUNTED {
        assert!(rt; counts.of(*name) == *count);
    }
}

fn counted_once(mut counts: Counts, name: ReplyName) -> Counts {
    if counts.events < 10 && counts.of(name) < 10 {
        counts.note(name);
    }
    counts
}
