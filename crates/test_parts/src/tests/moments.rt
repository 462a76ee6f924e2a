//! Values that are put out of their order, put again, and set.
use dl_entry::OutOfMemory;
use dl_moments::{Mark, Moments};
use std::alloc::Global;
use std::test::Fail;

// A thread, an index and a value that is put there.
const PUT: &[(u8, u32, u32)] = &[(3, 9, 1), (0, 2, 2), (3, 4, 3), (62, 0, 4), (3, 9, 5)];

// A thread, an index, and the value that is there then.
const STANDS: &[(u8, u32, Option<u32>)] = &[
    (3, 9, Some(5)),
    (3, 4, Some(3)),
    (0, 2, Some(2)),
    (62, 0, Some(6)),
    (62, 1, None),
    (61, 0, None),
    (63, 0, None),
];

const LANE: &[Mark<u32>] = &[Mark { index: 4, value: 3 }, Mark { index: 9, value: 5 }];

#[test]
fn values_stand_by_thread_and_index_however_they_came(rt: HostRuntime) -> Result<(), Fail> {
    let mut moments = put(rt.alloc())?;
    moments.set(62, 0, 6);
    moments.set(62, 1, 7);
    for (thread, index, value) in STANDS {
        assert!(rt; moments.at(*thread, *index) == *value, "{thread} {index}");
    }
    assert!(rt; moments.lane(3) == LANE);
    Ok(())
}

fn put(alloc: Global) -> Result<Moments<u32>, OutOfMemory> {
    let mut moments = Moments::new(alloc)?;
    moments.reserve()?;
    for (thread, index, value) in PUT {
        moments.put((*thread).min(62), *index, *value)?;
    }
    Ok(moments)
}
