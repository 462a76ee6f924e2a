//! Scripts with their events or their first wrong line, and events drawn from a seed.
use dl_event::{Event, Events, ScriptError, Seeded, parse_script};
use spec_protocol::Event::*;
use std::alloc::{AllocError, Global};
use std::test::Fail;

#[test]
fn a_script_is_its_events(rt: HostRuntime) -> Result<(), Fail> {
    for (text, events) in SCRIPTS {
        let read = parse_script(rt.alloc(), text.as_bytes())?;
        let read = listed(rt.alloc(), &read)?;
        assert!(rt; read.as_slice() == *events, "at {text}");
    }
    Ok(())
}

// Each event as often as it comes.
fn listed(alloc: Global, events: &Events) -> Result<Vec<Event>, AllocError> {
    let mut list = Vec::new(alloc);
    for repeated in events.repeated() {
        for _ in 0..repeated.times {
            list.push(repeated.event)?;
        }
    }
    Ok(list)
}

#[test]
fn the_first_wrong_line_is_named(rt: HostRuntime) {
    for (text, line) in WRONG {
        let read = parse_script(rt.alloc(), text.as_bytes());
        assert!(rt;
            read.err() == Some(ScriptError::Refused(*line)),
            "at {text}"
        );
    }
}

// A script and its events.
const SCRIPTS: &[(&str, &[Event])] = &[
    ("", &[]),
    ("   ", &[]),
    ("#\tcut\r\n#", &[]),
    ("  step   0  ", &[Step(0)]),
    ("step 0\nask 0\n", &[Step(0), Ask(0)]),
    ("\n  step   7 \n\n# step x\nask 255", &[Step(7), Ask(255)]),
    (
        "step 0\nstep 0\nstep 0\nstep 1\n step 1\nstep 0",
        &[Step(0), Step(0), Step(0), Step(1), Step(1), Step(0)],
    ),
    (
        "drain 1\ndrain 1\ndrain 2\ndeliver 0 1\ndeliver 0 1\n",
        &[Drain(1), Drain(1), Drain(2), Deliver(0, 1), Deliver(0, 1)],
    ),
    ("step 0000000255\n", &[Step(255)]),
    ("ask 0000000000", &[Ask(0)]),
    (
        "cut 1\ndrain 2\nretire 3\ndma 4",
        &[Cut(1), Drain(2), Retire(3), Dma(4)],
    ),
    ("deliver 0 255", &[Deliver(0, 255)]),
    (" deliver  1   2 ", &[Deliver(1, 2)]),
    (
        "place 1 2 3\nplace 255 255 255\n",
        &[Place(1, 2, 3), Place(255, 255, 255)],
    ),
    ("raise 1 2 4294967295", &[Raise(1, 2, 4_294_967_295)]),
    ("raise 0000000000 0000000000 0000000000", &[Raise(0, 0, 0)]),
];

// A script and its first wrong line.
const WRONG: &[(&str, u64)] = &[
    ("step 256", 1),
    ("step 4294967296", 1),
    ("step 00000000000", 1),
    ("step", 1),
    ("step 0 0", 1),
    ("step x", 1),
    ("step +1", 1),
    ("step -1", 1),
    ("step\t0", 1),
    ("\t", 1),
    (" # x", 1),
    ("step 0 #", 1),
    ("Step 0", 1),
    ("step0", 1),
    ("steps 0", 1),
    ("halt 0", 1),
    ("step 0\r\nstep 0\r\n", 1),
    ("deliver 0", 1),
    ("deliver 0 256", 1),
    ("deliver 256 0", 1),
    ("deliver 0 0 0", 1),
    ("retire 0 0", 1),
    ("place 0 0", 1),
    ("place 0 0 256", 1),
    ("place 0 256 0", 1),
    ("place 0 0 0 0", 1),
    ("raise 0 0 4294967296", 1),
    ("raise 256 0 0", 1),
    ("raise 0 256 0", 1),
    ("raise 0 0", 1),
    ("raise 0 0 00000000000", 1),
    ("raise 0 0 0 0", 1),
    ("dma", 1),
    ("step 0\nask 1\nstep", 3),
    ("# a\n\n0 step\n", 3),
    ("step 0\n\nask 0\nask\n256\n", 4),
];

#[test]
fn a_schedule_begins_with_the_events_of_its_seed(rt: HostRuntime) {
    let mut schedule = Seeded::new(3);
    for (index, event) in FROM_SEED_3.iter().enumerate() {
        assert!(rt; schedule.next() == *event, "at {index}");
    }
}

#[test]
fn a_seed_has_64_bits(rt: HostRuntime) {
    let mut schedule = Seeded::new(u64::MAX);
    for event in [Step(1), Step(2)] {
        assert!(rt; schedule.next() == event);
    }
}

// These are the events of an independent model.
const FROM_SEED_3: &[Event] = &[
    Ask(6),
    Step(3),
    Step(7),
    Drain(6),
    Step(7),
    Step(0),
    Ask(4),
    Step(6),
    Ask(0),
    Step(4),
    Step(0),
    Step(3),
    Step(7),
    Step(3),
    Step(6),
    Drain(3),
    Step(4),
    Ask(4),
    Step(3),
    Place(0, 6, 1),
    Ask(5),
    Raise(2, 11, 738),
    Dma(1),
    Drain(4),
    Step(4),
    Retire(0),
    Step(6),
    Step(2),
    Cut(3),
    Step(7),
    Step(6),
    Deliver(3, 6),
];
