//! The keys of plans: each of them with its values, each way to write them, and keys and values that aren't of a plan.
use super::plans::{PLAN, SPHERE, are_refused, changed};
use dl_plan::{Plan, read_plan};
use std::alloc::Global;
use std::test::Fail;

/// A plan with what the other one doesn't have.
const OTHER: &str = "cores = 8\n\
      chunk = 64\n\
      buffer = 8\n\
      window = 1\n\
      depth = 2\n\
      signature = 128\n\
      seed = 9\n\
      events = 20000\n\
      input = \"i.bin\"\n\
      console = \"c.bin\"\n\
      [[sphere]]\n\
      image = \"a.elf\"\n\
      memory = 4096\n\
      role = \"plain\"\n\
      [[sphere]]\n\
      image = \"b.elf\"\n\
      memory = 8192\n\
      role = \"record\"\n\
      mode = \"picolog\"\n\
      version = 2\n\
      log = \"b.log\"\n\
      epoch = 8\n\
      keep = 2\n\
      [[sphere]]\n\
      image = \"b.elf\"\n\
      memory = 16777216\n\
      role = \"replay\"\n\
      log = \"a.log\"\n\
      from = 2\n\
      to = 4\n\
      account = \"c.txt\"\n\
      [[sphere]]\n\
      image = \"b.elf\"\n\
      memory = 4096\n\
      role = \"replay\"\n\
      strata = \"a.strata\"\n";

#[test]
fn reads_each_key(rt: HostRuntime) -> Result<(), Fail> {
    for (text, expected) in &[(PLAN, PLAN_SHOWN), (OTHER, OTHER_SHOWN)] {
        let plan = read_plan(rt.alloc(), "p.toml", text.as_bytes())?;
        assert!(rt; shown(rt.alloc(), &plan)?.as_str() == *expected);
    }
    Ok(())
}

// A plan as it is shown for debugging.
fn shown(alloc: Global, plan: &Plan) -> Result<String, Fail> {
    Ok(format!(in alloc; "{plan:?}")?)
}

const PLAN_SHOWN: &str = concat!(
    "Plan { sizes: Sizes { cores: 1, chunk: 100, buffer: 16, window: 2, depth: 1, signature: 64, seed: 0 }, schedule: Script(\"s.txt\"), ",
    "input: None, console: None, report: Some(\"r.txt\"), spheres: [",
    "Sphere { image: \"a.elf\", memory: 4096, role: Record { mode: OrderSize, version: 1, log: \"a.log\", epochs: None }, account: Some(\"a.txt\") }",
    "] }"
);

const OTHER_SHOWN: &str = concat!(
    "Plan { sizes: Sizes { cores: 8, chunk: 64, buffer: 8, window: 1, depth: 2, signature: 128, seed: 9 }, schedule: Seeded { events: 20000 }, ",
    "input: Some(\"i.bin\"), console: Some(\"c.bin\"), report: None, spheres: [",
    "Sphere { image: \"a.elf\", memory: 4096, role: Plain, account: None }, ",
    "Sphere { image: \"b.elf\", memory: 8192, role: Record { mode: Picolog, version: 2, log: \"b.log\", epochs: Some(Epochs { size: 8, keep: 2 }) }, ",
    "account: None }, ",
    "Sphere { image: \"b.elf\", memory: 16777216, role: Replay { log: \"a.log\", from: Some(2), to: Some(4) }, account: Some(\"c.txt\") }, ",
    "Sphere { image: \"b.elf\", memory: 4096, role: InStrata { strata: \"a.strata\" }, account: None }",
    "] }"
);

#[test]
fn reads_each_spelling(rt: HostRuntime) -> Result<(), Fail> {
    for (from, to) in SPELLINGS {
        let plan = changed(rt.alloc(), from, to)??;
        assert!(rt; shown(rt.alloc(), &plan)?.as_str() == PLAN_SHOWN, "{to}");
    }
    Ok(())
}

const SPELLINGS: &[(&str, &str)] = &[
    ("cores = 1", "cores = 0x1"),
    ("cores = 1", "\"cores\" = +1"),
    ("cores = 1", "'cores'\t=\t0b1 # one"),
    ("chunk = 100", "chunk = 1_00"),
    ("chunk = 100", "chunk = 0x64"),
    ("chunk = 100", "chunk = 0b110_0100"),
    ("chunk = 100", "chunk = 0o144"),
    (
        "cores = 1\nchunk = 100\n",
        "chunk = 100\r\n\r\ncores = 1\r\n",
    ),
    ("cores = 1\n", "\u{FEFF}cores = 1\n"),
    ("buffer", "seed = 0\nbuffer"),
    ("window", "depth = 1\nwindow"),
    ("account", "version = 1\naccount"),
    ("\"s.txt\"", "'s.txt'"),
    ("\"s.txt\"", "\"\"\"s.txt\"\"\""),
    ("\"s.txt\"", "'''\ns.txt'''"),
    ("\"s.txt\"", "\"\\u0073.txt\""),
    ("\"s.txt\"", "\"\"\"s.\\\n   txt\"\"\""),
    ("[[sphere]]", "[[ \"sphere\" ]] # the only one"),
    (
        SPHERE,
        "sphere = [{ image = \"a.elf\", memory = 4096, role = \"record\", mode = \"order-size\", log = \"a.log\", account = \"a.txt\" }]",
    ),
    (
        SPHERE,
        "[[sphere]]\naccount = \"a.txt\"\nlog = \"a.log\"\nmode = 'order-size'\nrole = \"\"\"record\"\"\"\nmemory = 4_096\nimage = \"a.elf\"",
    ),
];

#[test]
fn refuses_what_is_no_document_or_has_other_keys(rt: HostRuntime) -> Result<(), Fail> {
    are_refused(&rt, rt.alloc(), NO_DOCUMENT_OR_OTHER_KEYS)
}

const NO_DOCUMENT_OR_OTHER_KEYS: &[(&str, &str, u8)] = &[
    ("cores = 1", "cores 1", 1),
    ("cores = 1", "cores = 1\ncores = 1", 1),
    ("cores = 1", "cores = 01", 1),
    ("cores = 1", "cores = 9223372036854775808", 1),
    ("cores = 1", "Cores = 1\ncores = 1", 2),
    ("cores = 1", "mode = \"order-size\"\ncores = 1", 2),
    ("account", "more", 2),
    ("account", "depth = 2\naccount", 2),
    ("cores", "version = 2\ncores", 2),
    ("cores", "from = 2\ncores", 2),
    ("cores", "strata = \"a.strata\"\ncores", 2),
    ("\"a.txt\"\n", "\"a.txt\"\ncores = 1\n", 2),
    (
        SPHERE,
        "sphere = [{ picture = \"a.elf\", memory = 4096, role = \"record\", mode = \"order-size\", log = \"a.log\", account = \"a.txt\" }]",
        2,
    ),
];

#[test]
fn refuses_missing_keys_and_other_kinds_of_values(rt: HostRuntime) -> Result<(), Fail> {
    are_refused(&rt, rt.alloc(), MISSING_KEYS_AND_OTHER_KINDS)
}

const MISSING_KEYS_AND_OTHER_KINDS: &[(&str, &str, u8)] = &[
    ("cores = 1\n", "", 3),
    ("signature = 64\n", "", 3),
    ("role = \"record\"\n", "", 3),
    ("cores = 1", "cores = \"1\"", 3),
    ("chunk = 100", "chunk = 100.0", 3),
    ("cores", "seed = \"0\"\ncores", 3),
    ("cores", "depth = \"2\"\ncores", 3),
    ("cores", "depth = 2.0\ncores", 3),
    ("cores", "events = true\ncores", 3),
    ("cores", "input = 1979-05-27\ncores", 3),
    ("account", "version = \"2\"\naccount", 3),
    ("account", "version = 2.0\naccount", 3),
    ("account", "from = \"2\"\naccount", 3),
    ("account", "to = 4.0\naccount", 3),
    ("account", "strata = 1\naccount", 3),
    ("4096", "\"4096\"", 3),
    ("\"record\"", "\"Record\"", 3),
    ("\"order-size\"", "\"order\"", 3),
    ("\"a.log\"", "1", 3),
    ("[[sphere]]", "[sphere]", 3),
    (SPHERE, "sphere = [1]", 3),
    (
        SPHERE,
        "sphere.image = \"a.elf\"\nsphere.memory = 4096\nsphere.role = \"plain\"",
        3,
    ),
    (
        SPHERE,
        "sphere = [{ image = \"a.elf\", memory = 4096, role = \"record\", mode = \"order-size\", log = \"a.log\", account = \"a.txt\" }, []]",
        3,
    ),
];
