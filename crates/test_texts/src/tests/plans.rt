//! A plan whose text is changed, and what it is then read as. If it breaks two rules, it is refused by the first.
use dl_plan::{Plan, PlanError, read_plan};
use std::alloc::Global;
use std::process::Abort;
use std::test::Fail;

/// A plan that is accepted under the name `p.toml`.
pub(super) const PLAN: &str = "cores = 1\n\
      chunk = 100\n\
      buffer = 16\n\
      window = 2\n\
      signature = 64\n\
      script = \"s.txt\"\n\
      report = \"r.txt\"\n\
      [[sphere]]\n\
      image = \"a.elf\"\n\
      memory = 4096\n\
      role = \"record\"\n\
      mode = \"order-size\"\n\
      log = \"a.log\"\n\
      account = \"a.txt\"\n";

/// Its sphere.
pub(super) const SPHERE: &str =
    "[[sphere]]\nimage = \"a.elf\"\nmemory = 4096\nrole = \"record\"\nmode = \"order-size\"\nlog = \"a.log\"\naccount = \"a.txt\"\n";

/// Its sphere's role and mode.
pub(super) const RECORDED_ROLE: &str = "role = \"record\"\nmode = \"order-size\"";

/// These and its log.
pub(super) const RECORDED_LOG: &str = "role = \"record\"\nmode = \"order-size\"\nlog = \"a.log\"";

/// What the plan is read as once its first `from` is `to`.
pub(super) fn changed(
    alloc: Global,
    from: &str,
    to: &str,
) -> Result<Result<Plan, PlanError>, Fail> {
    let (before, after) = PLAN.split_once(from).ok_or("nothing to change")?;
    let text = format!(in alloc; "{before}{to}{after}")?;
    Ok(read_plan(alloc, "p.toml", text.as_bytes()))
}

// Whether the plan is refused after each change, by the rule of that number.
pub(super) fn are_refused(
    rt: &impl Abort,
    alloc: Global,
    changes: &[(&str, &str, u8)],
) -> Result<(), Fail> {
    for (from, to, rule) in changes {
        let refused = changed(alloc, from, to)?.err();
        assert!(rt; refused == Some(PlanError::Refused(*rule)), "{to}");
    }
    Ok(())
}

#[test]
fn refuses_by_the_first_of_two_rules(rt: HostRuntime) -> Result<(), Fail> {
    are_refused(&rt, rt.alloc(), TWO_RULES)
}

const TWO_RULES: &[(&str, &str, u8)] = &[
    ("account = \"a.txt\"\n", "account = \"\"\nmore = 1\n", 2),
    ("cores = 1", "cores = 9\nchunks = 1", 2),
    ("cores = 1", "cores = 9\ndepth = true", 3),
    ("cores = 1", "cores = \"9\"\nevents = -1", 3),
    ("cores = 1", "cores = 9\nevents = 1", 4),
    (
        "script = \"s.txt\"\nreport = \"r.txt\"",
        "report = \"a.elf\"",
        5,
    ),
    (
        "mode = \"order-size\"\nlog = \"a.log\"\n",
        "log = \"\"\n",
        6,
    ),
    (
        "role = \"record\"\nmode = \"order-size\"",
        "role = \"replay\"\nversion = 3",
        4,
    ),
    (
        "chunk = 100\nbuffer = 16\nwindow = 2\nsignature = 64\nscript = \"s.txt\"\nreport = \"r.txt\"",
        "chunk = 5000\nbuffer = 16\nwindow = 2\nsignature = 64\nscript = \"s.txt\"\nreport = \"a.log\"",
        7,
    ),
    ("account", "from = -1\naccount", 4),
    ("\"record\"", "\"plain\"\nto = 4", 6),
    (
        "log = \"a.log\"\naccount = \"a.txt\"\n",
        "log = \"a.log\"\naccount = \"a.log\"\nfrom = 0\n",
        7,
    ),
    (
        RECORDED_ROLE,
        "role = \"replay\"\nmode = \"order-size\"\nfrom = 3\nto = 2",
        6,
    ),
    (
        RECORDED_ROLE,
        "role = \"replay\"\nstrata = \"a.strata\"\nfrom = 0",
        6,
    ),
    (
        RECORDED_LOG,
        "role = \"replay\"\nstrata = \"\"\nfrom = 0",
        7,
    ),
    (
        RECORDED_LOG,
        "role = \"replay\"\nstrata = \"a.strata\"\nto = 4\nepoch = 8",
        9,
    ),
    (
        "report = \"r.txt\"\n",
        "[[sphere]]\nimage = \"b.elf\"\nmemory = 4096\nrole = \"plain\"\nfrom = 16777217\n",
        4,
    ),
];

#[test]
fn refuses_what_no_change_makes(rt: HostRuntime) -> Result<(), Fail> {
    let mut spheres = String::new(rt.alloc());
    for _ in 0..9 {
        spheres.push_str(SPHERE)?;
    }
    let nine = changed(rt.alloc(), SPHERE, spheres.as_str())?.err();
    assert!(rt; nine == Some(PlanError::Refused(4)));
    let latin = read_plan(rt.alloc(), "p.toml", b"cores = 1 # \xFF").err();
    assert!(rt; latin == Some(PlanError::Refused(1)));
    Ok(())
}
