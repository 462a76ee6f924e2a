//! Names of files in a plan that are in conflict.
use super::plans::{RECORDED_LOG, SPHERE, are_refused};
use std::test::Fail;

#[test]
fn refuses_names_in_conflict(rt: HostRuntime) -> Result<(), Fail> {
    are_refused(&rt, rt.alloc(), CONFLICTS)
}

const CONFLICTS: &[(&str, &str, u8)] = &[
    ("\"s.txt\"", "\"\"", 7),
    ("\"r.txt\"", "\"\"", 7),
    ("\"a.elf\"", "\"\"", 7),
    ("\"a.log\"", "\"\"", 7),
    ("\"a.txt\"", "\"\"", 7),
    ("\"a.log\"", "\"a.txt\"", 7),
    ("cores", "console = \"r.txt\"\ncores", 7),
    ("\"a.txt\"", "\"r.txt\"", 7),
    ("\"r.txt\"", "\"s.txt\"", 7),
    ("\"a.log\"", "\"p.toml\"", 7),
    ("\"a.txt\"", "\"a.elf\"", 7),
    ("cores", "input = \"a.txt\"\ncores", 7),
    (RECORDED_LOG, "role = \"replay\"\nstrata = \"\"", 7),
    (RECORDED_LOG, "role = \"replay\"\nstrata = \"a.txt\"", 7),
    (RECORDED_LOG, "role = \"replay\"\nstrata = \"r.txt\"", 7),
    (
        SPHERE,
        "[[sphere]]\n\
          image = \"a.elf\"\n\
          memory = 4096\n\
          role = \"record\"\n\
          mode = \"order-size\"\n\
          log = \"a.log\"\n\
          account = \"a.txt\"\n\
          [[sphere]]\n\
          image = \"b.elf\"\n\
          memory = 8192\n\
          role = \"replay\"\n\
          log = \"a.log\"\n",
        7,
    ),
    (
        SPHERE,
        "[[sphere]]\n\
          image = \"a.elf\"\n\
          memory = 4096\n\
          role = \"record\"\n\
          mode = \"order-size\"\n\
          log = \"a.log\"\n\
          account = \"a.txt\"\n\
          [[sphere]]\n\
          image = \"b.elf\"\n\
          memory = 8192\n\
          role = \"plain\"\n\
          account = \"a.txt\"\n",
        7,
    ),
    (
        SPHERE,
        "[[sphere]]\n\
          image = \"a.elf\"\n\
          memory = 4096\n\
          role = \"record\"\n\
          mode = \"order-size\"\n\
          log = \"a.log\"\n\
          account = \"a.txt\"\n\
          [[sphere]]\n\
          image = \"b.elf\"\n\
          memory = 8192\n\
          role = \"replay\"\n\
          strata = \"a.log\"\n",
        7,
    ),
];
