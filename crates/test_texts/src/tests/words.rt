//! Which words mean a command, and which command.
ghost use Rattle.std.specs.Prelude.{◌≤◌, ◌^◌};

use dl_words::{Command, Interval, OutOfMemory, Playback, Query, Question, read_words};
use std::alloc::Global;
use std::process::Abort;

const NONE: &[&[&str]] = &[
    &[],
    &[""],
    &["p.toml"],
    &["run"],
    &["run", "p", "q"],
    &["run", "-x"],
    &["run", "--help"],
    &["run", "--version"],
    &["--", "run", "p"],
    &["--help"],
    &["-h"],
    &["--version"],
    &["-V"],
    &["help"],
    &["help", "run"],
    &["Run", "p"],
    &["ru", "p"],
    &[" run", "p"],
    &["inspect"],
    &["walk", "a", "4096"],
    &["walk", "a", "4095", "l"],
    &["walk", "a", "16781312", "l"],
    &["walk", "a", "04096", "l"],
    &["walk", "a", "+4096", "l"],
    &["interval", "a", "4096", "l", "1", "2"],
    &["interval", "a", "4096", "l", "0", "2", "4"],
    &["interval", "a", "4096", "l", "16777217", "2", "4"],
    &["interval", "a", "4096", "l", "1", "4", "2"],
    &["interval", "a", "4096", "l", "1", "2", "16777217"],
    &["interval", "a", "4096", "l", "1", "2", "4", "6"],
    &["tail"],
    &["tail", "a", "b"],
    &["watch", "a", "4096", "l"],
    &["watch", "a", "4096", "l", "2"],
    &["watch", "a", "4096", "l", "4096"],
    &["who", "a", "4096", "l", "256"],
    &["who", "a", "4096", "l", "256", "16777217"],
    &["when", "a", "4096", "l", "256", "4294967296"],
    &["migrate", "a.log"],
    &["migrate", "a.log", "b.log", "c.log"],
    &["strata", "a", "4096", "l"],
    &["strata", "a", "4097", "l", "s"],
    &["make", "4294967296", "x"],
    &["make", "00", "x"],
    &["make", "1_0", "x"],
    &["drill", "-1"],
    &["drill", ""],
    &["drill", "99999999999999999999999"],
];

#[test]
fn words_mean_their_command_or_none(rt: HostRuntime) {
    let alloc = rt.alloc();
    mean(
        &rt,
        alloc,
        &["run", "p.toml"],
        Command::Run { plan: "p.toml" },
    );
    mean(&rt, alloc, &["run", "-"], Command::Run { plan: "-" });
    mean(
        &rt,
        alloc,
        &["run", "--", "-p"],
        Command::Run { plan: "-p" },
    );
    let log = "a.log";
    mean(
        &rt,
        alloc,
        &["inspect", "a.log", "--"],
        Command::Inspect { log },
    );
    let playback = Playback {
        image: "a.elf",
        memory: 16_777_216,
        log,
    };
    let walk = &["walk", "a.elf", "16777216", "a.log"];
    mean(&rt, alloc, walk, Command::Walk(playback));
    let interval = &["interval", "a.elf", "16777216", "a.log", "1", "0", "0"];
    mean(&rt, alloc, interval, sliced(playback, 1, 0, 0));
    let last = 16_777_216;
    let interval = &[
        "interval", "a.elf", "16777216", "a.log", "16777216", "16777216", "16777216",
    ];
    mean(&rt, alloc, interval, sliced(playback, last, last, last));
    let watch = &["watch", "a.elf", "16777216", "a.log", "16777212"];
    mean(
        &rt,
        alloc,
        watch,
        asked(playback, 16_777_212, Question::Watch),
    );
    let who = &["who", "a.elf", "16777216", "a.log", "0", "16777216"];
    let before = 16_777_216;
    mean(
        &rt,
        alloc,
        who,
        asked(playback, 0, Question::Who { before }),
    );
    let when = &["when", "a.elf", "16777216", "a.log", "4", "4294967295"];
    let value = 4_294_967_295;
    mean(
        &rt,
        alloc,
        when,
        asked(playback, 4, Question::When { value }),
    );
    let number = 4_294_967_295;
    let name = "x.elf";
    mean(
        &rt,
        alloc,
        &["make", "4294967295", "x.elf"],
        Command::Make { number, name },
    );
    mean(
        &rt,
        alloc,
        &["make", "0", ""],
        Command::Make {
            number: 0,
            name: "",
        },
    );
    mean(&rt, alloc, &["drill", "6"], Command::Drill { number: 6 });
    let source = "a.s";
    mean(
        &rt,
        alloc,
        &["asm", "a.s", "x.elf"],
        Command::Asm { source, name },
    );
    let tail = &["tail", "x.elf"];
    mean(&rt, alloc, tail, Command::Tail { name });
    let migrate = &["migrate", "a.log", "x.elf"];
    mean(&rt, alloc, migrate, Command::Migrate { log, name });
    let strata = &["strata", "a.elf", "16777216", "a.log", "x.elf"];
    mean(&rt, alloc, strata, Command::Strata { playback, name });
    for words in NONE {
        assert!(rt; read(rt.alloc(), words) == Ok(None));
    }
}

fn sliced(playback: Playback<'static>, every: u32, from: u32, to: u32) -> Command<'static>
    requires kept { (1 ≤ every) × (every ≤ 2 ^ 24) }
    requires order { from ≤ to }
{
    Command::Interval(Interval {
        playback,
        every,
        from,
        to,
    })
}

fn asked(playback: Playback<'static>, address: u32, question: Question) -> Command<'static> {
    Command::Query(Query {
        playback,
        address,
        question,
    })
}

fn mean(rt: &impl Abort, alloc: Global, words: &'static [&'static str], command: Command<'static>) {
    assert!(rt; read(alloc, words) == Ok(Some(command)));
}

fn read(
    alloc: Global,
    words: &'static [&'static str],
) -> Result<Option<Command<'static>>, OutOfMemory> {
    read_words(alloc, words)
}
