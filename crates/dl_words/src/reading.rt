//! From the words to the command that they mean.
ghost use Rattle.std.specs.Prelude.{◌≡◌, IfOk};
ghost use Rattle.std.specs.Option.{option_and_then, option_map};
ghost use Rattle.clap.specs.Walk.{texts};
ghost use Rattle.clap.specs.Words.{found_of, rows_of, subcommand_rows_of};
ghost use Rattle.dl_words.specs.Commands.{command_of, command_view, playback_view, named as named_by, playback_of, query_of};
ghost use Rattle.dl_words.specs.Commands.{query_view, run_of, inspect_of, walk_of, interval_of, tail_of, make_of};
ghost use Rattle.dl_words.specs.Commands.{asm_of, drill_of, migrate_of, strata_of, watch_of, when_of, who_of};

use crate::command::Command;
use crate::interval::Interval;
use crate::matching::{find_matches, operand};
use crate::number::{read_address, read_every, read_memory, read_number, read_place, read_up_to};
use crate::playback::Playback;
use crate::query::{Query, Question};
use clap::ArgMatches;
use dl_entry::OutOfMemory;
use std::alloc::Global;

/// The command that the words mean, with its operands, or none where they mean none. The words are those after the program's
/// name. Err only if memory runs out.
pub fn read_words<'a>(
    alloc: Global,
    words: &'a [&'a str],
) -> Result<Option<Command<'a>>, OutOfMemory>
    ensures { IfOk result (λ command. option_map command_view command ≡ command_of (texts words.now)) }
{
    match find_matches(alloc, words)? {
        Some(found) => Ok(read_found(&found)),
        None => Ok(None),
    }
}

fn read_found<'a>(found: &ArgMatches<'a>) -> Option<Command<'a>>
    ensures { option_map command_view result
        ≡ option_and_then (λ f. named_by f.0 f.1) (subcommand_rows_of found.now) }
{
    let (name, operands) = found.subcommand()?;
    named(name, operands)
}

fn named<'a>(name: &str, operands: &ArgMatches<'a>) -> Option<Command<'a>>
    ensures { option_map command_view result ≡ named_by name.now (rows_of (found_of operands.now)) }
{
    match name {
        "run" => run(operands),
        "inspect" => inspect(operands),
        "walk" => walk(operands),
        "interval" => interval(operands),
        "tail" => tail(operands),
        "watch" => watch(operands),
        "who" => who(operands),
        "when" => when(operands),
        "make" => make(operands),
        "drill" => drill(operands),
        "asm" => asm(operands),
        "migrate" => migrate(operands),
        "strata" => strata(operands),
        _ => None,
    }
}

fn run<'a>(operands: &ArgMatches<'a>) -> Option<Command<'a>>
    ensures { option_map command_view result ≡ run_of (rows_of (found_of operands.now)) }
{
    let plan = operand(operands, "PLAN")?;
    Some(Command::Run { plan })
}

fn inspect<'a>(operands: &ArgMatches<'a>) -> Option<Command<'a>>
    ensures { option_map command_view result ≡ inspect_of (rows_of (found_of operands.now)) }
{
    let log = operand(operands, "LOG")?;
    Some(Command::Inspect { log })
}

fn walk<'a>(operands: &ArgMatches<'a>) -> Option<Command<'a>>
    ensures { option_map command_view result ≡ walk_of (rows_of (found_of operands.now)) }
{
    let playback = playback(operands)?;
    Some(Command::Walk(playback))
}

fn interval<'a>(operands: &ArgMatches<'a>) -> Option<Command<'a>>
    ensures { option_map command_view result ≡ interval_of (rows_of (found_of operands.now)) }
{
    let playback = playback(operands)?;
    let every = read_every(operand(operands, "EVERY")?)?;
    let to = read_place(operand(operands, "J")?)?;
    let from = read_up_to(to, operand(operands, "I")?)?;
    Some(Command::Interval(Interval {
        playback,
        every,
        from,
        to,
    }))
}

fn tail<'a>(operands: &ArgMatches<'a>) -> Option<Command<'a>>
    ensures { option_map command_view result ≡ tail_of (rows_of (found_of operands.now)) }
{
    let name = operand(operands, "NAME")?;
    Some(Command::Tail { name })
}

fn watch<'a>(operands: &ArgMatches<'a>) -> Option<Command<'a>>
    ensures { option_map command_view result ≡ watch_of (rows_of (found_of operands.now)) }
{
    let query = query(operands, Question::Watch)?;
    Some(Command::Query(query))
}

fn who<'a>(operands: &ArgMatches<'a>) -> Option<Command<'a>>
    ensures { option_map command_view result ≡ who_of (rows_of (found_of operands.now)) }
{
    let before = read_place(operand(operands, "I")?)?;
    let query = query(operands, Question::Who { before })?;
    Some(Command::Query(query))
}

fn when<'a>(operands: &ArgMatches<'a>) -> Option<Command<'a>>
    ensures { option_map command_view result ≡ when_of (rows_of (found_of operands.now)) }
{
    let value = read_number(operand(operands, "VALUE")?)?;
    let query = query(operands, Question::When { value })?;
    Some(Command::Query(query))
}

fn make<'a>(operands: &ArgMatches<'a>) -> Option<Command<'a>>
    ensures { option_map command_view result ≡ make_of (rows_of (found_of operands.now)) }
{
    let number = read_number(operand(operands, "NUMBER")?)?;
    let name = operand(operands, "NAME")?;
    Some(Command::Make { number, name })
}

fn drill<'a>(operands: &ArgMatches<'a>) -> Option<Command<'a>>
    ensures { option_map command_view result ≡ drill_of (rows_of (found_of operands.now)) }
{
    let number = read_number(operand(operands, "NUMBER")?)?;
    Some(Command::Drill { number })
}

fn asm<'a>(operands: &ArgMatches<'a>) -> Option<Command<'a>>
    ensures { option_map command_view result ≡ asm_of (rows_of (found_of operands.now)) }
{
    let source = operand(operands, "SOURCE")?;
    let name = operand(operands, "NAME")?;
    Some(Command::Asm { source, name })
}

fn migrate<'a>(operands: &ArgMatches<'a>) -> Option<Command<'a>>
    ensures { option_map command_view result ≡ migrate_of (rows_of (found_of operands.now)) }
{
    let log = operand(operands, "LOG")?;
    let name = operand(operands, "NAME")?;
    Some(Command::Migrate { log, name })
}

fn strata<'a>(operands: &ArgMatches<'a>) -> Option<Command<'a>>
    ensures { option_map command_view result ≡ strata_of (rows_of (found_of operands.now)) }
{
    let playback = playback(operands)?;
    let name = operand(operands, "NAME")?;
    Some(Command::Strata { playback, name })
}

fn query<'a>(operands: &ArgMatches<'a>, question: Question) -> Option<Query<'a>>
    ensures { option_map query_view result ≡ query_of question (rows_of (found_of operands.now)) }
{
    let playback = playback(operands)?;
    let address = read_address(playback.memory, operand(operands, "ADDR")?)?;
    Some(Query {
        playback,
        address,
        question,
    })
}

fn playback<'a>(operands: &ArgMatches<'a>) -> Option<Playback<'a>>
    ensures { option_map playback_view result ≡ playback_of (rows_of (found_of operands.now)) }
{
    let image = operand(operands, "IMAGE")?;
    let memory = read_memory(operand(operands, "MEMORY")?)?;
    let log = operand(operands, "LOG")?;
    Some(Playback { image, memory, log })
}
