//! What `clap` finds in the words.
ghost use Rattle.std.specs.Prelude.{◌≡◌, IfOk};
ghost use Rattle.std.specs.Option.{option_and_then, option_map};
ghost use Rattle.clap.specs.Walk.{texts};
ghost use Rattle.clap.specs.Words.{first_of, found_of, rows_of, subcommand_rows_of};
ghost use Rattle.dl_words.specs.Commands.{found_in};

use crate::apps::command_line;
use clap::ArgMatches;
use clap::error::ErrorKind;
use dl_entry::OutOfMemory;
use std::alloc::Global;

/// What `clap` finds in the words, or none where it finds a fault.
pub fn find_matches<'a>(
    alloc: Global,
    words: &'a [&'a str],
) -> Result<Option<ArgMatches<'a>>, OutOfMemory>
    ensures { IfOk result (λ found. option_and_then subcommand_rows_of found ≡ found_in (texts words.now)) }
{
    let command = command_line(alloc)?;
    match command.try_get_matches_from(words) {
        Ok(found) => Ok(Some(found)),
        Err(error) if error.kind() == ErrorKind::OutOfMemory => Err(OutOfMemory),
        Err(_) => Ok(None),
    }
}

/// What was found for an operand.
pub fn operand<'a>(found: &ArgMatches<'a>, name: &str) -> Option<&'a str>
    ensures { option_map (λ word. word.now) result ≡ first_of name.now (rows_of (found_of found.now)) }
{
    found.get_str(name)
}
