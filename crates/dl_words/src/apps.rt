//! The command line as `clap` is told it.
ghost use Rattle.std.specs.Prelude.{◌≡◌, IfOk, false, codes, map};
ghost use Rattle.clap.specs.Words.{app_of, new_app};
ghost use Rattle.clap.specs.declared.Command.TheViews.{out-Command as fields_of};
ghost use Rattle.dl_words.specs.Apps.{command_line as line, bare, subcommand, with_subcommands, app_by, texts};

use clap::{Arg, Command};
use std::alloc::{AllocError, Global};

/// The subcommands, each with the names of its operands, in their order.
const SUBCOMMANDS: [(&str, &[&str]); 13] = [
    ("run", &["PLAN"]),
    ("inspect", &["LOG"]),
    ("walk", &["IMAGE", "MEMORY", "LOG"]),
    ("interval", &["IMAGE", "MEMORY", "LOG", "EVERY", "I", "J"]),
    ("tail", &["NAME"]),
    ("watch", &["IMAGE", "MEMORY", "LOG", "ADDR"]),
    ("who", &["IMAGE", "MEMORY", "LOG", "ADDR", "I"]),
    ("when", &["IMAGE", "MEMORY", "LOG", "ADDR", "VALUE"]),
    ("make", &["NUMBER", "NAME"]),
    ("drill", &["NUMBER"]),
    ("asm", &["SOURCE", "NAME"]),
    ("migrate", &["LOG", "NAME"]),
    ("strata", &["IMAGE", "MEMORY", "LOG", "NAME"]),
];

/// The program with its subcommands.
pub fn command_line<'a>(alloc: Global) -> Result<Command<'a>, AllocError>
    ensures { IfOk result (λ c. app_of c ≡ line) }
{
    with_subcommands(alloc, program(alloc), &SUBCOMMANDS)
}

// The program without its subcommands, of whose name there is no word.
fn program<'a>(alloc: Global) -> Command<'a>
    ensures { app_of result ≡ bare (new_app (codes "delorean")) }
{
    Command::new(alloc, "delorean")
        .no_binary_name(true)
        .subcommand_required(true)
        .disable_help_flag(true)
        .disable_help_subcommand(true)
        .disable_version_flag(true)
}

// The command with these subcommands more.
fn with_subcommands<'a>(
    alloc: Global,
    command: Command<'a>,
    subcommands: &[(&'a str, &[&'a str])],
) -> Result<Command<'a>, AllocError>
    ensures { IfOk result (λ c. app_of c ≡ with_subcommands (app_of command.entry) (map app_by subcommands.now)) }
{
    let mut command = command;
    for (name, operands) in subcommands {
        command = command.subcommand(subcommand(alloc, name, operands)?)?;
    }
    Ok(command)
}

// A subcommand with its operands, each of which has to be there.
fn subcommand<'a>(
    alloc: Global,
    name: &'a str,
    operands: &[&'a str],
) -> Result<Command<'a>, AllocError>
    ensures app { IfOk result (λ c. app_of c ≡ subcommand name.now (texts operands.now)) }
    ensures local { IfOk result (λ c. (fields_of c).has_globals ≡ false) }
{
    let mut command = Command::new(alloc, name);
    for operand in operands {
        command = command.arg(Arg::new(alloc, operand).required(true))?;
    }
    Ok(command)
}
