//! The program: it hands its words, the real files and the standard output to the one call `delorean`, and ends with its status.
#![tactic(auto)]

ghost use Rattle.std.specs.Prelude.{◌≡◌, ◌≢◌, ℕ, List, [], Some, true, drop, map, string_bytes, IfOk, IfErr, OnErr, IsErr};
ghost use Rattle.std.specs.IoError.{error_kind};
ghost use Rattle.std.specs.Vec.Iter.{into_iter_items};
ghost use Rattle.dl_files.specs.Contents.{Contents};
ghost use Rattle.dl_files.specs.Told.{held, seen_by};
ghost use Rattle.dl_words.specs.Commands.{CommandValues, Run, command_of};
ghost use Rattle.spec_program.specs.declared.status.Status.{Status};
ghost use Rattle.spec_program.specs.Asked.{IsDone, outcome_of, reads_of};
ghost use Rattle.spec_program.specs.Ends.{Stands, is_done};
ghost use Rattle.spec_program.specs.Headline.{Headline};
ghost use Rattle.spec_program.specs.Outside.{outside};
ghost use Rattle.dl_commands.specs.Texts.{texts};
ghost use Rattle.delorean.specs.Answers.{Answers};

use dl_commands::delorean;
use dl_files::{Output, OutputSink, RealFiles, StdSink, System, SystemFiles};
use spec_program::status::Status;
use std::alloc::{AllocError, Global};
use std::env::Args;
use std::io::ErrorKind;
use std::process::ExitCode;
use std::{env, io};

fn main(rt: HostRuntime) -> ExitCode {
    let alloc = rt.alloc();
    let mut files = RealFiles::new(&rt);
    let mut out = StdSink::new(&rt);
    let ended = run_over(alloc, env::args(&rt), &mut files, &mut out);
    ExitCode::from(status_of(ended).code())
}

// Runs the program over the files of a system and an output.
fn run_over<S: System, O: Output>(
    alloc: Global,
    args: io::Result<Args<Global>>,
    files: &mut SystemFiles<S>,
    out: &mut OutputSink<O>,
) -> io::Result<Status> {
    run(alloc, args, |words| delorean_over(alloc, words, files, out))
}

// The program's one call, over a system and an output that may tell what they hold: what it promises of files and a sink, it
// promises of these.
fn delorean_over<S: System, O: Output>(
    alloc: Global,
    words: &[&str],
    files: &mut SystemFiles<S>,
    out: &mut OutputSink<O>,
) -> Status
    ensures headline { (plan : List ℕ) (m : Contents)
        → command_of (texts words.now) ≡ Some (Run plan) → held files.old.told ≡ Some m → is_done result ≡ true
        → Headline plan m (held files.new.told) out.old.taken out.new.taken result }
    ensures done { (command : CommandValues) (m : Contents)
        → command_of (texts words.now) ≡ Some command → held files.old.told ≡ Some m → is_done result ≡ true
        → IsDone command m (held files.new.told) out.old.taken out.new.taken result }
    ensures stands { (m : Contents) → held files.old.told ≡ Some m
        → Stands (outcome_of (texts words.now) m) (reads_of (texts words.now) m) m
        (outside (seen_by files.old.told files.old.counts) out.old.taken out.old.faults)
        (outside (seen_by files.new.told files.new.counts) out.new.taken out.new.faults)
        result }
{
    delorean(alloc, words, files, out)
}

// Calls the program with the words of the process, and answers its status.
fn run<P: FnOnce(&[&str]) -> Status>(
    alloc: Global,
    args: io::Result<Args<Global>>,
    program: P,
) -> io::Result<Status>
    requires { P.IsAlwaysCallable program }
    ensures called { IfOk args (λ all. IfOk result (λ status.
        Answers P.FnOnce program (map string_bytes (drop 1 (into_iter_items all))) status)) }
    ensures no_text { IfErr args (λ e. error_kind e ≡ ErrorKind.InvalidData
        → IfOk result (λ status. Answers P.FnOnce program [] status)) }
    ensures refused { IfErr args (λ e. error_kind e ≢ ErrorKind.InvalidData → IsErr result) }
{
    let words = words_of(alloc, args)?;
    let texts = texts_of(alloc, &words)?;
    Ok(program(&texts))
}

// The status of the program; what the runtime refuses, it refuses for memory.
fn status_of(ended: io::Result<Status>) -> Status
    ensures answer { IfOk ended (λ status. result ≡ status) }
    ensures refused { OnErr ended (result ≡ Status.Memory) }
{
    match ended {
        Ok(status) => status,
        Err(_) => Status::Memory,
    }
}

// The words without the program's name; none where one of them is no text, since these mean no command either.
fn words_of(alloc: Global, args: io::Result<Args<Global>>) -> io::Result<Vec<String>>
    ensures no_text { IfErr args (λ e. error_kind e ≡ ErrorKind.InvalidData
        → IfOk result (λ words. words.items ≡ [])) }
    ensures refused { IfErr args (λ e. error_kind e ≢ ErrorKind.InvalidData → IsErr result) }
    ensures rest { IfOk args (λ all. IfOk result (λ words. words.items ≡ drop 1 (into_iter_items all))) }
{
    match args {
        Ok(args) => Ok(after_first(alloc, args)?),
        Err(error) if error.kind() == ErrorKind::InvalidData => Ok(Vec::new(alloc)),
        Err(error) => Err(error),
    }
}

// All but the first.
fn after_first(alloc: Global, mut args: Args<Global>) -> Result<Vec<String>, AllocError>
    ensures rest { IfOk result (λ words. words.items ≡ drop 1 (into_iter_items args)) }
{
    let mut words = Vec::new(alloc);
    let _ = args.next();
    for word in args {
        words.push(word)?;
    }
    Ok(words)
}

// The words as texts.
fn texts_of<'a>(alloc: Global, words: &'a [String]) -> Result<Vec<&'a str>, AllocError>
    ensures { IfOk result (λ texts. map (λ text. text.now) texts.items ≡ map string_bytes words.now) }
{
    let mut borrowed = Vec::new(alloc);
    for word in words {
        borrowed.push(word.as_str())?;
    }
    Ok(borrowed)
}
