//! Running: the machine takes the schedule to its end, and what it comes to is put into texts.
ghost use Rattle.std.specs.Prelude.{◌≡◌, ◌<◌, List, Ok, IfOk, length, map};
ghost use Rattle.dl_machine.specs.Setups.{IsWithin, setup_in};
ghost use Rattle.dl_plan.specs.declared.Product.{Product};
ghost use Rattle.dl_plan.specs.Values.{plan_view};
ghost use Rattle.dl_plan.specs.Views.{output_view};
ghost use Rattle.dl_run.specs.Ran.{IsOver};
ghost use Rattle.dl_run.specs.Schedules.{AreFew, events_in};
ghost use Rattle.spec_protocol.specs.declared.event.Event.{Event};
ghost use Rattle.spec_program.specs.Accepted.{IsReadAgain};
ghost use Rattle.spec_program.specs.Runs.{is_log, product_for};
ghost use Rattle.spec_program.specs.Writes.{filled};
ghost use Rattle.dl_commands.specs.Jobs.{IsRunOf, bytes_in, is_in_pieces, write_of, writes_of};
ghost use Rattle.dl_commands.specs.Products.{IsProduct, AreProducts, AreReadOf};
ghost use Rattle.spec_tail.specs.Bytes.{tail_bytes};
ghost use Rattle.spec_tail.specs.Reading.{read_of};

use crate::job::Job;
use crate::writing::{Content, NamedContent};
use dl_entry::OutOfMemory;
use dl_machine::Setup;
use dl_plan::{Output, Plan, Product, outputs_of};
use dl_run::{Run, Schedule, SphereLog};
use dl_tail::{Tail, write_tail};
use std::alloc::Global;

/// The run of a plan's machine over the schedule, which has at most 2^24 events.
pub fn run(
    alloc: Global,
    plan: &Plan,
    setup: Setup,
    schedule: &Schedule,
) -> Result<Job, OutOfMemory>
    requires setup { IsWithin setup }
    requires few { AreFew (events_in schedule.now) }
    requires spheres { length setup.spheres ≡ length (plan_view plan.now).spheres }
    ensures { IfOk result (IsRunOf (plan_view plan.now) (setup_in setup) (events_in schedule.now)) }
{
    let run = Run::new(alloc, setup, schedule)?;
    job_of(alloc, plan, &run)
}

// What a run that is over comes to.
fn job_of(alloc: Global, plan: &Plan, run: &Run) -> Result<Job, OutOfMemory>
    requires { length run.now.setup.spheres ≡ length (plan_view plan.now).spheres }
    ensures { IfOk result (λ job. (es : List Event) → IsOver es run.now
        → IsRunOf (plan_view plan.now) run.now.setup es job) }
{
    let outputs = outputs_of(alloc, plan)?;
    let writes = writes_to(alloc, &outputs, run)?;
    let text = run.summary(alloc)?;
    Ok(Job {
        writes,
        text,
        diverged: run.diverged(),
    })
}

// Each of these files, with what the run makes for it.
fn writes_to(
    alloc: Global,
    outputs: &[Output<'_>],
    run: &Run,
) -> Result<Vec<NamedContent>, OutOfMemory>
    requires { AreProducts (length run.now.setup.spheres) (map output_view outputs.now) }
    ensures writes { IfOk result (λ writes. (es : List Event) → IsOver es run.now
        → writes_of writes.items ≡ map (filled (product_for run.now.setup es) (is_log run.now.setup)) (map output_view outputs.now)) }
    ensures tails { IfOk result (λ writes. (es : List Event) → IsOver es run.now
        → AreReadOf run.now.setup es (map output_view outputs.now)) }
{
    let mut writes = Vec::new(alloc);
    for output in outputs {
        let write = write_to(alloc, output, run)?;
        match writes.push(write) {
            Ok(()) => {}
            Err(_) => return Err(OutOfMemory),
        }
    }
    Ok(writes)
}

fn write_to(alloc: Global, output: &Output<'_>, run: &Run) -> Result<NamedContent, OutOfMemory>
    requires { IsProduct (length run.now.setup.spheres) output.now.product }
    ensures write { IfOk result (λ write. (es : List Event) → IsOver es run.now
        → write_of write ≡ filled (product_for run.now.setup es) (is_log run.now.setup) (output_view output.now)) }
    ensures tail { IfOk result (λ write. (es : List Event) → IsOver es run.now
        → IsReadAgain run.now.setup es output.now.product) }
{
    let content = product_of(alloc, output.product, run)?;
    Ok(NamedContent {
        name: String::from_str(alloc, output.name)?,
        content,
    })
}

fn product_of(alloc: Global, product: Product, run: &Run) -> Result<Content, OutOfMemory>
    requires { IsProduct (length run.now.setup.spheres) product }
    ensures bytes { IfOk result (λ content. (es : List Event) → IsOver es run.now
        → bytes_in content ≡ product_for run.now.setup es product) }
    ensures tail { IfOk result (λ content. (es : List Event) → IsOver es run.now
        → IsReadAgain run.now.setup es product) }
    ensures in_pieces { IfOk result (λ content. is_in_pieces content ≡ is_log run.now.setup product) }
{
    match product {
        Product::Log(sphere) => log_of(alloc, sphere, run),
        Product::Account(sphere) => Ok(Content::Bytes(run.account(alloc, sphere)?)),
        Product::Console => Ok(Content::Bytes(run.console(alloc)?)),
        Product::Report => Ok(Content::Bytes(run.report(alloc)?)),
    }
}

// A log is written in pieces, and a tail at once.
fn log_of(alloc: Global, sphere: usize, run: &Run) -> Result<Content, OutOfMemory>
    requires { sphere < length run.now.setup.spheres }
    ensures bytes { IfOk result (λ content. (es : List Event) → IsOver es run.now
        → bytes_in content ≡ product_for run.now.setup es (Product.Log sphere)) }
    ensures tail { IfOk result (λ content. (es : List Event) → IsOver es run.now
        → IsReadAgain run.now.setup es (Product.Log sphere)) }
    ensures in_pieces { IfOk result (λ content. is_in_pieces content ≡ is_log run.now.setup (Product.Log sphere)) }
{
    match run.log(alloc, sphere)? {
        SphereLog::None => Ok(Content::Bytes(Vec::new(alloc))),
        SphereLog::Whole(log) => Ok(Content::Log(log)),
        SphereLog::Tail(tail) => Ok(Content::Bytes(bytes_of(alloc, &tail)?)),
    }
}

// The bytes of a tail, which are read as that tail again.
fn bytes_of(alloc: Global, tail: &Tail) -> Result<Vec<u8>, OutOfMemory>
    ensures bytes { IfOk result (λ bytes. bytes.items ≡ tail_bytes tail.now) }
    ensures again { IfOk result (λ bytes. read_of bytes.items ≡ Ok tail.now) }
{
    let _ = tail.parts();
    write_tail(alloc, tail)
}
