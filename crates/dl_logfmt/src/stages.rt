//! What each stage of a log reads.
ghost use Rattle.std.specs.Prelude.{◌≢◌, IfErr};
ghost use Rattle.dl_logfmt.specs.Answer.{Answers, Makes};
ghost use Rattle.dl_logfmt.specs.Parsing.{Grew, stage_at};
ghost use Rattle.spec_log.specs.Reading.{one_size, size_count};

use crate::error::LogError;
use crate::fields::{
    mode_of, read_chunk_size, read_code, read_count, read_magic, read_sized, read_version,
};
use crate::numbers::read_u32;
use crate::order::read_named;
use crate::section::read_next;
use crate::source::Source;
use crate::stage_name::StageName;
use crate::version::{order_len, read_actors, read_threads};
use spec_log::{Draft, ModeName};

/// How many times the stage is read.
pub fn read_times(
    stage: StageName,
    draft: &Draft,
    bytes: &[u8],
    at: &mut usize,
) -> Result<u32, LogError>
    ensures value { Answers ((stage_at stage).times draft.now bytes.now at.old) result at.new }
    ensures no_memory { IfErr result (λ e. e ≢ LogError.OutOfMemory) }
{
    match stage {
        StageName::Order => {
            let named = read_named(bytes, at, draft.mode, draft.count)?;
            Ok(order_len(draft.shape.version, named))
        }
        StageName::Sizes => read_size_count(draft.mode, draft.count, bytes, at),
        StageName::Interrupts | StageName::Inputs | StageName::Dmas => read_u32(bytes, at),
        _ => Ok(1),
    }
}

/// The number of sizes: that of the commits where each commit has one.
fn read_size_count(
    mode: ModeName,
    count: u32,
    bytes: &[u8],
    at: &mut usize,
) -> Result<u32, LogError>
    ensures value { Answers (size_count mode count bytes.now at.old) result at.new }
    ensures no_memory { IfErr result (λ e. e ≢ LogError.OutOfMemory) }
{
    match mode {
        ModeName::OrderSize => read_sized(bytes, at, count),
        ModeName::OrderOnly | ModeName::Picolog => read_u32(bytes, at),
    }
}

/// Reads the stage once.
pub fn read_once(
    stage: StageName,
    draft: &mut Draft,
    source: &Source<'_>,
    at: &mut usize,
) -> Result<(), LogError>
    ensures made { Makes ((stage_at stage).one draft.old source.now.bytes.now at.old) result draft.old draft.new at.new }
    ensures grown { Grew draft.old draft.new }
{
    let bytes = source.bytes;
    match stage {
        StageName::Magic => {
            read_magic(bytes, at)?;
        }
        StageName::Version => draft.shape.version = read_version(bytes, at)?,
        StageName::Mode => draft.mode = mode_of(read_code(bytes, at)?),
        StageName::Threads => draft.shape.threads = read_threads(bytes, at, draft.shape.version)?,
        StageName::ChunkSize => draft.shape.s = read_chunk_size(bytes, at, draft.shape.version)?,
        StageName::Count => draft.count = read_count(bytes, at)?,
        StageName::Order => read_actors(&mut draft.order, bytes, at, draft.shape, draft.count)?,
        StageName::Sizes => read_size(draft, source, at)?,
        StageName::Interrupts => read_next(&mut draft.interrupts, source, at, draft.shape)?,
        StageName::Inputs => read_next(&mut draft.inputs, source, at, draft.shape)?,
        StageName::Dmas => read_next(&mut draft.dmas, source, at, draft.shape)?,
        StageName::End => {}
    }
    Ok(())
}

/// Reads a size: of the next commit in order-size, else of the next short chunk.
fn read_size(draft: &mut Draft, source: &Source<'_>, at: &mut usize) -> Result<(), LogError>
    ensures made { Makes (one_size draft.old.mode draft.old source.now.bytes.now at.old) result draft.old draft.new at.new }
    ensures grown { Grew draft.old draft.new }
{
    match draft.mode {
        ModeName::OrderSize => read_next(&mut draft.each, source, at, draft.shape),
        ModeName::OrderOnly | ModeName::Picolog => read_next(
            &mut draft.short,
            source,
            at,
            draft.shape,
        ),
    }
}
