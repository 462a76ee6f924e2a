//! The threads of a tail, as they are read.
ghost use Rattle.spec_log.specs.Fields.{staged};
ghost use Rattle.spec_tail.specs.Reading.{threads};
ghost use Rattle.dl_tail.specs.Answer.{Leaves};

use crate::thread::read_thread;
use dl_logfmt::LogError;
use spec_tail::TailDraft;

/// Reads as many threads as there are.
pub fn read_threads(draft: &mut TailDraft, bytes: &[u8], at: &mut usize) -> Result<(), LogError>
    ensures { Leaves (staged threads draft.old bytes.now at.old) result draft.new at.new }
{
    let count = draft.header.present;
    for _ in 0..count {
        read_next_thread(draft, bytes, at)?;
    }
    Ok(())
}

/// Reads one more.
fn read_next_thread(draft: &mut TailDraft, bytes: &[u8], at: &mut usize) -> Result<(), LogError>
    ensures { Leaves (threads.one draft.old bytes.now at.old) result draft.new at.new }
{
    let thread = read_thread(bytes, at, draft.header.base)?;
    draft.threads.push(thread)?;
    Ok(())
}
