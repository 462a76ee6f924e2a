//! What a command is to write and to say, once it is computed.
ghost use Rattle.std.specs.Prelude.{◌≡◌, false, ◌∷◌, [], IfOk};
ghost use Rattle.spec_log.specs.Bytes.{log_bytes};
ghost use Rattle.spec_program.specs.Outcomes.{filed as filed_so, logged as logged_so, said as said_so};
ghost use Rattle.dl_commands.specs.Jobs.{bytes_in, finish_of, is_in_pieces};

use crate::writing::{Content, NamedContent};
use dl_entry::OutOfMemory;
use dl_logfmt::Log;
use std::alloc::Global;

/// The files to be written, in their order, the text for the sink, and whether a replayed log diverged.
#[derive(Drop)]
pub struct Job {
    pub writes: Vec<NamedContent>,
    pub text: Vec<u8>,
    pub diverged: bool,
}

/// A text is said, and no file is written.
pub fn said(alloc: Global, text: Vec<u8>, diverged: bool) -> Job
    ensures { finish_of result ≡ said_so text.items diverged }
{
    Job {
        writes: Vec::new(alloc),
        text,
        diverged,
    }
}

/// One file is written, and then a text said.
pub fn filed(alloc: Global, name: &str, bytes: Vec<u8>, text: Vec<u8>) -> Result<Job, OutOfMemory>
    ensures { IfOk result (λ job. finish_of job ≡ filed_so name.now bytes.items text.items) }
{
    one_file(alloc, name, Content::Bytes(bytes), text)
}

/// One log is written, and then a text said.
pub fn logged(alloc: Global, name: &str, log: Log, text: Vec<u8>) -> Result<Job, OutOfMemory>
    ensures { IfOk result (λ job. finish_of job ≡ logged_so name.now (log_bytes log) text.items) }
{
    one_file(alloc, name, Content::Log(log), text)
}

fn one_file(alloc: Global, name: &str, content: Content, text: Vec<u8>) -> Result<Job, OutOfMemory>
    ensures { IfOk result (λ job. finish_of job ≡ record {
      diverged = false;
      writes = (record { name = name.now; bytes = bytes_in content; in_pieces = is_in_pieces content }) ∷ [];
      text = text.items;
    }) }
{
    let mut writes = Vec::new(alloc);
    let name = String::from_str(alloc, name)?;
    match writes.push(NamedContent { name, content }) {
        Ok(()) => {}
        Err(_) => return Err(OutOfMemory),
    }
    Ok(Job {
        writes,
        text,
        diverged: false,
    })
}
