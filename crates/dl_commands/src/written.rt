//! Writing the files of a command, in their order.
ghost use Rattle.std.specs.Prelude.{OnOk, IfErr};
ghost use Rattle.dl_files.specs.Contents.{with_file};
ghost use Rattle.dl_files.specs.Seen.{FailsOnce, IsWritten};
ghost use Rattle.dl_commands.specs.Jobs.{bytes_in, writes_of};
ghost use Rattle.dl_commands.specs.Stops.{AreWritten, ContentStops, Stopped};

use crate::writing::{Content, NamedContent, Stop};
use dl_files::{FileError, Files};
use dl_logio::write_log_file;

/// Writes each file whole, and nothing after one that fails.
pub fn write_all<F: Files>(files: &mut F, writes: &[NamedContent]) -> Result<(), Stop>
    ensures written { OnOk result (AreWritten (writes_of writes.now) (F.seen files.old) (F.seen files.new)) }
    ensures stop { IfErr result (Stopped (writes_of writes.now) (F.seen files.old) (F.seen files.new)) }
    ensures once { FailsOnce (F.seen files.old) (F.seen files.new) }
{
    for (i, write) in writes.iter().enumerate() {
        match write_content(files, write.name.as_str(), &write.content) {
            Ok(()) => {}
            Err(FileError::Failed) => return Err(Stop::Failed(i)),
            Err(FileError::OutOfMemory) => return Err(Stop::OutOfMemory),
            Err(FileError::Absent) => unreachable!(),
        }
    }
    Ok(())
}

// Writes one file.
fn write_content<F: Files>(files: &mut F, name: &str, content: &Content) -> Result<(), FileError>
    ensures written { OnOk result (IsWritten (with_file name.now (bytes_in content.now) (F.seen files.old).known)
        (F.seen files.old) (F.seen files.new)) }
    ensures err { IfErr result (ContentStops content.now name.now (F.seen files.old) (F.seen files.new)) }
{
    match content {
        Content::Bytes(bytes) => files.write(name, bytes),
        Content::Log(log) => write_log_file(files, name, log),
    }
}
