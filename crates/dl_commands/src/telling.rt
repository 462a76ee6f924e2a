//! Handing a text to a sink that may take it in parts.
ghost use Rattle.std.specs.Prelude.{◌≡◌, OnOk, OnErr, IsErrOf};
ghost use Rattle.dl_files.specs.Count.{Rose};
ghost use Rattle.spec_program.specs.Ends.{Took, TookAll};

use dl_files::{Sink, SinkError};

/// Puts all of the text, part after part.
pub fn put_all<O: Sink>(out: &mut O, text: &[u8]) -> Result<(), SinkError>
    ensures all { OnOk result (TookAll text.now (O.taken out.old) (O.taken out.new)) }
    ensures part { OnErr result (Took text.now (O.taken out.old) (O.taken out.new)) }
    ensures failed { IsErrOf result SinkError.Failed → Rose (O.count out.old) (O.count out.new) }
    ensures ok_steady { OnOk result (O.count out.new ≡ O.count out.old) }
    ensures memory_steady { IsErrOf result SinkError.OutOfMemory
        → O.count out.new ≡ O.count out.old }
{
    let mut done = 0;
    while done < text.len() {
        match out.put(&text[done..]) {
            Ok(n) => done += n,
            Err(error) => return Err(error),
        }
    }
    Ok(())
}
