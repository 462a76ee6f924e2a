//! A log's bytes in pieces, made without memory.
ghost use Rattle.std.specs.Prelude.{◌≡◌, min, ◌++◌, length, take, drop};
ghost use Rattle.spec_log.specs.Bytes.{log_bytes, header_bytes};

use crate::fixed::Fixed;
use crate::unit::Unit;
use crate::units::Units;
use crate::version::threads_field;
use spec_log::{Log, LogParts};
use std::marker::Model;

/// A log that is being written, seen as the bytes that are left.
#[derive(Drop)]
pub struct LogWriter<'a> {
    unit: Unit<'a>,
    units: Units<'a>,
}

impl<'a> Model for LogWriter<'a> {
    ghost use Rattle.std.specs.Prelude.{ℕ, List, ◌++◌};

    ghost Value = { List ℕ };

    ghost view = { λ writer. writer.unit ++ writer.units };
}

impl<'a> LogWriter<'a> {
    pub fn new(log: &'a Log) -> LogWriter<'a>
        ensures { result ≡ log_bytes log.now }
    {
        let parts = log.parts();
        LogWriter {
            unit: header(parts),
            units: Units::new(parts),
        }
    }

    /// Fills the room from its front with the log's next bytes, and says how many.
    pub fn next(&mut self, into: &mut [u8]) -> usize
        ensures count { result ≡ min (length into.old) (length self.old) }
        ensures bytes { into.new ≡ take result self.old ++ drop result into.old }
        ensures left { self.new ≡ drop result self.old }
    {
        // A unit has at least a byte, so the turns of a call are no more than the bytes of its piece.
        let mut count = self.unit.give(into);
        while count < into.len() {
            let Some(unit) = self.units.begin() else {
                break;
            };
            self.unit = unit;
            count += self.unit.give(&mut into[count..]);
        }
        count
    }
}

fn header<'a>(parts: &LogParts) -> Unit<'a>
    ensures { result ≡ header_bytes parts.now }
{
    let mut fixed = Fixed::new();
    fixed.put(b"DLRN");
    fixed.put_u8(parts.version);
    fixed.put_u8(parts.mode.code());
    fixed.put_u16(threads_field(parts.version, parts.threads));
    fixed.put_u32(parts.s);
    fixed.put_u32(parts.count);
    Unit::new(fixed, &[])
}
