//! The fixed bytes of a unit.
ghost use Rattle.std.specs.Prelude.{◌≡◌, ◌+◌, ◌≤◌, [], ◌++◌, length};
ghost use Rattle.spec_log.specs.Bytes.{u8 as one, u16 as two, u32 as four};

use std::marker::Model;

/// At most 16 bytes, seen as the list of them.
#[derive(Drop)]
pub struct Fixed {
    bytes: [u8; 16],
    len: usize,
}

impl Model for Fixed {
    ghost use Rattle.std.specs.Prelude.{ℕ, ◌≤◌, List, take};

    ghost Value = { List ℕ };

    ghost view = { λ fixed. take fixed.len fixed.bytes };

    ghost invariant = { λ fixed. fixed.len ≤ 16 };
}

impl Fixed {
    pub fn new() -> Fixed
        ensures { result ≡ [] }
    {
        Fixed {
            bytes: [0; 16],
            len: 0,
        }
    }

    pub fn as_slice(&self) -> &[u8]
        ensures { result.now ≡ self.now }
    {
        &self.bytes[..self.len]
    }

    pub fn put(&mut self, field: &[u8])
        requires { length self.old + length field.now ≤ 16 }
        ensures { self.new ≡ self.old ++ field.now }
    {
        let end = self.len + field.len();
        self.bytes[self.len..end].copy_from_slice(field);
        self.len = end;
    }

    pub fn put_u8(&mut self, number: u8)
        requires { length self.old + 1 ≤ 16 }
        ensures bytes { self.new ≡ self.old ++ one number }
        ensures len { length self.new ≡ length self.old + 1 }
    {
        self.put(&number.to_le_bytes());
    }

    pub fn put_u16(&mut self, number: u16)
        requires { length self.old + 2 ≤ 16 }
        ensures bytes { self.new ≡ self.old ++ two number }
        ensures len { length self.new ≡ length self.old + 2 }
    {
        self.put(&number.to_le_bytes());
    }

    pub fn put_u32(&mut self, number: u32)
        requires { length self.old + 4 ≤ 16 }
        ensures bytes { self.new ≡ self.old ++ four number }
        ensures len { length self.new ≡ length self.old + 4 }
    {
        self.put(&number.to_le_bytes());
    }
}
