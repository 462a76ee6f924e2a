//! One pipe.
ghost use Rattle.std.specs.Prelude.{◌≡◌, ◌-◌, [], ◌++◌, length, take, drop, min, IfOk};
ghost use Rattle.spec_kernel.specs.Numbers.{pipe_size};

use circular_buffer::HeapCircularBuffer;
use spec_kernel::numbers::PIPE_SIZE;
use std::alloc::{AllocError, Global};
use std::marker::Model;

// Bytes on their way, the next one to be read first.
#[derive(Drop)]
pub(crate) struct Pipe {
    ring: HeapCircularBuffer<u8>,
}

impl Model for Pipe {
    ghost use Rattle.std.specs.Prelude.{◌≡◌, ℕ, List};
    ghost use Rattle.spec_kernel.specs.Numbers.{pipe_size};

    ghost Value = { List ℕ };

    ghost view = { λ p. p.ring.items };

    ghost invariant = { λ p. p.ring.capacity ≡ pipe_size };
}

impl Pipe {
    pub(crate) fn new(alloc: Global) -> Result<Pipe, AllocError>
        ensures { IfOk result (λ pipe. pipe ≡ []) }
    {
        Ok(Pipe {
            ring: HeapCircularBuffer::with_capacity(alloc, PIPE_SIZE)?,
        })
    }

    // Appends as many of the bytes as there is room for, and gives their number.
    pub(crate) fn put(&mut self, bytes: &[u8]) -> u32
        ensures count { result ≡ length (take (pipe_size - length self.old) bytes.now) }
        ensures bytes { self.new ≡ self.old ++ take (pipe_size - length self.old) bytes.now }
    {
        self.ring.fill_from_slice(bytes) as u32
    }

    // Moves its first bytes into a buffer, as many as that holds, and gives their number.
    pub(crate) fn get(&mut self, into: &mut [u8]) -> u32
        ensures count { result ≡ length (take (length into.old) self.old) }
        ensures bytes { into.new ≡ take (length into.old) self.old ++ drop result into.old }
        ensures left { self.new ≡ drop (length into.old) self.old }
    {
        let _ = self.ring.len();
        self.ring.read_into(into) as u32
    }

    // Copies its first bytes into a buffer, as many as that holds, and gives their number.
    pub(crate) fn first(&self, into: &mut [u8]) -> u32
        ensures count { result ≡ min (length into.old) (length self.now) }
        ensures bytes { into.new ≡ take result self.now ++ drop result into.old }
    {
        let _ = self.ring.len();
        let (front, back) = self.ring.as_slices();
        let from_front = front.len().min(into.len());
        let from_back = back.len().min(into.len() - from_front);
        let count = from_front + from_back;
        into[..from_front].copy_from_slice(&front[..from_front]);
        into[from_front..count].copy_from_slice(&back[..from_back]);
        count as u32
    }
}
