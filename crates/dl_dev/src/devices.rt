//! The devices.
ghost use Rattle.std.specs.Prelude.{◌≡◌, ◌≤◌, ◌<◌, ◌^◌, ◌++◌, length, drop, slice_get, replicate, [], IfOk, OnOk, OnErr};
ghost use Rattle.spec_kernel.specs.Devices.{HaveByteInput, devices_of, input_taken, console_put, pipe_fitting, pipe_put};
ghost use Rattle.spec_kernel.specs.Devices.{pipe_first, pipe_taken, random_bytes, random_taken};
ghost use Rattle.spec_kernel.specs.Numbers.{most_input, pipe_count};

use crate::pipe::Pipe;
use crate::random::fill;
use rand_pcg::Lcg64Xsh32;
use spec_kernel::numbers::{MOST_INPUT, PIPE_COUNT, RANDOM_STREAM};
use std::alloc::{AllocError, Global};
use std::marker::Model;

/// What is outside the spheres. `new` makes all room except the console's.
#[derive(Drop)]
pub struct Devices {
    input: Vec<u8>,
    // how many bytes of the input have been taken
    taken: usize,
    console: Vec<u8>,
    pipes: [Pipe; PIPE_COUNT],
    words: Lcg64Xsh32,
}

impl Model for Devices {
    ghost use Rattle.std.specs.Prelude.{drop};
    ghost use Rattle.spec_kernel.specs.Devices.{Devices};

    ghost Value = { Devices };

    ghost view = { λ d. record { input = drop d.taken d.input.items; console = d.console.items; pipes = d.pipes; random = d.words } };

    ghost use Rattle.dl_dev.specs.Invariant.{AreDevices};

    ghost invariant = { λ d. AreDevices d.input.items d.taken d.pipes d.words };
}

impl Devices {
    /// The devices before the first event, with the first 2^24 bytes of an input and the random bytes of a seed.
    #[tactic(auto, using(std::proofs::lemmas::List::take_min))]
    pub fn new(alloc: Global, input: &[u8], seed: u64) -> Result<Devices, AllocError>
        ensures { IfOk result (λ devices. devices ≡ devices_of input.now seed) }
    {
        let used = &input[..MOST_INPUT.min(input.len())];
        Ok(Devices {
            input: Vec::from_slice(alloc, used)?,
            taken: 0,
            console: Vec::new(alloc),
            pipes: empty_pipes(alloc)?,
            words: Lcg64Xsh32::new(seed, RANDOM_STREAM),
        })
    }

    /// The bytes of the input that haven't been taken yet.
    pub fn input(&self) -> &[u8]
        ensures value { result.now ≡ self.now.input }
        ensures few { length self.now.input ≤ 2 ^ 24 }
    {
        &self.input[self.taken..]
    }

    /// How many bytes of the input are left.
    pub fn input_left(&self) -> u32
        ensures value { result ≡ length self.now.input }
        ensures few { result ≤ most_input }
        ensures bytes { HaveByteInput self.now }
    {
        (self.input.len() - self.taken) as u32
    }

    /// Takes the next byte of the input, if one is left.
    pub fn input_byte(&mut self) -> Option<u8>
        ensures value { result ≡ slice_get self.old.input 0 }
        ensures taken { self.new ≡ input_taken 1 self.old }
    {
        let byte = self.input().first().copied();
        self.input_take(1);
        byte
    }

    /// Takes the next `n` bytes of the input, or all that are left if there are fewer.
    pub fn input_take(&mut self, n: u32)
        ensures { self.new ≡ input_taken n self.old }
    {
        self.taken += (n as usize).min(self.input.len() - self.taken);
    }

    /// Puts bytes on the console.
    pub fn console_put(&mut self, bytes: &[u8]) -> Result<(), AllocError>
        ensures ok { OnOk result (self.new ≡ console_put bytes.now self.old) }
        ensures err { OnErr result (self.new ≡ self.old) }
    {
        self.console.extend_from_slice(bytes)
    }

    /// All bytes that have been put on the console.
    pub fn console(&self) -> &[u8]
        ensures { result.now ≡ self.now.console }
    {
        &self.console
    }

    /// Appends bytes to a pipe, as many as there is room for, and gives their number. A pipe holds 256 bytes.
    pub fn pipe_put(&mut self, pipe: u8, bytes: &[u8]) -> u32
        requires { pipe < pipe_count }
        ensures count { result ≡ length (pipe_fitting self.old pipe bytes.now) }
        ensures put { self.new ≡ pipe_put self.old pipe bytes.now }
    {
        self.pipes[pipe as usize].put(bytes)
    }

    /// Moves a pipe's first bytes into a buffer, as many as that holds, and gives their number. The rest of it is kept.
    pub fn pipe_get(&mut self, pipe: u8, into: &mut [u8]) -> u32
        requires { pipe < pipe_count }
        ensures count { result ≡ length (pipe_first self.old pipe (length into.old)) }
        ensures bytes { into.new ≡ pipe_first self.old pipe (length into.old) ++ drop result into.old }
        ensures taken { self.new ≡ pipe_taken self.old pipe (length into.old) }
    {
        self.pipes[pipe as usize].get(into)
    }

    /// Copies the bytes that `pipe_get` would move, and gives their number.
    #[tactic(auto, using(std::proofs::lemmas::List::take_min))]
    pub fn pipe_first(&self, pipe: u8, into: &mut [u8]) -> u32
        requires { pipe < pipe_count }
        ensures count { result ≡ length (pipe_first self.now pipe (length into.old)) }
        ensures bytes { into.new ≡ pipe_first self.now pipe (length into.old) ++ drop result into.old }
    {
        self.pipes[pipe as usize].first(into)
    }

    /// Fills a buffer with the next random bytes.
    pub fn random(&mut self, into: &mut [u8])
        ensures bytes { into.new ≡ random_bytes (length into.old) self.old.random }
        ensures taken { self.new ≡ random_taken (length into.old) self.old }
    {
        fill(&mut self.words, into);
    }

    /// Fills a buffer with the bytes that `random` would give.
    pub fn random_first(&self, into: &mut [u8])
        ensures { into.new ≡ random_bytes (length into.old) self.now.random }
    {
        let mut words = Lcg64Xsh32::from_state(self.words.state(), RANDOM_STREAM);
        fill(&mut words, into);
    }
}

fn empty_pipes(alloc: Global) -> Result<[Pipe; PIPE_COUNT], AllocError>
    ensures { IfOk result (λ pipes. pipes ≡ replicate pipe_count []) }
{
    Ok([
        Pipe::new(alloc)?,
        Pipe::new(alloc)?,
        Pipe::new(alloc)?,
        Pipe::new(alloc)?,
        Pipe::new(alloc)?,
        Pipe::new(alloc)?,
        Pipe::new(alloc)?,
        Pipe::new(alloc)?,
    ])
}
