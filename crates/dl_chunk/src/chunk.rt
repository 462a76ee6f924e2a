//! The chunk of one core. `new` makes room for the loads and the words of the largest chunk; no other call takes memory.
ghost use Rattle.std.specs.Prelude.{◌≡◌, ◌≤◌, ◌<◌, ◌/◌, ◌+◌, ◌^◌, true, None, IfOk};
ghost use Rattle.spec_engine.specs.Chunks.{cut, fresh, is_open, new_engine, squash, with_chunk};
ghost use Rattle.spec_engine.specs.Signatures.{is_size, nothing};

use crate::base::Base;
use crate::store::Store;
use crate::view::run_one;
use dl_fly::Flights;
use dl_kernel::counted;
use dl_mem::Memory;
use dl_sig::Sig;
use dl_thread::{Did, Load, Thread};
use dl_wbuf::Buffer;
use spec_engine::answers::{CutReply, How, Stepped};
use std::alloc::{AllocError, Global};
use std::marker::Model;

/// What a core has its chunks run on, and the chunk that it runs.
#[derive(Drop)]
pub struct Chunk<G: Sig> {
    most: u32,
    start: Thread,
    limit: u32,
    halves: bool,
    squashes: u8,
    state: Thread,
    loads: Vec<Load>,
    n: u32,
    closed: Option<How>,
    store: Store<G>,
}

impl<G: Sig> Model for Chunk<G> {
    ghost use Rattle.std.specs.Prelude.{vec_capacity};
    ghost use Rattle.std.specs.Coded.{codes};
    ghost use Rattle.spec_engine.specs.Chunks.{Engine};
    ghost use Rattle.spec_engine.specs.Signatures.{places_code};
    ghost use Rattle.dl_chunk.specs.Engines.{IsEngine, engine_of};

    ghost Value = { Engine };

    ghost coded = { Prim.hlevel (codes, places_code) };

    ghost view = { λ c. engine_of c.most
        (record { start = c.start; limit = c.limit; halves = c.halves; squashes = c.squashes })
        (record { thread = c.state; loads = c.loads.items; n = c.n; closed = c.closed }) c.store };

    ghost invariant = { λ c. IsEngine c.most (vec_capacity c.loads)
        (record { start = c.start; limit = c.limit; halves = c.halves; squashes = c.squashes })
        (record { thread = c.state; loads = c.loads.items; n = c.n; closed = c.closed }) };
}

impl<G: Sig> Chunk<G> {
    ghost use Rattle.dl_chunk.specs.Engines.{restarted, stepped, with_ran};
    ghost use Rattle.dl_chunk.specs.Pairs.{following};
    ghost use Rattle.dl_chunk.specs.Stores.{LeaveBytes};
    ghost use Rattle.spec_isa.specs.Masks.{over};
    ghost use Rattle.spec_isa.specs.Words.{Apart};
    ghost use Rattle.spec_engine.specs.Chunks.{at_limit, closes};

    /// Room for chunks of `s` instructions, from 1 to 65,536, and `c` words, from 1 to 4,096, with signatures of `bits` bits, a
    /// power of two from 64 to 2,048. Its chunk has run nothing.
    pub fn new(alloc: Global, s: u32, c: u32, bits: u32) -> Result<Chunk<G>, AllocError>
        requires some_instruction { 1 ≤ s }
        requires most_instructions { s ≤ 65536 }
        requires some_word { 1 ≤ c }
        requires most_words { c ≤ 4096 }
        requires bits { is_size bits ≡ true }
        ensures { IfOk result (λ e. e ≡ new_engine s c bits) }
    {
        let thread = Thread::started(0);
        Ok(Chunk {
            most: s,
            start: thread,
            limit: s,
            halves: false,
            squashes: 0,
            state: thread,
            loads: Vec::with_capacity(alloc, s as usize)?,
            n: 0,
            closed: None,
            store: Store::new(alloc, c, bits)?,
        })
    }

    /// Begins a chunk of a sphere's thread that may run `limit` instructions. `halves`: each fourth squash halves the limit.
    pub fn begin(&mut self, sphere: u8, thread: &Thread, limit: u32, halves: bool)
        requires least { 1 ≤ limit }
        requires most { limit ≤ self.old.most }
        ensures { let bits = self.old.chunk.reads.bits in
            self.new ≡ with_chunk (fresh bits sphere thread.now limit halves) self.old }
    {
        self.restart(sphere);
        self.start = *thread;
        self.state = *thread;
        self.limit = limit;
        self.halves = halves;
        self.squashes = 0;
    }

    // Begins the chunk that follows an older one of its thread, from the state that the older one's commit will leave.
    pub(crate) fn follow(&mut self, older: &Chunk<G>, limit: u32)
        requires least { 1 ≤ limit }
        requires most { limit ≤ self.old.most }
        requires bits { older.now.chunk.reads.bits ≡ self.old.chunk.reads.bits }
        requires commits { older.now.chunk.done.thread.commits + 1 < 2 ^ 32 }
        ensures { self.new ≡ with_chunk (following limit older.now.chunk) self.old }
    {
        let sphere = older.sphere();
        self.begin(sphere, &counted(older.state()), limit, older.halves);
    }

    /// Runs one instruction on the memory beside the flights, unless a flight that the core was told of holds it up or the
    /// chunk closes before it.
    pub fn step(&mut self, mem: &Memory, flights: &Flights<G>, core: u8) -> Stepped
        requires { self.old.chunk.closed ≡ None }
        ensures reply { result ≡ (stepped mem.now flights.now.slots core self.old).reply }
        ensures chunk { let s = stepped mem.now flights.now.slots core self.old in
            self.new ≡ with_chunk s.chunk self.old }
    {
        self.step_over(mem, flights, core)
    }

    // Runs one instruction on the base, as `step` does on the memory.
    pub(crate) fn step_over<B: Base>(&mut self, base: &B, flights: &Flights<G>, core: u8) -> Stepped
        requires { self.old.chunk.closed ≡ None }
        ensures reply { result ≡ (stepped (B.bytes base.now) flights.now.slots core self.old).reply }
        ensures chunk { let s = stepped (B.bytes base.now) flights.now.slots core self.old in
            self.new ≡ with_chunk s.chunk self.old }
    {
        match run_one(&mut self.state, &mut self.store, base, flights, core) {
            Did::Next(load) => self.ran(load),
            Did::Serial(_) => self.close(How::Serial),
            Did::NoRoom => self.close(How::Overflow),
            Did::Bounced(flight) => Stepped::Bounced(flight),
        }
    }

    /// Closes the chunk, if it is open and has run an instruction.
    pub fn cut(&mut self) -> CutReply
        ensures reply { result ≡ (cut self.old.chunk).reply }
        ensures chunk { self.new ≡ with_chunk (cut self.old.chunk).chunk self.old }
    {
        if self.closed.is_some() {
            return CutReply::Waiting;
        }
        if self.n == 0 {
            return CutReply::NothingRun;
        }
        self.closed = Some(How::Cut);
        CutReply::Closed
    }

    /// Puts the chunk back to where it began.
    pub fn squash(&mut self)
        ensures { self.new ≡ with_chunk (squash self.old.chunk) self.old }
    {
        let sphere = self.store.sphere();
        self.restart(sphere);
        if !self.halves {
            self.squashes = 0;
        } else if self.squashes < 3 {
            self.squashes += 1;
        } else {
            self.squashes = 0;
            self.limit = (self.limit / 2).max(1);
        }
    }

    /// The thread as it was where the chunk began.
    pub fn start(&self) -> &Thread
        ensures { result.now ≡ self.now.chunk.start }
    {
        &self.start
    }

    /// The thread as the chunk has it.
    pub fn state(&self) -> &Thread
        ensures { result.now ≡ self.now.chunk.done.thread }
    {
        &self.state
    }

    /// The loads, in order.
    pub fn loads(&self) -> &[Load]
        ensures { result.now ≡ self.now.chunk.done.loads }
    {
        &self.loads
    }

    /// The words stored.
    pub fn words(&self) -> &Buffer
        ensures words { result.now.words ≡ self.now.chunk.done.words }
        ensures capacity { result.now.capacity ≡ self.now.capacity }
    {
        self.store.words()
    }

    /// How many instructions were run.
    pub fn n(&self) -> u32
        ensures value { result ≡ self.now.chunk.done.n }
        ensures within { self.now.chunk.closed ≡ None → result < self.now.chunk.limit }
    {
        self.n
    }

    /// The sphere that the chunk is of.
    pub fn sphere(&self) -> u8
        ensures { result ≡ self.now.chunk.sphere }
    {
        self.store.sphere()
    }

    /// How the chunk was closed, if it was.
    pub fn closed(&self) -> Option<How>
        ensures { result ≡ self.now.chunk.closed }
    {
        self.closed
    }

    // Whether it is not closed.
    pub(crate) fn is_open(&self) -> bool
        ensures { result ≡ is_open self.now.chunk }
    {
        self.closed.is_none()
    }

    /// How many instructions the chunk may run, at least 1.
    pub fn limit(&self) -> u32
        ensures value { result ≡ self.now.chunk.limit }
        ensures least { 1 ≤ result }
        ensures most { result ≤ self.now.most }
    {
        self.limit
    }

    /// The lines read.
    pub fn reads(&self) -> &G
        ensures { G.marks result.now ≡ self.now.chunk.reads }
    {
        self.store.reads()
    }

    /// The lines stored to.
    pub fn writes(&self) -> &G
        ensures { G.marks result.now ≡ self.now.chunk.writes }
    {
        self.store.writes()
    }

    /// Gives up the lines stored to, for a signature of no line in their place.
    pub fn hand_over(&mut self, writes: G) -> G
        requires { G.marks writes ≡ nothing self.old.chunk.reads.bits }
        ensures given { G.marks result ≡ self.old.chunk.writes }
        ensures chunk { let bits = self.old.chunk.reads.bits in
            self.new ≡ with_chunk (record self.old.chunk { writes = nothing bits }) self.old }
    {
        self.store.hand_over(writes)
    }

    // The word at an address as it is seen through the words stored, `below` being what lies below.
    #[inline(always)]
    pub(crate) fn over(&self, addr: u32, below: u32) -> u32
        ensures value { result ≡ over self.now.chunk.done.words (addr / 4) below }
        ensures apart { Apart self.now.chunk.done.words }
        ensures bytes { LeaveBytes self.now.chunk.done.words }
    {
        self.store.over(addr, below)
    }

    // Begins at the start again.
    fn restart(&mut self, sphere: u8)
        ensures { self.new ≡ with_chunk (restarted sphere self.old.chunk) self.old }
    {
        self.state = self.start;
        self.loads.clear();
        self.n = 0;
        self.closed = None;
        self.store.empty(sphere);
    }

    fn close(&mut self, how: How) -> Stepped
        ensures reply { result ≡ (closes how self.old.chunk).reply }
        ensures chunk { self.new ≡ with_chunk (closes how self.old.chunk).chunk self.old }
    {
        self.closed = Some(how);
        Stepped::Closed(how)
    }

    // An instruction was run, which loaded this.
    #[tactic(auto, unfolding(spec_engine::specs::Chunks::at_limit, spec_engine::specs::Choices::choose))]
    fn ran(&mut self, load: Option<Load>) -> Stepped
        requires { self.old.chunk.closed ≡ None }
        ensures reply { result ≡ (at_limit (with_ran self.old.chunk load)).reply }
        ensures chunk { self.new ≡ with_chunk (at_limit (with_ran self.old.chunk load)).chunk self.old }
    {
        if let Some(load) = load {
            self.loads.push_reserved(load);
        }
        self.n += 1;
        if self.n == self.limit {
            self.closed = Some(How::Limit);
            return Stepped::Closed(How::Limit);
        }
        Stepped::Ran
    }
}
