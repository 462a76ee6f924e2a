//! The events of a schedule.

/// One action of one actor. Numbers of cores, spheres and slots are taken modulo how many there are.
#[derive(Clone, Copy, Debug, PartialEq, Eq)]
pub enum Event {
    /// The core runs one instruction: of its older chunk while that is open, else of the younger one, which may begin with it.
    Step(u8),
    /// The core's younger chunk is cut off, or the older one if there is no younger.
    Cut(u8),
    /// The core asks for the commit of its older chunk, which is closed, or for its serial step.
    Ask(u8),
    /// The first word left in the slot's flight goes to memory.
    Drain(u8),
    /// The core is told of the slot's flight.
    Deliver(u8, u8),
    /// The slot becomes free.
    Retire(u8),
    /// The core takes the sphere's thread of this number.
    Place(u8, u8, u8),
    /// The sphere's thread is interrupted with a value.
    Raise(u8, u8, u32),
    /// The sphere's outstanding DMA request is done.
    Dma(u8),
}
