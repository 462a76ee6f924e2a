//! An image and a log of it, as words name them.
ghost use Rattle.std.specs.Prelude.{◌≡◌, true};
ghost use Rattle.dl_words.specs.Numbers.{is_size};

/// The names of the two files, and the size of the memory in bytes that the log is played in.
#[derive(Clone, Copy, PartialEq, Eq)]
pub struct Playback<'a> {
    pub image: &'a str,
    pub memory: u32,
    pub log: &'a str,
    pub ghost sized: { is_size memory ≡ true },
}
