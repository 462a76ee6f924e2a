//! The words that one instruction looks at.
ghost use Rattle.std.specs.Prelude.{◌≡◌, ℕ, ◌||◌, OnOk};
ghost use Rattle.dl_serial.specs.Looks.{has, is_looked, is_word, noted, nothing_looked};

use dl_entry::OutOfMemory;

/// The numbers of the words that an instruction looked at, the first one first: the word that it was fetched from, and one
/// that it loaded.
#[derive(Clone, Copy)]
pub struct Looked {
    first: Option<u32>,
    second: Option<u32>,
}

impl Looked {
    /// Of an instruction that isn't run yet.
    pub fn nothing() -> Looked
        ensures { result ≡ nothing_looked }
    {
        Looked {
            first: None,
            second: None,
        }
    }

    /// Notes one word more.
    pub fn note(&mut self, number: u32)
        ensures { self.new ≡ noted self.old number }
    {
        if self.first.is_none() {
            self.first = Some(number);
        } else {
            self.second = Some(number);
        }
    }

    /// Puts the words after others.
    pub fn put_after(self, words: &mut Vec<u32>) -> Result<(), OutOfMemory>
        ensures { (a : ℕ) → OnOk result (has words.new.items a ≡ (has words.old.items a || is_looked self a)) }
    {
        put_if(words, self.first)?;
        put_if(words, self.second)
    }
}

// Puts a word after others, if there is one.
fn put_if(words: &mut Vec<u32>, word: Option<u32>) -> Result<(), OutOfMemory>
    ensures { (a : ℕ) → OnOk result (has words.new.items a ≡ (has words.old.items a || is_word word a)) }
{
    if let Some(number) = word {
        words.push(number)?;
    }
    Ok(())
}
