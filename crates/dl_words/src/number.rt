//! Numbers as words write them: decimal digits, without a sign and without a zero in front of others.
ghost use Rattle.std.specs.Prelude.{◌≡◌, ◌≤◌, ◌^◌, IfSome, true};
ghost use Rattle.std.specs.Char.{is_ascii_digit};
ghost use Rattle.std.specs.List.{list_all};
ghost use Rattle.dl_words.specs.Numbers.{number_of, memory_of, address_of, up_to, place_of, every_of, is_plain, is_size};

/// The number that a word writes, where it is at most 2^32 - 1.
pub fn read_number(word: &str) -> Option<u32>
    ensures { result ≡ number_of word.now }
{
    if !is_plain(word.as_bytes()) {
        return None;
    }
    word.parse::<u32>().ok()
}

/// The size of a memory that a word writes, in bytes: from one to 4,096 pages of 4,096 bytes.
pub fn read_memory(word: &str) -> Option<u32>
    ensures value { result ≡ memory_of word.now }
    ensures size { IfSome result (λ size. is_size size ≡ true) }
{
    let size = read_number(word)?;
    if size < 4096 || size > 16_777_216 || size % 4096 != 0 {
        return None;
    }
    Some(size)
}

/// The address of a word of a memory of that size: a multiple of 4 below it.
pub fn read_address(memory: u32, word: &str) -> Option<u32>
    ensures { result ≡ address_of memory word.now }
{
    let address = read_number(word)?;
    if address >= memory || address % 4 != 0 {
        return None;
    }
    Some(address)
}

/// The number that a word writes, where it is at most `most`.
pub fn read_up_to(most: u32, word: &str) -> Option<u32>
    ensures value { result ≡ up_to most word.now }
    ensures within { IfSome result (λ number. number ≤ most) }
{
    let number = read_number(word)?;
    if number > most {
        return None;
    }
    Some(number)
}

/// A place among the commits of a log: at most 2^24.
pub fn read_place(word: &str) -> Option<u32>
    ensures value { result ≡ place_of word.now }
    ensures within { IfSome result (λ place. place ≤ 2 ^ 24) }
{
    read_up_to(16_777_216, word)
}

/// How many commits lie between two states that are kept: 1 to 2^24.
pub fn read_every(word: &str) -> Option<u32>
    ensures value { result ≡ every_of word.now }
    ensures within { IfSome result (λ every. (1 ≤ every) × (every ≤ 2 ^ 24)) }
{
    let every = read_place(word)?;
    if every < 1 {
        return None;
    }
    Some(every)
}

fn is_plain(word: &[u8]) -> bool
    ensures { result ≡ is_plain word.now }
{
    match word {
        [] => false,
        [digit] => digit.is_ascii_digit(),
        [first, ..] => *first != b'0' && are_digits(word),
    }
}

fn are_digits(word: &[u8]) -> bool
    ensures { result ≡ list_all is_ascii_digit word.now }
{
    word.iter().all(|digit| digit.is_ascii_digit())
}
