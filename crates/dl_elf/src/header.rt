//! The header of a file, and the rules on it.
ghost use Rattle.std.specs.Prelude.{◌≡◌, ◌+◌, ◌*◌, ◌≤◌, None, Some, MatchResult, length};
ghost use Rattle.dl_elf.specs.Fields.{half as half_at, word as word_at, entry_of, table_of, count_of};
ghost use Rattle.dl_elf.specs.Rules.{broken_by_header, is_elf as is_elf_file, has_table as has_table_in};

use byteorder::{ByteOrder, LittleEndian};

const HEADER_SIZE: usize = 52;

pub const PROGRAM_HEADER_SIZE: usize = 32;

const MAGIC: [u8; 4] = [0x7F, 0x45, 0x4C, 0x46];

/// What loading takes from a header: the address at which the first thread starts, and where the program headers begin
/// and how many there are.
#[derive(Clone, Copy)]
pub struct Header {
    pub entry: u32,
    pub table: u32,
    pub count: u16,
}

/// The header of a file, or the first of the rules 1 to 8 that it breaks.
pub fn read_header(file: &[u8]) -> Result<Header, u8>
    ensures { MatchResult result
        (λ header. (broken_by_header file.now ≡ None) × (header.entry ≡ entry_of file.now)
        × (header.table ≡ table_of file.now) × (header.count ≡ count_of file.now)
        × (header.table + 32 * header.count ≤ length file.now))
        (λ rule. broken_by_header file.now ≡ Some rule) }
{
    if file.len() < HEADER_SIZE {
        return Err(1);
    }
    if !is_elf(file) {
        return Err(2);
    }
    if file[4] != 1 {
        return Err(3);
    }
    if file[5] != 1 {
        return Err(4);
    }
    if half(file, 16) != 2 {
        return Err(5);
    }
    if half(file, 18) != 243 {
        return Err(6);
    }
    if word(file, 36) % 16 != 0 {
        return Err(7);
    }
    if !has_table(file) {
        return Err(8);
    }
    Ok(Header {
        entry: word(file, 24),
        table: word(file, 28),
        count: half(file, 44),
    })
}

fn is_elf(file: &[u8]) -> bool
    requires { 52 ≤ length file.now }
    ensures { result ≡ is_elf_file file.now }
{
    file.starts_with(&MAGIC) && file[6] == 1 && word(file, 20) == 1
}

fn has_table(file: &[u8]) -> bool
    requires { 52 ≤ length file.now }
    ensures { result ≡ has_table_in file.now }
{
    let end = word(file, 28) as usize + PROGRAM_HEADER_SIZE * half(file, 44) as usize;
    half(file, 42) as usize == PROGRAM_HEADER_SIZE && end <= file.len()
}

/// The two bytes at a place, little-endian.
pub fn half(file: &[u8], place: usize) -> u16
    requires { place + 2 ≤ length file.now }
    ensures { result ≡ half_at file.now place }
{
    LittleEndian::read_u16(&file[place..])
}

/// The four bytes at a place, little-endian.
pub fn word(file: &[u8], place: usize) -> u32
    requires { place + 4 ≤ length file.now }
    ensures { result ≡ word_at file.now place }
{
    LittleEndian::read_u32(&file[place..])
}
