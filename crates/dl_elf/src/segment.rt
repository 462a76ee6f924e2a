//! The segments of a file that are loaded.
ghost use Rattle.std.specs.Prelude.{◌≡◌, ◌+◌, ◌*◌, ◌<◌, ◌≤◌, IfOk, length};
ghost use Rattle.dl_elf.specs.Fields.{table_of, count_of};
ghost use Rattle.dl_elf.specs.Segments.{segment_at, loaded_of};

use crate::header::{Header, PROGRAM_HEADER_SIZE, word};
use std::alloc::{AllocError, Global};

const LOADED: u32 = 1;

/// What loading takes from a program header: the kind of its segment, where the file has its bytes, the address at which it
/// begins in memory, how many of its bytes are filled from the file, and how many it has in memory.
#[derive(Clone, Copy)]
pub struct Segment {
    pub kind: u32,
    pub offset: u32,
    pub address: u32,
    pub file_size: u32,
    pub memory_size: u32,
}

impl Segment {
    ghost use Rattle.dl_elf.specs.Rules.{is_in_file as in_file, is_in_memory as in_memory};

    /// Whether its bytes are within the file, and are no more than it has in memory.
    pub fn is_in_file(&self, file: &[u8]) -> bool
        ensures { result ≡ in_file file.now self.now }
    {
        self.offset as usize + self.file_size as usize <= file.len()
            && self.file_size <= self.memory_size
    }

    /// Whether it is within a memory of that size.
    pub fn is_in_memory(&self, size: u32) -> bool
        ensures { result ≡ in_memory size self.now }
    {
        self.end() <= u64::from(size)
    }

    /// The address after its last.
    pub fn end(&self) -> u64
        ensures { result ≡ self.now.address + self.now.memory_size }
    {
        u64::from(self.address) + u64::from(self.memory_size)
    }
}

/// The loaded segments of a file, in the order of their program headers.
pub fn loaded_segments(
    alloc: Global,
    file: &[u8],
    header: Header,
) -> Result<Vec<Segment>, AllocError>
    requires table { header.table ≡ table_of file.now }
    requires count { header.count ≡ count_of file.now }
    requires within { header.table + 32 * header.count ≤ length file.now }
    ensures { IfOk result (λ segments. segments.items ≡ loaded_of file.now) }
{
    let mut segments = Vec::new(alloc);
    for i in 0..header.count as usize {
        let segment = program_header(file, header.table as usize + PROGRAM_HEADER_SIZE * i);
        if segment.kind == LOADED {
            segments.push(segment)?;
        }
    }
    Ok(segments)
}

fn program_header(file: &[u8], place: usize) -> Segment
    requires { place + 32 ≤ length file.now }
    ensures { result ≡ segment_at file.now place }
{
    Segment {
        kind: word(file, place),
        offset: word(file, place + 4),
        address: word(file, place + 8),
        file_size: word(file, place + 16),
        memory_size: word(file, place + 20),
    }
}
