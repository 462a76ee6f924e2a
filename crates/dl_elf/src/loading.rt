//! Loading a file.
ghost use Rattle.std.specs.Prelude.{◌≡◌, ◌+◌, ◌-◌, ◌<◌, ℕ, true, false, if◌then◌else◌, IfOk, MatchResult, length, replicate, slice_index};
ghost use Rattle.std.specs.List.{list_all};
ghost use Rattle.dl_elf.specs.Images.{IsSize};
ghost use Rattle.dl_elf.specs.Rules.{is_in_file, is_in_memory, overlap as do_overlap, is_entry as is_entry_in, broken_by_segments};
ghost use Rattle.dl_elf.specs.Fields.{byte};
ghost use Rattle.dl_elf.specs.Segments.{fills};
ghost use Rattle.dl_elf.specs.Loading.{memory_of, image_of};
ghost use Rattle.dl_elf.specs.Causes.{IsCause};

use crate::header::read_header;
use crate::image::{ElfError, Image};
use crate::overlapping::overlap;
use crate::segment::{Segment, loaded_segments};
use std::alloc::{AllocError, Global};

/// The image in a file, for a memory of `size` bytes. `Refused` has the number of the first rule that the file breaks.
pub fn load(alloc: Global, bytes: &[u8], size: u32) -> Result<Image, ElfError>
    requires { IsSize size }
    ensures { MatchResult result
        (λ image. image_of bytes.now size ≡ Ok image)
        (IsCause (image_of bytes.now size)) }
{
    let header = match read_header(bytes) {
        Ok(header) => header,
        Err(rule) => return Err(ElfError::Refused(rule)),
    };
    let Ok(segments) = loaded_segments(alloc, bytes, header) else {
        return Err(ElfError::OutOfMemory);
    };
    match broken_rule(alloc, bytes, size, header.entry, &segments) {
        Ok(None) => {}
        Ok(Some(rule)) => return Err(ElfError::Refused(rule)),
        Err(_) => return Err(ElfError::OutOfMemory),
    }
    let Ok(memory) = memory(alloc, bytes, &segments, size) else {
        return Err(ElfError::OutOfMemory);
    };
    Ok(Image::from_parts(size, header.entry, memory))
}

// The first of the rules 9 to 13 that is broken.
fn broken_rule(
    alloc: Global,
    file: &[u8],
    size: u32,
    entry: u32,
    segments: &[Segment],
) -> Result<Option<u8>, AllocError>
    ensures { IfOk result (λ rule. rule ≡ broken_by_segments file.now size entry segments.now) }
{
    if !all_in_file(segments, file) {
        return Ok(Some(9));
    }
    if !all_in_memory(segments, size) {
        return Ok(Some(10));
    }
    if overlap(alloc, segments, size)? {
        return Ok(Some(11));
    }
    if !is_entry(size, entry) {
        return Ok(Some(12));
    }
    if segments.is_empty() {
        return Ok(Some(13));
    }
    Ok(None)
}

fn all_in_file(segments: &[Segment], file: &[u8]) -> bool
    ensures { result ≡ list_all (is_in_file file.now) segments.now }
{
    segments.iter().all(|segment| segment.is_in_file(file))
}

fn all_in_memory(segments: &[Segment], size: u32) -> bool
    ensures { result ≡ list_all (is_in_memory size) segments.now }
{
    segments.iter().all(|segment| segment.is_in_memory(size))
}

fn is_entry(size: u32, entry: u32) -> bool
    ensures { result ≡ is_entry_in size entry }
{
    entry % 4 == 0 && entry < size
}

// Zeros, except for what is filled from the file.
fn memory(
    alloc: Global,
    file: &[u8],
    segments: &[Segment],
    size: u32,
) -> Result<Vec<u8>, AllocError>
    requires file { list_all (is_in_file file.now) segments.now ≡ true }
    requires memory { list_all (is_in_memory size) segments.now ≡ true }
    requires apart { do_overlap size segments.now ≡ false }
    ensures { IfOk result (λ memory. memory.items ≡ memory_of file.now segments.now size) }
{
    let mut memory = vec![in alloc; 0; size as usize]?;
    fill_all(&mut memory, file, segments);
    Ok(memory)
}

// Copies each segment's bytes to its address.
fn fill_all(memory: &mut [u8], file: &[u8], segments: &[Segment])
    requires zeros { memory.old ≡ replicate (length memory.old) 0 }
    requires file { list_all (is_in_file file.now) segments.now ≡ true }
    requires memory { list_all (is_in_memory (length memory.old)) segments.now ≡ true }
    requires apart { do_overlap (length memory.old) segments.now ≡ false }
    ensures { memory.new ≡ memory_of file.now segments.now (length memory.old) }
{
    for segment in segments {
        fill(memory, file, *segment);
    }
}

fn fill(memory: &mut [u8], file: &[u8], segment: Segment)
    requires file { is_in_file file.now segment ≡ true }
    requires memory { is_in_memory (length memory.old) segment ≡ true }
    ensures { (address : ℕ) → address < length memory.old
        → slice_index memory.new address
        ≡ (if fills address segment then byte file.now (segment.offset + (address - segment.address)) else slice_index memory.old address) }
{
    let from = segment.offset as usize;
    let to = segment.address as usize;
    let count = segment.file_size as usize;
    memory[to..to + count].copy_from_slice(&file[from..from + count]);
}
