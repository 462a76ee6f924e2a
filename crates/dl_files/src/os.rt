//! The system that the program runs on. It tells nothing, and no clause says that a call here is the one that is named:
//! this file is trusted, line by line.
ghost use Rattle.std.specs.Fs.{asks_append, asks_create, asks_truncate};
ghost use Rattle.std.specs.Prelude.{◌≡◌, true, false};

use crate::{Output, System};
use std::fs::OpenOptions;
use std::io::{Read, Seek, SeekFrom, Write};
use std::{fs, io, rt};

/// What `R` reaches: its files as a system, and its standard output.
#[derive(Drop)]
pub struct Os<R> {
    rt: R,
}

impl<R> Os<R> {
    pub(crate) fn new(rt: R) -> Self {
        Self { rt }
    }
}

impl<R: rt::Files> System for Os<R> {
    type Reader = R::File;

    type Writer = R::File;

    ghost use Rattle.std.specs.Prelude.{[], None};

    ghost told = { λ _. None };

    ghost whole = { λ _. None };

    ghost left = { λ _. None };

    ghost target = { λ _. [] };

    fn is_file(&self, name: &str) -> bool {
        fs::metadata(&self.rt, name).is_ok_and(|found| found.is_file())
    }

    fn open(&mut self, name: &str) -> io::Result<R::File> {
        fs::open(&self.rt, name)
    }

    fn seek(&mut self, file: &mut R::File, offset: u64) -> io::Result<()> {
        file.seek(SeekFrom::Start(offset))?;
        Ok(())
    }

    fn read(&mut self, file: &mut R::File, into: &mut [u8]) -> io::Result<usize> {
        file.read(into)
    }

    fn create(&mut self, name: &str) -> io::Result<R::File> {
        fs::create(&self.rt, name)
    }

    fn add(&mut self, name: &str) -> io::Result<R::File> {
        added_to().open(&self.rt, name)
    }

    fn write(&mut self, file: &mut R::File, bytes: &[u8]) -> io::Result<usize> {
        file.write(bytes)
    }
}

impl<R: Print> Output for Os<R> {
    ghost use Rattle.std.specs.Prelude.{None};

    ghost holds = { λ _. None };

    ghost refusals = { λ _. 0 };

    fn write(&mut self, bytes: &[u8]) -> io::Result<usize> {
        io::writer(&self.rt).write(bytes)
    }
}

// A file that is added to, and made if it isn't there.
fn added_to() -> OpenOptions
    ensures append { asks_append result ≡ true }
    ensures create { asks_create result ≡ true }
    ensures truncate { asks_truncate result ≡ false }
{
    let mut options = OpenOptions::new();
    options.append(true).create(true);
    options
}
