//! A list of files in memory, seen as its entries: each name with its bytes.
ghost use Rattle.std.specs.Prelude.{◌≡◌, ◌<◌, ◌≤◌, [], ◌∷◌, ◌++◌, length, None, Some, IfOk, IfSome, IfNone, OnOk, OnErr};
ghost use Rattle.dl_files.specs.Entries.{place_of, name_at, bytes_at, with_name, contents_of, NamesStay};
ghost use Rattle.dl_files.specs.Contents.{SameBut, more};
ghost use Rattle.std.specs.FinMap.{get, insert};

use std::alloc::{AllocError, Global};
use std::marker::Model;

#[derive(Drop)]
struct File {
    name: String,
    bytes: Vec<u8>,
}

impl Model for File {
    ghost use Rattle.std.specs.String.{string_bytes};
    ghost use Rattle.dl_files.specs.Entries.{Entry};

    ghost Value = { Entry };

    ghost view = { λ file. (string_bytes file.name, file.bytes.items) };
}

impl File {
    fn new(alloc: Global, name: &str, bytes: Vec<u8>) -> Result<Self, AllocError>
        ensures { IfOk result (λ file. file ≡ (name.now, bytes.items)) }
    {
        Ok(Self {
            name: String::from_str(alloc, name)?,
            bytes,
        })
    }
}

#[derive(Drop)]
pub(crate) struct Store {
    files: Vec<File>,
}

impl Model for Store {
    ghost use Rattle.std.specs.Prelude.{List};
    ghost use Rattle.dl_files.specs.Entries.{Entry};

    ghost Value = { List Entry };

    ghost view = { λ store. store.files.items };
}

impl Store {
    pub(crate) fn new(alloc: Global) -> Self
        ensures { result ≡ [] }
    {
        Self {
            files: Vec::new(alloc),
        }
    }

    pub(crate) fn place(&self, name: &str) -> Option<usize>
        ensures place { result ≡ place_of name.now self.now }
        ensures within { IfSome result (λ place. place < length self.now) }
        ensures named { IfSome result (λ place. name_at self.now place ≡ Some name.now) }
        ensures found { IfSome result
            (λ place. get (contents_of self.now) name.now ≡ bytes_at self.now place) }
        ensures absent { IfNone result (get (contents_of self.now) name.now ≡ None) }
    {
        place_in(&self.files, name)
    }

    pub(crate) fn bytes(&self, place: usize) -> &[u8]
        requires { place < length self.now }
        ensures { bytes_at self.now place ≡ Some result.now }
    {
        let file = &self.files[place];
        file.bytes.as_slice()
    }

    // The place of the name, which is added without bytes if it is new.
    pub(crate) fn touch(&mut self, name: &str) -> Result<usize, AllocError>
        ensures ok { IfOk result (λ place. place_of name.now self.new ≡ Some place) }
        ensures named { IfOk result (λ place. name_at self.new place ≡ Some name.now) }
        ensures added { OnOk result (self.new ≡ with_name name.now self.old) }
        ensures others { OnOk result
            (SameBut name.now (Some (contents_of self.old)) (Some (contents_of self.new))) }
        ensures err { OnErr result (self.new ≡ self.old) }
    {
        match self.place(name) {
            Some(place) => Ok(place),
            None => self.add(name),
        }
    }

    fn add(&mut self, name: &str) -> Result<usize, AllocError>
        ensures ok { IfOk result (λ place. place ≡ length self.old) }
        ensures added { OnOk result (self.new ≡ self.old ++ (name.now, []) ∷ []) }
        ensures err { OnErr result (self.new ≡ self.old) }
    {
        let place = self.files.len();
        let alloc = *self.files.allocator();
        let file = File::new(alloc, name, Vec::new(alloc))?;
        self.files.push(file)?;
        Ok(place)
    }

    pub(crate) fn put(&mut self, name: &str, bytes: &[u8]) -> Result<(), AllocError>
        ensures ok { OnOk result
            (contents_of self.new ≡ insert (contents_of self.old) name.now bytes.now) }
        ensures names { NamesStay self.old self.new }
        ensures grows { length self.old ≤ length self.new }
        ensures err { OnErr result (self.new ≡ self.old) }
    {
        let alloc = *self.files.allocator();
        let bytes = Vec::from_slice(alloc, bytes)?;
        let place = self.touch(name)?;
        let file = &mut self.files[place];
        file.bytes = bytes;
        Ok(())
    }

    // A new name is added together with its bytes, so that it isn't there if there is no room for them.
    pub(crate) fn append(&mut self, name: &str, bytes: &[u8]) -> Result<(), AllocError>
        ensures ok { OnOk result
            (contents_of self.new ≡ more name.now bytes.now (contents_of self.old)) }
        ensures names { NamesStay self.old self.new }
        ensures grows { length self.old ≤ length self.new }
        ensures err { OnErr result (self.new ≡ self.old) }
    {
        match self.place(name) {
            Some(place) => self.extend(name, place, bytes),
            None => self.put(name, bytes),
        }
    }

    fn extend(&mut self, name: &str, place: usize, bytes: &[u8]) -> Result<(), AllocError>
        requires within { place < length self.old }
        requires placed { place_of name.now self.old ≡ Some place }
        ensures ok { OnOk result
            (contents_of self.new ≡ more name.now bytes.now (contents_of self.old)) }
        ensures names { NamesStay self.old self.new }
        ensures grows { length self.old ≤ length self.new }
        ensures err { OnErr result (self.new ≡ self.old) }
    {
        let file = &mut self.files[place];
        file.bytes.extend_from_slice(bytes)
    }
}

fn place_in(files: &[File], name: &str) -> Option<usize>
    ensures { result ≡ place_of name.now files.now }
{
    files.iter().position(|file| file.name.as_str() == name)
}
