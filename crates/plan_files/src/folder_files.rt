// The files of the real folder.
ghost use Rattle.std.specs.Prelude.{◌≡◌, ◌≤◌, None, Ok, IfOk};
ghost use Rattle.plan_files.specs.Counts.{Counts, last_count};
ghost use Rattle.plan_files.specs.Folder.{has_failed};

use crate::again::uninterrupted;
use crate::faults::count_fault;
use crate::file_fault::FileFault;
use crate::place::{Place, place_of, stands_at};
use crate::read::{REPLACED, bytes_behind, has_bytes, may_have_ends, no_file, read_file};
use crate::store::{Files, Got};
use crate::trouble::{Failure, Trouble};
use plan_num::Tally;
use std::alloc::Global;
use std::fs::{OpenFile, OpenOptions};
use std::io::{ErrorKind, Write};
use std::os::unix::fs::MetadataExt;
use std::{fs, io, rt};

/// The files below the folder that the program runs in. Which files are there is not told.
///
/// A name stands for a regular file to which folders lead. Where a link or something else stands
/// under a name, or on the way to it, each call fails; so does a put over a file that has a second
/// name. Under a name that no file of the system can have, as one that is too long, there is none.
#[derive(Drop)]
pub struct FolderFiles<'a, R: rt::Files> {
    rt: &'a R,
    // for what a call needs beside its arguments
    alloc: Global,
    faults: Tally,
    failure: Option<Failure>,
}

impl<'a, R: rt::Files> FolderFiles<'a, R> {
    /// No call has failed yet.
    pub fn here(rt: &'a R, alloc: Global) -> FolderFiles<'a, R>
        ensures { result.faults ≡ 0 }
    {
        FolderFiles {
            rt,
            alloc,
            faults: Tally::new(),
            failure: None,
        }
    }

    /// The call that failed last, for a reader, where memory for its name was there.
    pub fn failure(&self) -> Option<&Failure> {
        self.failure.as_ref()
    }

    // Hands an answer on. A failure other than want of memory is counted, and noted with the name.
    fn counted<T>(&mut self, name: &str, answer: Result<T, Trouble>) -> Result<T, FileFault>
        ensures answer { IfOk result (λ got. answer ≡ Ok got) }
        ensures faults { Counts (has_failed result) self.old.faults self.new.faults }
        ensures capped { self.new.faults ≤ last_count }
    {
        // What is read is known to be a number of 64 bits.
        let _seen = self.faults.seen();
        match answer {
            Ok(got) => Ok(got),
            Err(Trouble::NoMemory) => Err(FileFault::NoMemory),
            Err(Trouble::Failed(error)) => {
                count_fault(&mut self.faults);
                self.failure = Failure::of(self.alloc, name, error);
                Err(FileFault::Failed)
            }
        }
    }
}

impl<R: rt::Files> Files for FolderFiles<'_, R> {
    ghost contents = { λ _. None };

    ghost writes = { λ _. None };

    ghost faults = { λ files. files.faults };

    fn get(&mut self, alloc: Global, name: &str, limit: u64) -> Result<Got, FileFault> {
        self.counted(name, read_file(self.rt, alloc, name, limit))
    }

    fn has_bytes(&mut self, alloc: Global, name: &str, bytes: &[u8]) -> Result<bool, FileFault> {
        self.counted(name, has_bytes(self.rt, alloc, name, bytes))
    }

    fn get_behind(
        &mut self,
        alloc: Global,
        name: &str,
        front: &[&[u8]],
    ) -> Result<Option<Vec<u8>>, FileFault> {
        self.counted(name, bytes_behind(self.rt, alloc, name, front))
    }

    fn may_have_ends(&mut self, name: &str, front: &[u8], back: &[u8]) -> Result<bool, FileFault> {
        self.counted(name, may_have_ends(self.rt, self.alloc, name, front, back))
    }

    fn put(&mut self, name: &str, bytes: &[u8]) -> Result<(), FileFault> {
        self.counted(name, write_file(self.rt, name, bytes))
    }

    fn remove(&mut self, name: &str) -> Result<(), FileFault> {
        self.counted(name, remove_file(self.rt, name))
    }
}

// Makes the name's folder where it is not there.
fn write_file<R: rt::Files>(rt: &R, name: &str, bytes: &[u8]) -> Result<(), Trouble> {
    let is_new = match place_of(rt, name)? {
        Place::Vacant => true,
        Place::Regular(_) => false,
        Place::Other => return Err(no_file()),
    };
    if let Some((folder, _)) = name.rsplit_once('/') {
        make_folder(rt, folder)?;
    }
    // From here on bytes may have changed, and no fault is want of memory.
    match replace_bytes(rt, name, is_new, bytes) {
        Ok(()) => Ok(()),
        Err(error) => Err(Trouble::Failed(error)),
    }
}

// Makes a folder, and those on the way to it. Where something is there, the opening of the file tells
// whether it is a folder.
fn make_folder<R: rt::Files>(rt: &R, folder: &str) -> io::Result<()> {
    match uninterrupted(|| fs::create_dir_all(rt, folder)) {
        Err(error) if error.kind() == ErrorKind::AlreadyExists => Ok(()),
        made => made,
    }
}

// Makes a file that was not there, and empties one that was, once what was opened is known to be the
// regular file that stands there, and to have no other name. It is opened for reading too, since a
// fifo that another program put in its place is then opened without waiting.
fn replace_bytes<R: rt::Files>(rt: &R, name: &str, is_new: bool, bytes: &[u8]) -> io::Result<()> {
    let mut how = OpenOptions::new();
    how.read(true).write(true).create_new(is_new);
    let mut file = uninterrupted(|| how.open(rt, name))?;
    let found = uninterrupted(|| file.metadata())?;
    if found.nlink() > 1 {
        return Err(io::Error::new(ErrorKind::InvalidInput, "has a second name"));
    }
    if !stands_at(rt, name, &found)? {
        return Err(io::Error::new(ErrorKind::InvalidInput, REPLACED));
    }
    file.set_len(0)?;
    file.write_all(bytes)?;
    file.flush()
}

fn remove_file<R: rt::Files>(rt: &R, name: &str) -> Result<(), Trouble> {
    match place_of(rt, name)? {
        Place::Vacant => Ok(()),
        Place::Regular(_) => Ok(uninterrupted(|| fs::remove_file(rt, name))?),
        Place::Other => Err(no_file()),
    }
}
