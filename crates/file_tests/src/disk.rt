// What a disk that refuses calls is told as.
use plan_files::{FileFault, Files, FolderFiles, Got};
use std::alloc::Allocator;
use std::cell::Cell;
use std::fs::{Metadata, OpenFile, OpenOptions};
use std::io::{ErrorKind, Read, Seek, SeekFrom, Write};
use std::{io, rt};

// How many calls are taken before one is refused, for which reason, and whether each call after it
// is refused too.
#[derive(Drop)]
struct Left {
    taken: Cell<u8>,
    reason: ErrorKind,
    lasts: bool,
}

impl Left {
    // Takes one call more, or refuses it.
    fn take(&self) -> io::Result<()> {
        let left = self.taken.get();
        if left > 0 {
            self.taken.set(left - 1);
            return Ok(());
        }
        if !self.lasts {
            self.taken.set(u8::MAX);
        }
        Err(io::Error::from(self.reason))
    }
}

// Has one regular file, which is empty.
#[derive(Drop)]
struct Disk<'a> {
    left: &'a Left,
}

// The file, once it is open.
#[derive(Drop)]
struct Held<'a> {
    left: &'a Left,
}

impl Read for Held<'_> {
    fn read(&mut self, _buf: &mut [u8]) -> io::Result<usize> {
        self.left.take()?;
        Ok(0)
    }
}

impl Write for Held<'_> {
    fn write(&mut self, buf: &[u8]) -> io::Result<usize> {
        self.left.take()?;
        Ok(buf.len())
    }

    fn flush(&mut self) -> io::Result<()> {
        self.left.take()
    }
}

impl Seek for Held<'_> {
    fn seek(&mut self, _pos: SeekFrom) -> io::Result<u64> {
        Err(io::Error::from(ErrorKind::Unsupported))
    }
}

impl OpenFile for Held<'_> {
    fn metadata(&self) -> io::Result<Metadata> {
        self.left.take()?;
        Ok(Metadata::of_file(0))
    }

    fn set_len(&self, _size: u64) -> io::Result<()> {
        self.left.take()
    }

    fn sync_all(&self) -> io::Result<()> {
        Err(io::Error::from(ErrorKind::Unsupported))
    }

    fn sync_data(&self) -> io::Result<()> {
        Err(io::Error::from(ErrorKind::Unsupported))
    }
}

impl<'a> rt::Files for Disk<'a> {
    type File = Held<'a>;

    type Dir = Held<'a>;

    fn open_file(&self, _how: &OpenOptions, _path: &str) -> io::Result<Held<'a>> {
        self.left.take()?;
        Ok(Held { left: self.left })
    }

    fn open_dir(&self, _path: &str) -> io::Result<Held<'a>> {
        Err(io::Error::from(ErrorKind::Unsupported))
    }

    fn metadata(&self, path: &str) -> io::Result<Metadata> {
        self.symlink_metadata(path)
    }

    fn symlink_metadata(&self, path: &str) -> io::Result<Metadata> {
        self.left.take()?;
        match path {
            "" => Err(io::Error::from(ErrorKind::NotFound)),
            "basis" => Ok(Metadata::of_dir()),
            _ => Ok(Metadata::of_file(0)),
        }
    }

    fn copy(&self, _from: &str, _to: &str) -> io::Result<u64> {
        Err(io::Error::from(ErrorKind::Unsupported))
    }

    fn rename(&self, _from: &str, _to: &str) -> io::Result<()> {
        Err(io::Error::from(ErrorKind::Unsupported))
    }

    fn remove_file(&self, _path: &str) -> io::Result<()> {
        self.left.take()
    }

    fn create_dir(&self, _path: &str) -> io::Result<()> {
        self.left.take()
    }

    fn remove_dir(&self, _path: &str) -> io::Result<()> {
        Err(io::Error::from(ErrorKind::Unsupported))
    }

    fn remove_dir_all<B: Allocator>(&self, _alloc: B, _path: &str) -> io::Result<()> {
        Err(io::Error::from(ErrorKind::Unsupported))
    }
}

// Puts over the file, after so many calls that are taken, where each further one is refused.
fn put_after(rt: &HostRuntime, taken: u8, reason: ErrorKind) -> Result<(), FileFault> {
    let left = Left {
        taken: Cell::new(taken),
        reason,
        lasts: true,
    };
    let disk = Disk { left: &left };
    let mut files = FolderFiles::here(&disk, rt.alloc());
    files.put("Report", b"done")
}

// Two looks are taken, then the file is opened and looked at, two looks tell whether it stands
// there still, and it is emptied, written and flushed.
#[test]
fn an_opened_file_fails(rt: HostRuntime) {
    let (failed, refused) = (Err(FileFault::Failed), Err(FileFault::NoMemory));
    for (first, end, reason, wanted) in [
        (0, 9, ErrorKind::StorageFull, failed),
        (0, 2, ErrorKind::OutOfMemory, refused),
        (2, 9, ErrorKind::OutOfMemory, failed),
        (9, 10, ErrorKind::OutOfMemory, Ok(())),
    ] {
        for taken in first..end {
            assert_eq!(rt; put_after(&rt, taken, reason), wanted, "{taken} {reason:?}");
        }
    }
}

// A signal interrupts one call after so many, and it is made again: each look, the opening, the
// making of a folder, a read and a removal. What a file does itself makes its own calls again.
#[test]
fn an_interrupted_call_is_made_again(rt: HostRuntime) {
    for taken in 0..14 {
        let left = Left {
            taken: Cell::new(taken),
            reason: ErrorKind::Interrupted,
            lasts: false,
        };
        let disk = Disk { left: &left };
        let mut files = FolderFiles::here(&disk, rt.alloc());
        let got = files.get(rt.alloc(), "basis/Edge.giv", 9);
        assert!(rt; matches!(got, Ok(Got::Bytes(_))), "{taken} {got:?}");
        assert_eq!(rt; files.remove("basis/Edge.giv"), Ok(()), "{taken}");
    }
    for taken in 0..9 {
        let left = Left {
            taken: Cell::new(taken),
            reason: ErrorKind::Interrupted,
            lasts: false,
        };
        let disk = Disk { left: &left };
        let mut files = FolderFiles::here(&disk, rt.alloc());
        assert_eq!(rt; files.put("basis/Edge.giv", b"1; 2"), Ok(()), "{taken}");
    }
}
