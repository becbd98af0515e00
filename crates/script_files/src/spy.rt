// Files and a sink in memory that note each call that is made on them. They tell nothing of what they
// hold, and their counts of faults stand at their last values, so that each call may fail.
ghost use Rattle.std.specs.Prelude.{None};
ghost use Rattle.plan_files.specs.Counts.{last_count};

use plan_files::{FileFault, Files, Got, MemoryFiles, MemorySink, Sink, SinkFault};
use plan_num::NoMemory;
use std::alloc::Global;

/// Files that note each call in a line.
#[derive(Drop)]
pub struct SpyFiles {
    pub files: MemoryFiles,
    pub lines: Vec<u8>,
}

impl SpyFiles {
    /// No file, and no call yet.
    pub fn new(alloc: Global) -> SpyFiles {
        SpyFiles {
            files: MemoryFiles::new(alloc),
            lines: Vec::new(alloc),
        }
    }

    fn note(&mut self, kind: &str, name: &str) -> Result<(), NoMemory> {
        self.lines.extend_from_slice(kind.as_bytes())?;
        self.lines.extend_from_slice(name.as_bytes())?;
        self.lines.push(b'\n')?;
        Ok(())
    }
}

impl Files for SpyFiles {
    ghost contents = { λ _. None };

    ghost writes = { λ _. None };

    ghost faults = { λ _. last_count };

    fn get(&mut self, alloc: Global, name: &str, limit: u64) -> Result<Got, FileFault> {
        self.note("get ", name)?;
        self.files.get(alloc, name, limit)
    }

    fn put(&mut self, name: &str, bytes: &[u8]) -> Result<(), FileFault> {
        self.note("put ", name)?;
        self.files.put(name, bytes)
    }

    fn remove(&mut self, name: &str) -> Result<(), FileFault> {
        self.note("remove ", name)?;
        self.files.remove(name)
    }
}

/// A sink that notes how long each piece is.
#[derive(Drop)]
pub struct SpySink {
    pub sink: MemorySink,
    pub pieces: Vec<usize>,
}

impl SpySink {
    /// No piece yet.
    pub fn new(alloc: Global) -> SpySink {
        SpySink {
            sink: MemorySink::new(alloc),
            pieces: Vec::new(alloc),
        }
    }
}

impl Sink for SpySink {
    ghost written = { λ _. None };

    ghost faults = { λ _. last_count };

    fn write(&mut self, piece: &[u8]) -> Result<(), SinkFault> {
        if self.pieces.push(piece.len()).is_err() {
            return Err(SinkFault::NoMemory);
        }
        self.sink.write(piece)
    }
}
