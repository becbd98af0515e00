// What a stage makes.
ghost use Rattle.std.specs.Prelude.{◌≡◌, ◌<◌, ◌∷◌, ◌++◌, [], length, slice_get, Some, OnOk, OnErr};

use plan_num::{NoMemory, Text};
use std::alloc::Global;
use std::marker::Model;
use tables::FileId;

/// A file that was made, with its text.
#[derive(Debug, Drop)]
pub struct MadeFile {
    pub file: FileId,
    pub text: Text,
}

/// Files that were made, in order. Contracts see it as the list of them.
#[derive(Debug, Drop)]
pub struct MadeList {
    files: Vec<MadeFile>,
}

impl Model for MadeList {
    ghost use Rattle.std.specs.Prelude.{List};
    ghost use Rattle.giv_files.specs.declared.made.MadeFile.{MadeFile};

    ghost Value = { List MadeFile };

    ghost view = { λ m. m.files.items };
}

impl MadeList {
    /// No file.
    pub fn new(alloc: Global) -> MadeList
        ensures { result ≡ [] }
    {
        MadeList {
            files: Vec::new(alloc),
        }
    }

    /// One file more.
    pub fn push(&mut self, file: MadeFile) -> Result<(), NoMemory>
        ensures ok { OnOk result (self.new ≡ self.old ++ file ∷ []) }
        ensures err { OnErr result (self.new ≡ self.old) }
    {
        self.files.push(file)?;
        Ok(())
    }

    /// How many files there are.
    pub fn len(&self) -> usize
        ensures { result ≡ length self.now }
    {
        self.files.len()
    }

    /// The file at a place.
    pub fn get(&self, index: usize) -> &MadeFile
        requires { index < length self.now }
        ensures { slice_get self.now index ≡ Some result.now }
    {
        &self.files[index]
    }

    /// The files themselves. It takes no memory.
    pub fn into_vec(self) -> Vec<MadeFile>
        ensures { result.items ≡ self }
    {
        self.files
    }
}

/// The files that a stage made, and its line in the report without the line's end.
#[derive(Debug, Drop)]
pub struct Made {
    pub files: MadeList,
    pub report: Text,
}
