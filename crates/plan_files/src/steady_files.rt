// Files in memory, of which no call fails.
ghost use Rattle.std.specs.Prelude.{◌≡◌, ◌<◌, [], length, take, Some, is_some};
ghost use Rattle.std.specs.List.{slice_get};
ghost use Rattle.std.specs.Option.{option_copied, option_map};
ghost use Rattle.std.specs.FinMap as map;
ghost use Rattle.plan_files.specs.Changes.{folder_of, write_name, left_by};

use crate::file_fault::FileFault;
use crate::name::Name;
use crate::store::{Files, Got};
use crate::write::Write;
use plan_num::Text;
use std::alloc::Global;
use std::marker::Model;

/// Files in memory. Contracts see them as the list of the writes that were made, from no files at
/// all.
#[derive(Debug, Drop)]
pub struct SteadyFiles {
    alloc: Global,
    writes: Vec<Write>,
}

impl Model for SteadyFiles {
    ghost use Rattle.std.specs.Prelude.{List};
    ghost use Rattle.plan_files.specs.declared.write.Write.{Write};

    ghost Value = { List Write };

    ghost view = { λ files. files.writes.items };
}

impl SteadyFiles {
    /// No files, and no writes.
    pub fn new(alloc: Global) -> SteadyFiles
        ensures { result ≡ [] }
    {
        SteadyFiles {
            alloc,
            writes: Vec::new(alloc),
        }
    }

    /// The bytes under a name.
    pub fn file(&self, name: &str) -> Option<&Text>
        ensures { option_copied result ≡ map.get (folder_of self.now) name.now }
    {
        let mut left = None;
        for write in &self.writes {
            if write.name() == name {
                left = write.left();
            }
        }
        left
    }

    /// How many writes were made.
    pub fn write_count(&self) -> usize
        ensures { result ≡ length self.now }
    {
        self.writes.len()
    }

    /// The name that a write changed.
    pub fn write_name(&self, index: usize) -> &str
        requires { index < length self.now }
        ensures { Some result.now ≡ option_map write_name (slice_get self.now index) }
    {
        self.writes[index].name()
    }

    /// Whether a write put bytes.
    pub fn write_is_put(&self, index: usize) -> bool
        requires { index < length self.now }
        ensures { Some result
            ≡ option_map (λ write. is_some (left_by write)) (slice_get self.now index) }
    {
        self.writes[index].is_put()
    }

    // Takes writes back, but for the first ones.
    pub(crate) fn truncate(&mut self, count: usize)
        ensures { self.new ≡ take count self.old }
    {
        self.writes.truncate(count);
    }
}

impl Files for SteadyFiles {
    ghost contents = { λ writes. Some (folder_of writes) };

    ghost writes = { λ writes. Some writes };

    ghost faults = { λ _. 0 };

    fn get(&mut self, alloc: Global, name: &str, limit: u64) -> Result<Got, FileFault> {
        match self.file(name) {
            None => Ok(Got::Absent),
            Some(text) if text.as_bytes().len() as u64 <= limit => {
                Ok(Got::Bytes(Text::copy(alloc, text.as_bytes())?))
            }
            Some(_) => Ok(Got::TooLong),
        }
    }

    #[tactic(auto, using(crate::proofs::Writes::folder_after_push))]
    fn put(&mut self, name: &str, bytes: &[u8]) -> Result<(), FileFault> {
        let name = Name::copy(self.alloc, name)?;
        let text = Text::copy(self.alloc, bytes)?;
        self.writes.push(Write::Put(name, text))?;
        Ok(())
    }

    #[tactic(auto, using(crate::proofs::Writes::folder_after_push, crate::proofs::OtherFiles::remove_absent))]
    fn remove(&mut self, name: &str) -> Result<(), FileFault> {
        let name = Name::copy(self.alloc, name)?;
        self.writes.push(Write::Removal(name))?;
        Ok(())
    }
}
