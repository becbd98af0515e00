// Files in memory, of which listed calls fail.
ghost use Rattle.std.specs.Prelude.{◌≡◌, ◌≤◌, ◌<◌, length, Some, None, is_some, take, IfOk, OnErr};
ghost use Rattle.std.specs.Prelude.{OnOk, false};
ghost use Rattle.std.specs.List.{slice_get};
ghost use Rattle.std.specs.Option.{option_copied, option_map};
ghost use Rattle.std.specs.FinMap as map;
ghost use Rattle.plan_files.specs.declared.write.Write.TheVariants.{Put, Removal};
ghost use Rattle.plan_files.specs.Applied.{Leaves, Notes};
ghost use Rattle.plan_files.specs.Changes.{folder_of, left_by, write_name};
ghost use Rattle.plan_files.specs.Counts.{Counts, last_count};
ghost use Rattle.plan_files.specs.Folder.{got_of, has_failed, KeepsLimit};
ghost use Rattle.plan_files.specs.Planned.{due, after_call, with_fault, FaultLeaves, LeavesFront};
ghost use Rattle.plan_files.specs.Stored.{nothing_stored};

use crate::apply::apply;
use crate::fault_plan::{FaultPlan, front};
use crate::file_fault::FileFault;
use crate::name::Name;
use crate::steady_files::SteadyFiles;
use crate::store::{Files, Got};
use crate::write::Write;
use plan_num::{NoMemory, Text};
use std::alloc::Global;
use std::marker::Model;

/// Files in memory. The calls of `get`, `put` and `remove` are numbered from 1, and those that are
/// listed fail, and no others.
///
/// A put that is listed fails also where memory for the bytes that it is to keep is refused. Then
/// the old file stays, and `unkept` counts it.
#[derive(Debug)]
pub struct MemoryFiles {
    alloc: Global,
    // all that changed a file, what failed puts left too
    left: SteadyFiles,
    // the writes that answered Ok, alone
    told: SteadyFiles,
    plan: FaultPlan,
}

impl Drop for MemoryFiles {
    fn drop(self) {
        let MemoryFiles {
            alloc: _,
            left: _,
            told: _,
            plan: _,
        } = self;
    }
}

impl Model for MemoryFiles {
    ghost use Rattle.plan_files.specs.Stored.{Stored};

    ghost Value = { Stored };

    ghost view = { λ files. record {
      changes = files.left;
      writes = files.told;
      plan = files.plan;
    } };
}

impl MemoryFiles {
    /// No files, no writes, and no call that is to fail.
    pub fn new(alloc: Global) -> MemoryFiles
        ensures { result ≡ nothing_stored }
    {
        MemoryFiles {
            alloc,
            left: SteadyFiles::new(alloc),
            told: SteadyFiles::new(alloc),
            plan: FaultPlan::new(alloc),
        }
    }

    /// Lists a call, which then fails. A put leaves the first `kept` bytes, or all where there are
    /// fewer, or the old file for None; another call leaves all as it was. Where a call is listed
    /// twice the last time counts, and to list one that has passed does nothing. On an error
    /// nothing more is listed.
    pub fn fail_at(&mut self, call: u64, kept: Option<u64>) -> Result<(), NoMemory>
        ensures ok { OnOk result
            (self.new ≡ record self.old { plan = with_fault self.old.plan call kept }) }
        ensures err { OnErr result (self.new ≡ self.old) }
    {
        self.plan.fail_at(call, kept)
    }

    /// How many calls were made, failed ones too. It stops at the last number of 64 bits.
    pub fn calls(&self) -> u64
        ensures { result ≡ self.now.plan.calls }
    {
        self.plan.calls()
    }

    /// How many failed puts left the old file because memory for what they keep was refused.
    pub fn unkept(&self) -> u64
        ensures { result ≡ self.now.plan.unkept }
    {
        self.plan.unkept()
    }

    /// The bytes under a name.
    pub fn file(&self, name: &str) -> Option<&Text>
        ensures { option_copied result ≡ map.get (folder_of self.now.changes) name.now }
    {
        self.left.file(name)
    }

    /// How many writes answered Ok.
    pub fn write_count(&self) -> usize
        ensures { result ≡ length self.now.writes }
    {
        self.told.write_count()
    }

    /// The name that such a write changed.
    pub fn write_name(&self, index: usize) -> &str
        requires { index < length self.now.writes }
        ensures { Some result.now ≡ option_map write_name (slice_get self.now.writes index) }
    {
        self.told.write_name(index)
    }

    /// Whether such a write put bytes.
    pub fn write_is_put(&self, index: usize) -> bool
        requires { index < length self.now.writes }
        ensures { Some result
            ≡ option_map (λ write. is_some (left_by write)) (slice_get self.now.writes index) }
    {
        self.told.write_is_put(index)
    }

    // Makes a write and notes it. On an error all is as before.
    fn make(&mut self, write: &Write) -> Result<(), FileFault>
        ensures contents { Leaves write.now
            (Some (folder_of self.old.changes)) (Some (folder_of self.new.changes)) result }
        ensures writes { Notes write.now (Some self.old.writes) (Some self.new.writes) result }
        ensures steady { has_failed result ≡ false }
        ensures plan { self.new.plan ≡ self.old.plan }
    {
        let count = self.write_count();
        apply(&mut self.told, write)?;
        let made = apply(&mut self.left, write);
        if made.is_err() {
            self.told.truncate(count);
        }
        made
    }

    // Leaves what a failed put keeps, or counts that memory for it was refused.
    fn keep_front(&mut self, name: &str, bytes: &[u8], kept: Option<u64>)
        ensures left { LeavesFront (λ count. map.insert (folder_of self.old.changes) name.now
            (take count bytes.now)) kept
            (folder_of self.old.changes) (folder_of self.new.changes) self.old.plan self.new.plan }
        ensures writes { self.new.writes ≡ self.old.writes }
    {
        if let Some(kept) = kept {
            if self.left.put(name, front(bytes, kept)).is_err() {
                self.plan.count_unkept();
            }
        }
    }
}

impl Files for MemoryFiles {
    ghost contents = { λ files. Some (folder_of files.changes) };

    ghost writes = { λ files. Some files.writes };

    ghost faults = { λ files. files.plan.failed };

    fn get(&mut self, alloc: Global, name: &str, limit: u64) -> Result<Got, FileFault>
        ensures got { IfOk result (λ got.
            got ≡ got_of (folder_of self.old.changes) name.now limit) }
        ensures within { IfOk result (KeepsLimit limit) }
        ensures faults { Counts (has_failed result) self.old.plan.failed self.new.plan.failed }
        ensures capped { self.new.plan.failed ≤ last_count }

        // It fails exactly where a fault is due, and changes nothing but counts.
        ensures fails { has_failed result ≡ is_some (due self.old.plan) }
        ensures same { self.new ≡ record self.old { plan = after_call self.old.plan } }
    {
        match self.plan.next_call() {
            None => self.left.get(alloc, name, limit),
            Some(_) => Err(FileFault::Failed),
        }
    }

    fn put(&mut self, name: &str, bytes: &[u8]) -> Result<(), FileFault>
        ensures contents { Leaves (Put name.now bytes.now)
            (Some (folder_of self.old.changes)) (Some (folder_of self.new.changes)) result }
        ensures writes { Notes (Put name.now bytes.now)
            (Some self.old.writes) (Some self.new.writes) result }
        ensures faults { Counts (has_failed result) self.old.plan.failed self.new.plan.failed }
        ensures capped { self.new.plan.failed ≤ last_count }

        // It fails exactly where a fault is due, which says what is left then.
        ensures fails { has_failed result ≡ is_some (due self.old.plan) }
        ensures left { FaultLeaves (λ kept. map.insert (folder_of self.old.changes) name.now
            (take kept bytes.now)) (due self.old.plan)
            (folder_of self.old.changes) (folder_of self.new.changes) self.old.plan self.new.plan }
    {
        match self.plan.next_call() {
            None => {
                let name = Name::copy(self.alloc, name)?;
                let text = Text::copy(self.alloc, bytes)?;
                self.make(&Write::Put(name, text))
            }
            Some(fault) => {
                self.keep_front(name, bytes, fault.kept);
                Err(FileFault::Failed)
            }
        }
    }

    fn remove(&mut self, name: &str) -> Result<(), FileFault>
        ensures contents { Leaves (Removal name.now)
            (Some (folder_of self.old.changes)) (Some (folder_of self.new.changes)) result }
        ensures writes { Notes (Removal name.now)
            (Some self.old.writes) (Some self.new.writes) result }
        ensures faults { Counts (has_failed result) self.old.plan.failed self.new.plan.failed }
        ensures capped { self.new.plan.failed ≤ last_count }
        ensures absent { map.get (folder_of self.old.changes) name.now ≡ None
            → folder_of self.new.changes ≡ folder_of self.old.changes }

        // It fails exactly where a fault is due, and then the file stays.
        ensures fails { has_failed result ≡ is_some (due self.old.plan) }
        ensures stays { OnErr result (folder_of self.new.changes ≡ folder_of self.old.changes) }
        ensures plan { self.new.plan ≡ after_call self.old.plan }
    {
        match self.plan.next_call() {
            None => {
                let name = Name::copy(self.alloc, name)?;
                self.make(&Write::Removal(name))
            }
            Some(_) => Err(FileFault::Failed),
        }
    }
}
