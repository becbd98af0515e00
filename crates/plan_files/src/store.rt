// Files by name.
ghost use Rattle.std.specs.Prelude.{◌≡◌, ◌≤◌, List, ℕ, Option, Some, None, IfSome, IfOk, false, flat_map, option_map};
ghost use Rattle.std.specs.FinMap as map;
ghost use Rattle.plan_files.specs.declared.write.Write.{Write};
ghost use Rattle.plan_files.specs.declared.write.Write.TheVariants.{Put, Removal};
ghost use Rattle.plan_files.specs.Applied.{Leaves, Notes};
ghost use Rattle.plan_files.specs.Counts.{Counts, last_count};
ghost use Rattle.plan_files.specs.Folder.{Folder, got_of, has_failed, KeepsLimit, same_bytes};
ghost use Rattle.plan_files.specs.Reads.{FoundBehind, LacksEnds, OnlyReads};

use crate::behind::{bytes_behind, copied};
use crate::file_fault::FileFault;
use plan_num::Text;
use std::alloc::Global;

/// What is found under a name.
#[derive(Debug, Drop)]
pub enum Got {
    Bytes(Text),
    Absent,
    TooLong,
}

/// Files by name. A call changes the file that it names, and no other.
pub trait Files {
    /// Which bytes stand under each name, where this is told.
    ghost contents: { Self → Option Folder };

    /// The writes that answered Ok, in order, where this is told.
    ghost writes: { Self → Option (List Write) };

    /// How often a call has failed, as a counter of 64 bits which stops at its last value.
    ghost faults: { Self → ℕ };

    /// The bytes under a name, where they are at most `limit`. For the greatest limit no file is
    /// too long.
    fn get(&mut self, alloc: Global, name: &str, limit: u64) -> Result<Got, FileFault>
        ensures got { IfSome (contents self.old) (λ folder.
            IfOk result (λ got. got ≡ got_of folder name.now limit)) }
        ensures within { IfOk result (KeepsLimit limit) }
        ensures reads { OnlyReads contents writes faults self.old self.new (has_failed result) }
        ensures capped { faults self.new ≤ last_count };

    /// Whether a file is there and has these bytes. Files may tell it without room for all of them.
    fn has_bytes(&mut self, alloc: Global, name: &str, bytes: &[u8]) -> Result<bool, FileFault>
        ensures same { IfSome (contents self.old) (λ folder. IfOk result (λ same.
            same ≡ same_bytes (map.get folder name.now) (Some bytes.now))) }
        ensures reads { OnlyReads contents writes faults self.old self.new (has_failed result) }
        ensures capped { faults self.new ≤ last_count }
    {
        match self.get(alloc, name, bytes.len() as u64)? {
            Got::Bytes(there) => Ok(there.as_bytes() == bytes),
            Got::Absent | Got::TooLong => Ok(false),
        }
    }

    /// The bytes behind a front, where those under a name begin with it. The front is some pieces,
    /// one after the other. Files may tell it without room for what they compare.
    fn get_behind(
        &mut self,
        alloc: Global,
        name: &str,
        front: &[&[u8]],
    ) -> Result<Option<Vec<u8>>, FileFault>
        ensures behind { IfSome (contents self.old) (λ folder. IfOk result (λ rest. FoundBehind
            (flat_map (λ piece. piece.now) front.now) (map.get folder name.now)
            (option_map (λ rest. rest.items) rest))) }
        ensures reads { OnlyReads contents writes faults self.old self.new (has_failed result) }
        ensures capped { faults self.new ≤ last_count }
    {
        match self.get(alloc, name, u64::MAX)? {
            Got::Bytes(there) => match bytes_behind(front, there.as_bytes()) {
                Some(rest) => Ok(Some(copied(alloc, rest)?)),
                None => Ok(None),
            },
            Got::Absent | Got::TooLong => Ok(None),
        }
    }

    /// Whether the bytes under a name may begin with some bytes and end with others: a look before
    /// a file that may be long is got. Where they do, the answer is yes; it may be yes of any
    /// others.
    fn may_have_ends(&mut self, _name: &str, _front: &[u8], _back: &[u8]) -> Result<bool, FileFault>
        ensures ends { IfSome (contents self.old) (λ folder. IfOk result (λ may. may ≡ false
            → IfSome (map.get folder _name.now) (LacksEnds _front.now _back.now))) }
        ensures reads { OnlyReads contents writes faults self.old self.new (has_failed result) }
    {
        Ok(true)
    }

    /// Puts bytes under a name, in the place of those that are there.
    fn put(&mut self, name: &str, bytes: &[u8]) -> Result<(), FileFault>
        ensures contents { Leaves (Put name.now bytes.now)
            (contents self.old) (contents self.new) result }
        ensures writes { Notes (Put name.now bytes.now) (writes self.old) (writes self.new) result }
        ensures faults { Counts (has_failed result) (faults self.old) (faults self.new) }
        ensures capped { faults self.new ≤ last_count };

    /// Removes the file of a name, if there is one.
    fn remove(&mut self, name: &str) -> Result<(), FileFault>
        ensures contents { Leaves (Removal name.now)
            (contents self.old) (contents self.new) result }
        ensures writes { Notes (Removal name.now) (writes self.old) (writes self.new) result }
        ensures faults { Counts (has_failed result) (faults self.old) (faults self.new) }
        ensures capped { faults self.new ≤ last_count }

        // Where there is none, all is as before.
        ensures absent { IfSome (contents self.old) (λ folder.
            map.get folder name.now ≡ None → contents self.new ≡ contents self.old) };
}
