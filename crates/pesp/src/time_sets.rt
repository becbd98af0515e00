// Sets of times that are changed and restored.
ghost use Rattle.std.specs.Prelude.{◌≡◌, ◌<◌, ◌∷◌, [], IfOk, OnOk};
ghost use Rattle.bit_rows.specs.Bits.{words_of};
ghost use Rattle.pesp.specs.Marks.{KeepsBits, Restores};

use crate::marks::TimeMarks;
use plan_num::NoMemory;
use std::alloc::Global;
use std::marker::Model;

/// A branch on the times of an event: those from one on are still to be visited.
#[derive(Clone, Copy)]
pub(crate) struct Branch {
    pub(crate) event: usize,
    pub(crate) from: usize,
}

/// A change of sets: the word at a place was another one before, or the sets were saved at a
/// branch.
#[derive(Clone, Copy)]
pub(crate) enum Change {
    Replaced(usize, u64),
    Branched(Branch),
}

/// The times that are left to each event, and the changes by which earlier sets are restored.
/// Contracts see it as these sets and all that were saved.
pub(crate) struct TimeSets {
    sets: TimeMarks,
    changes: Vec<Change>,
}

impl Drop for TimeSets {
    fn drop(self) {
        let TimeSets {
            sets: _,
            changes: _,
        } = self;
    }
}

impl Model for TimeSets {
    ghost use Rattle.std.specs.Prelude.{All, reverse};
    ghost use Rattle.pesp.specs.Marks.{Tracked, AreMarks, IsChange, saved_by};

    ghost Value = { Tracked };

    ghost view = { λ tracked. record {
      sets = tracked.sets;
      saved = saved_by tracked.sets (reverse tracked.changes.items);
    } };

    ghost invariant = { λ tracked.
        All (IsChange tracked.sets.columns tracked.sets.rows) tracked.changes.items };
}

impl TimeSets {
    /// Sets of which none were saved.
    pub(crate) fn new(alloc: Global, sets: TimeMarks) -> TimeSets
        ensures { result ≡ record { sets = sets; saved = [] } }
    {
        TimeSets {
            sets,
            changes: Vec::new(alloc),
        }
    }

    /// The times that are left to each event.
    pub(crate) fn sets(&self) -> &TimeMarks
        ensures { result.now ≡ self.now.sets }
    {
        &self.sets
    }

    /// Takes the times of a word that have no bit out of the set of an event, and tells whether
    /// there were any.
    pub(crate) fn keep_bits(
        &mut self,
        event: usize,
        index: usize,
        keep: u64,
    ) -> Result<bool, NoMemory>
        requires event { event < self.old.sets.rows }
        requires index { index < words_of self.old.sets.columns }
        ensures { IfOk result (KeepsBits self.old self.new event index keep) }
    {
        let (place, old) = self.sets.placed_word(event, index);
        let new = old & keep;
        if new == old {
            return Ok(false);
        }
        self.changes.push(Change::Replaced(place, old))?;
        self.sets.put_word(place, new);
        Ok(true)
    }

    /// Saves the sets at a branch.
    pub(crate) fn save(&mut self, branch: Branch) -> Result<(), NoMemory>
        requires event { branch.event < self.old.sets.rows }
        ensures { OnOk result (self.new ≡ record {
          sets = self.old.sets;
          saved = record { sets = self.old.sets; branch = branch } ∷ self.old.saved;
        }) }
    {
        self.changes.push(Change::Branched(branch))?;
        Ok(())
    }

    /// Restores the sets that were saved last, and tells their branch; none where no sets are
    /// saved.
    pub(crate) fn restore(&mut self) -> Option<Branch>
        ensures { Restores self.old self.new result }
    {
        while let Some(change) = self.changes.pop() {
            match change {
                Change::Replaced(place, word) => self.sets.put_word(place, word),
                Change::Branched(branch) => return Some(branch),
            }
        }
        None
    }
}
