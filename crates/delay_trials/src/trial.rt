// Decisions on trial.
ghost use Rattle.std.specs.Prelude.{nat_le, [], ◌≡◌, ◌<◌, ◌≤◌, ◌≤ℤ◌, ◌∷◌, pos, true, false, drop, length, slice_get};
ghost use Rattle.std.specs.Prelude.{slice_set, IfOk, OnOk, OnErr};
ghost use Rattle.propagation.specs.Lateness.{delay_at};
ghost use Rattle.delay_trials.specs.OnTrial.{DropsNotes, GoesBack};
ghost use Rattle.propagation.specs.Problems.{IsForward};
ghost use Rattle.delay_trials.specs.Trials.{first_broken, is_decided, times_of};

use crate::decided::Decided;
use crate::on_trial::TimesOnTrial;
use crate::taken::Taken;
use plan_num::NoMemory;
use propagation::Propagation;
use std::alloc::Global;
use std::marker::Model;

// After so many events that were made later none is noted any more: what a decision made later is
// then taken back by a pass over the day.
const MOST_NOTED: usize = 1_000_000;

/// Changes of a day that are decided one after the other and taken back again, the last one first,
/// with the least times of what is kept. Contracts see it as the day and what is decided, the last
/// decision first.
pub struct Trial<'a> {
    times: TimesOnTrial<'a>,
    taken: Vec<Taken>,
    kept: Vec<bool>,
}

impl Drop for Trial<'_> {
    fn drop(self) {
        let Trial {
            times: _,
            taken: _,
            kept: _,
        } = self;
    }
}

impl<'a> Model for Trial<'a> {
    ghost use Rattle.std.specs.Prelude.{reverse};
    ghost use Rattle.delay_trials.specs.OnTrial.{IsTaken, decided_in};
    ghost use Rattle.delay_trials.specs.Trials.{TrialParts};

    ghost Value = { TrialParts };

    ghost view = { λ t. record {
      problem = t.times.problem;
      decided = decided_in (reverse t.taken.items);
    } };

    ghost invariant = { λ t. IsTaken t.times (reverse t.taken.items) t.kept.items };
}

impl<'a> Trial<'a> {
    /// Nothing is decided yet.
    pub fn new(alloc: Global, problem: &'a Propagation) -> Result<Trial<'a>, NoMemory>
        ensures value { IfOk result
            (λ trial. trial ≡ record { problem = problem.now; decided = [] }) }
        ensures forward { IsForward problem.now }
    {
        Ok(Trial {
            times: TimesOnTrial::new(alloc, problem)?,
            taken: Vec::new(alloc),
            kept: vec![in alloc; false; problem.change_count()]?,
        })
    }

    /// How many changes there are.
    pub fn change_count(&self) -> usize
        ensures count { result ≡ length self.now.problem.changes }
        ensures few { length self.now.problem.changes ≤ 502000 }
        ensures forward { IsForward self.now.problem }
    {
        self.times.problem().change_count()
    }

    /// Whether a change is decided.
    pub fn is_decided(&self, change: usize) -> bool
        requires { change < length self.now.problem.changes }
        ensures { result ≡ is_decided self.now.decided change }
    {
        !self.times.is_open(change)
    }

    /// A change that is not decided is kept.
    pub fn keep(&mut self, change: usize) -> Result<(), NoMemory>
        requires there { change < length self.old.problem.changes }
        requires open_yet { is_decided self.old.decided change ≡ false }
        ensures ok { OnOk result (self.new ≡ record self.old {
          decided = record { change = change; kept = true } ∷ self.old.decided;
        }) }
        ensures err { OnErr result (self.new ≡ self.old) }
    {
        let step = self.times.problem().changes()[change].step;
        let moved = self.times.moved();
        let is_noted = notes_stay(moved);
        self.taken.push(Taken::new(change, true, moved, is_noted))?;
        set_at(&mut self.kept, change, true);
        self.times.set_open(change, false);
        match self.times.settle_from(step, &self.kept) {
            Ok(()) => {
                drop_notes(&mut self.times, moved, is_noted);
                Ok(())
            }
            Err(NoMemory) => {
                self.times.forget();
                self.times.undo(moved);
                self.times.set_open(change, true);
                set_at(&mut self.kept, change, false);
                self.taken.pop();
                Err(NoMemory)
            }
        }
    }

    /// A change that is not decided is dropped.
    pub fn leave_out(&mut self, change: usize) -> Result<(), NoMemory>
        requires there { change < length self.old.problem.changes }
        requires open_yet { is_decided self.old.decided change ≡ false }
        ensures ok { OnOk result (self.new ≡ record self.old {
          decided = record { change = change; kept = false } ∷ self.old.decided;
        }) }
        ensures err { OnErr result (self.new ≡ self.old) }
    {
        let moved = self.times.moved();
        self.taken.push(Taken::new(change, false, moved, true))?;
        self.times.set_open(change, false);
        Ok(())
    }

    /// Takes the last decision back, where there is one.
    pub fn take_back(&mut self) -> Option<Decided>
        ensures last { result ≡ slice_get self.old.decided 0 }
        ensures rest { self.new ≡ record self.old { decided = drop 1 self.old.decided } }
    {
        let last = self.taken.pop()?;
        set_at(&mut self.kept, last.decided.change, false);
        go_back(&mut self.times, &last, &self.kept);
        self.times.set_open(last.decided.change, true);
        Some(last.decided)
    }

    /// How late all arrivals are together.
    pub fn delay(&self) -> i128
        ensures value { result ≡ delay_at self.now.problem.events (times_of self.now) }
        ensures least { pos 0 ≤ℤ result }
        ensures most { result ≤ℤ pos 60000000000000000 }
        ensures few { length self.now.problem.changes ≤ 502000 }
        ensures forward { IsForward self.now.problem }
    {
        self.times.delay()
    }

    /// The first change that is not decided and that the least times break.
    pub fn first_broken(&self) -> Option<usize>
        ensures { result ≡ first_broken self.now }
    {
        self.times.first_broken()
    }
}

// Whether the notes of a decision after so many others stay.
fn notes_stay(moved: usize) -> bool
    ensures { result ≡ nat_le moved 1000000 }
{
    moved <= MOST_NOTED
}

// The last notes are dropped until so many are left, where they do not stay.
fn drop_notes(times: &mut TimesOnTrial, left: usize, stay: bool)
    ensures { DropsNotes left stay times.old times.new }
{
    if !stay {
        times.forget_last(left);
    }
}

// The times before a decision again: by its notes, or as the least ones of what is still kept.
fn go_back(times: &mut TimesOnTrial, last: &Taken, kept: &[bool])
    ensures { GoesBack last.now kept.now times.old times.new }
{
    if last.is_noted {
        times.undo(last.moved);
    } else {
        times.renew(kept);
    }
}

// A flag is set.
fn set_at(flags: &mut Vec<bool>, index: usize, is: bool)
    requires { index < length flags.old.items }
    ensures { flags.new.items ≡ slice_set flags.old.items index is }
{
    flags[index] = is;
}
