// Which open changes times break.
ghost use Rattle.std.specs.Prelude.{◌≡◌, ◌&&◌, ◌+◌, ◌-◌, ◌<◌, ◌≤◌, true, false, get_or, length, slice_set, All};
ghost use Rattle.std.specs.List.Sorted.{IsNonDecreasingBy};
ghost use Rattle.delay_trials.specs.declared.ends.ChangeEnd.{ChangeEnd};
ghost use Rattle.propagation.specs.declared.step.Activity.{Activity};
ghost use Rattle.propagation.specs.declared.times.TheConstants.{LATEST};
ghost use Rattle.delay_trials.specs.ChangeEnds.{HasEnds, HasNone, IsFirst};
ghost use Rattle.propagation.specs.Lateness.{is_broken};
ghost use Rattle.propagation.specs.LeastTimes.{time_at};
ghost use Rattle.delay_trials.specs.OpenChanges.{AreAllTested};
ghost use Rattle.propagation.specs.Problems.{Joins};
ghost use Rattle.delay_trials.specs.Stillness.{room_of};

use crate::ends::{ChangeEnd, has_end};
use crate::moved_event::Moved;
use bit_rows::Marking;
use propagation::{Activity, asked, is_broken};
use std::marker::Model;

/// The changes of a day at some times, which of them are open, and their ends by their events.
#[derive(Drop)]
pub(crate) struct OpenChanges<'a> {
    changes: &'a [Activity],
    times: &'a [u64],
    undecided: &'a [bool],
    ends: &'a [ChangeEnd],
}

impl<'a> Model for OpenChanges<'a> {
    ghost use Rattle.delay_trials.specs.OpenChanges.{AreOpenChanges, OpenParts};

    ghost Value = { OpenParts };

    ghost view = { λ day. record {
      changes = day.changes.now;
      times = day.times.now;
      open_yet = day.undecided.now;
      ends = day.ends.now;
    } };

    ghost invariant = { λ day. AreOpenChanges (record {
      changes = day.changes.now;
      times = day.times.now;
      open_yet = day.undecided.now;
      ends = day.ends.now;
    }) };
}

impl<'a> OpenChanges<'a> {
    /// The changes of a day at some times, of which some are open, with their ends.
    pub(crate) fn new(
        changes: &'a [Activity],
        times: &'a [u64],
        undecided: &'a [bool],
        ends: &'a [ChangeEnd],
    ) -> OpenChanges<'a>
        requires flags { length undecided.now ≡ length changes.now }
        requires joins { All (λ change. Joins (length times.now) change.step) changes.now }
        requires small { All (λ time. time ≤ LATEST) times.now }
        requires ends { HasEnds changes.now ends.now }
        requires in_order { IsNonDecreasingBy (λ end. end.event) ends.now }
        ensures { result ≡ record {
          changes = changes.now;
          times = times.now;
          open_yet = undecided.now;
          ends = ends.now;
        } }
    {
        OpenChanges {
            changes,
            times,
            undecided,
            ends,
        }
    }

    /// Marks a change, where it is open and the times break it.
    pub(crate) fn test(&self, broken: &mut Marking, change: usize)
        requires there { change < length self.now.changes }
        requires marks { length broken.old ≡ length self.now.changes }
        ensures { (d : Activity) → broken.new ≡ slice_set broken.old change
            (get_or self.now.open_yet change false
            && is_broken self.now.times (get_or self.now.changes change d)) }
    {
        let is = self.undecided[change] && is_broken(self.times, &self.changes[change]);
        broken.set(change, is);
    }

    /// Marks each change that is open and that the times break.
    pub(crate) fn test_all(&self, broken: &mut Marking)
        requires marks { length broken.old ≡ length self.now.changes }
        ensures tested { AreAllTested self.now broken.new }
        ensures size { length broken.new ≡ length broken.old }
    {
        for change in 0..self.change_count() {
            self.test(broken, change);
        }
    }

    /// How far the events of the change of the end at a place may be moved, all together, before it
    /// turns.
    pub(crate) fn room_at(&self, place: usize) -> u64
        requires { place < length self.now.ends }
        ensures { (e : ChangeEnd) (d : Activity) → result ≡ room_of self.now.times
            (get_or self.now.changes (get_or self.now.ends place e).change d) }
    {
        let change = self.end_at(place).change as usize;
        room_of(self.times, &self.changes[change])
    }

    /// Whether there is an end at an event, where its ends begin at a place.
    pub(crate) fn has_end(&self, first: usize, event: u32) -> bool
        requires { IsFirst (λ end. end.event) self.now.ends event first }
        ensures none { result ≡ false → HasNone self.now.ends event }
        ensures there { result ≡ true → first < length self.now.ends }
        ensures ends { HasEnds self.now.changes self.now.ends }
        ensures in_order { IsNonDecreasingBy (λ end. end.event) self.now.ends }
    {
        has_end(self.ends, first, event)
    }

    /// By how many minutes an event was moved.
    pub(crate) fn minutes_moved(&self, moved: Moved) -> u64
        requires { moved.event < length self.now.times }
        ensures { result ≡ (moved.before - time_at self.now.times moved.event)
            + (time_at self.now.times moved.event - moved.before) }
    {
        moved.before.abs_diff(self.times[moved.event as usize])
    }

    // How many changes there are.
    fn change_count(&self) -> usize
        ensures { result ≡ length self.now.changes }
    {
        self.changes.len()
    }

    /// How many ends there are.
    pub(crate) fn end_count(&self) -> usize
        ensures { result ≡ length self.now.ends }
    {
        self.ends.len()
    }

    /// The end at a place.
    pub(crate) fn end_at(&self, place: usize) -> ChangeEnd
        requires { place < length self.now.ends }
        ensures value { (e : ChangeEnd) → result ≡ get_or self.now.ends place e }
        ensures there { result.change < length self.now.changes }
    {
        let ends = self.ends;
        ends[place]
    }
}

// How far the events of a change may be moved, all together, before it turns.
fn room_of(times: &[u64], change: &Activity) -> u64
    requires ends { Joins (length times.now) change.now.step }
    requires small { All (λ time. time ≤ LATEST) times.now }
    ensures { result ≡ room_of times.now change.now }
{
    let asked = asked(times, &change.step);
    let head = times[change.step.to as usize];
    if head < asked {
        asked - head
    } else {
        head - asked + 1
    }
}
