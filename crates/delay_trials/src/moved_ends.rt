// Which open changes times break, where an event was moved.
ghost use Rattle.std.specs.Prelude.{ℕ, ◌≡◌, ◌≢◌, ◌+◌, ◌^◌, ◌<◌, ◌≤◌, true, get_or, length, slice_set};
ghost use Rattle.delay_trials.specs.declared.ends.ChangeEnd.{ChangeEnd};
ghost use Rattle.propagation.specs.declared.step.Activity.{Activity};
ghost use Rattle.delay_trials.specs.ChangeEnds.{IsFirst};
ghost use Rattle.delay_trials.specs.OnTrial.{AreTested};
ghost use Rattle.delay_trials.specs.OpenChanges.{AreAllTested, AreStillTested, HasLimits, TestsEnds};
ghost use Rattle.delay_trials.specs.Stillness.{MayHaveLimits, room_of};

use crate::moved_event::Moved;
use crate::open_changes::OpenChanges;
use bit_rows::Marking;

impl OpenChanges<'_> {
    /// Marks each change that is open and that the times break, where an event, whose ends begin at
    /// a place, was moved. Of each 64 ends at an event it is noted how far events may be moved, all
    /// together, before one of their changes turns; until then they are passed over.
    pub(crate) fn test_moved(
        &self,
        broken: &mut Marking,
        until: &mut Vec<u64>,
        shifted: &mut u64,
        first: usize,
        moved: Moved,
    )
        requires there { moved.event < length self.now.times }
        requires first { IsFirst (λ end. end.event) self.now.ends moved.event first }
        requires marks { length broken.old ≡ length self.now.changes }
        requires limits { MayHaveLimits self.now.changes
            (slice_set self.now.times moved.event moved.before) self.now.ends shifted.old
            until.old.items }
        requires tested { AreTested self.now.changes
            (slice_set self.now.times moved.event moved.before) self.now.open_yet broken.old }
        ensures tested { AreAllTested self.now broken.new }
        ensures size { length broken.new ≡ length broken.old }
        ensures limits { MayHaveLimits self.now.changes self.now.times self.now.ends shifted.new
            until.new.items }
    {
        if !self.has_end(first, moved.event) {
            return;
        }
        if until.is_empty() {
            self.test_few(broken, first, moved.event);
            return;
        }
        *shifted = shifted.saturating_add(self.minutes_moved(moved));
        let at = self.test_many(broken, until, *shifted, first, moved.event);
        self.test_few(broken, at, moved.event);
    }

    // Tests the changes of ends at an event from a place on, while there are 64 of them; where the
    // next ends begin.
    fn test_many(
        &self,
        broken: &mut Marking,
        until: &mut Vec<u64>,
        shifted: u64,
        first: usize,
        event: u32,
    ) -> usize
        requires there { first ≤ length self.now.ends }
        requires marks { length broken.old ≡ length self.now.changes }
        requires limits { HasLimits self.now shifted until.old.items }
        requires still { AreStillTested self.now shifted until.old.items broken.old }
        ensures on { first ≤ result }
        ensures tests { TestsEnds self.now first result broken.old broken.new }
        ensures limits { HasLimits self.now shifted until.new.items }
    {
        let mut at = first;
        while self.are_many(at, event) {
            at = self.test_some(broken, until, shifted, at);
        }
        at
    }

    // Tests the changes of all ends at an event from a place on; where those of the next event
    // begin.
    fn test_few(&self, broken: &mut Marking, first: usize, event: u32) -> usize
        requires { length broken.old ≡ length self.now.changes }
        ensures on { first ≤ result }
        ensures tests { TestsEnds self.now first result broken.old broken.new }
        ensures past { (e : ChangeEnd) → result < length self.now.ends
            → (get_or self.now.ends result e).event ≢ event }
    {
        let mut at = first;
        while at < self.end_count() && self.end_at(at).event == event {
            self.test_end(broken, at);
            at += 1;
        }
        at
    }

    // Whether there are 64 ends from a place on, the last of them at an event.
    fn are_many(&self, at: usize, event: u32) -> bool
        requires { at ≤ length self.now.ends }
        ensures there { result ≡ true → at + 64 ≤ length self.now.ends }
        ensures few { length self.now.ends < 2 ^ 64 }
    {
        self.end_count() - at >= 64 && self.end_at(at + 63).event == event
    }

    // Tests the changes of 64 ends where these are a block, and that of the first one where not;
    // where the next ends begin.
    fn test_some(
        &self,
        broken: &mut Marking,
        until: &mut Vec<u64>,
        shifted: u64,
        at: usize,
    ) -> usize
        requires there { at + 64 ≤ length self.now.ends }
        requires few { length self.now.ends < 2 ^ 64 }
        requires marks { length broken.old ≡ length self.now.changes }
        requires limits { HasLimits self.now shifted until.old.items }
        requires still { AreStillTested self.now shifted until.old.items broken.old }
        ensures on { at < result }
        ensures within { result ≤ length self.now.ends }
        ensures tests { TestsEnds self.now at result broken.old broken.new }
        ensures limits { HasLimits self.now shifted until.new.items }
        ensures still { AreStillTested self.now shifted until.new.items broken.new }
    {
        if at % 64 != 0 {
            self.test_end(broken, at);
            return at + 1;
        }
        if shifted < until[at / 64] {
            return at + 64;
        }
        let room = self.test_block(broken, at);
        until[at / 64] = shifted.saturating_add(room);
        at + 64
    }

    // Tests the changes of 64 ends from a place on; how far events may be moved before one of them
    // turns.
    fn test_block(&self, broken: &mut Marking, at: usize) -> u64
        requires there { at + 64 ≤ length self.now.ends }
        requires few { length self.now.ends < 2 ^ 64 }
        requires marks { length broken.old ≡ length self.now.changes }
        ensures tests { TestsEnds self.now at (at + 64) broken.old broken.new }
        ensures room { (j : ℕ) (e : ChangeEnd) (d : Activity) → at ≤ j → j < at + 64 → result
            ≤ room_of self.now.times (get_or self.now.changes (get_or self.now.ends j e).change d) }
    {
        let mut least = u64::MAX;
        for place in at..at + 64 {
            least = least.min(self.room_at(place));
            self.test_end(broken, place);
        }
        least
    }

    // Tests the change of the end at a place.
    fn test_end(&self, broken: &mut Marking, place: usize)
        requires there { place < length self.now.ends }
        requires marks { length broken.old ≡ length self.now.changes }
        ensures { TestsEnds self.now place (place + 1) broken.old broken.new }
    {
        let change = self.end_at(place).change as usize;
        self.test(broken, change);
    }
}
