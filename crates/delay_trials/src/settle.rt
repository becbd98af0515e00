// Times on trial behind a decision: what follows from it, and the way back.
ghost use Rattle.std.specs.Prelude.{◌≡◌, ◌++◌, length, List, OnOk};
ghost use Rattle.delay_trials.specs.declared.moved_event.Moved.{Moved};
ghost use Rattle.propagation.specs.LeastTimes.{least_times};
ghost use Rattle.delay_trials.specs.OnTrial.{Follows, IsSettling, IsSettlingBut, NoneWaits, rewound};
ghost use Rattle.propagation.specs.Waiting.{chosen_changes};

use crate::on_trial::TimesOnTrial;
use plan_num::NoMemory;
use propagation::Step;

impl TimesOnTrial<'_> {
    /// The head of a step is no earlier than the step asks, and what follows from it: heads are
    /// made later until all links that count have their minutes.
    pub(crate) fn settle_from(&mut self, step: Step, kept: &[bool]) -> Result<(), NoMemory>
        requires { IsSettlingBut kept.now step self.old }
        ensures follows { Follows self.old self.new }
        ensures least { OnOk result (self.new.times
            ≡ least_times self.old.problem (chosen_changes self.old.problem kept.now)) }
        ensures none { OnOk result (NoneWaits self.new) }
    {
        self.push(step)?;
        self.take_waiting_links(kept)
    }

    // Takes the links that wait in their order, and makes heads later where they ask for it, until
    // none waits.
    fn take_waiting_links(&mut self, kept: &[bool]) -> Result<(), NoMemory>
        requires { IsSettling kept.now self.old 0 }
        ensures follows { Follows self.old self.new }
        ensures least { OnOk result (self.new.times
            ≡ least_times self.old.problem (chosen_changes self.old.problem kept.now)) }
        ensures none { OnOk result (NoneWaits self.new) }
    {
        let mut from = 0;
        while let Some(at) = self.next_waiting(from) {
            self.take_link(at, kept)?;
            from = at + 1;
        }
        Ok(())
    }

    /// The last notes are dropped, until so many are left.
    pub(crate) fn forget_last(&mut self, left: usize)
        ensures { (top rest : List Moved) → self.old.noted ≡ top ++ rest → length rest ≡ left
            → self.new ≡ record self.old { noted = rest } }
    {
        while let Some(_last) = self.last_moved(left) {}
    }

    /// Events that were made later have their times before again, until so many are left.
    pub(crate) fn undo(&mut self, left: usize)
        ensures { (top rest : List Moved) → self.old.noted ≡ top ++ rest → length rest ≡ left
            → self.new ≡ record self.old { times = rewound top self.old.times; noted = rest } }
    {
        while let Some(last) = self.last_moved(left) {
            self.set_time(last.event, last.before);
        }
    }
}
