// Runs of events.
ghost use Rattle.std.specs.Prelude.{◌≡◌, ◌≤◌, ◌∷◌, take, drop, length, IfOk};
ghost use Rattle.event_tables.specs.PeriodicRuns.{runs_of};

use event_tables::PeriodicEvent;
use plan_num::NoMemory;
use std::alloc::Global;
use std::marker::Model;

/// Events one after the other that agree in line, direction and repetition. Contracts see it as the
/// list of them.
#[derive(Drop)]
pub(crate) struct Run {
    events: Vec<PeriodicEvent>,
}

impl Model for Run {
    ghost use Rattle.std.specs.Prelude.{List};
    ghost use Rattle.event_tables.specs.declared.periodic_event.PeriodicEvent.{PeriodicEvent};

    ghost Value = { List PeriodicEvent };

    ghost view = { λ run. run.events.items };
}

impl Run {
    /// Its events.
    pub(crate) fn events(&self) -> &[PeriodicEvent]
        ensures { result.now ≡ self.now }
    {
        &self.events
    }
}

/// The runs of events.
pub(crate) fn runs_of(alloc: Global, events: &[PeriodicEvent]) -> Result<Vec<Run>, NoMemory>
    ensures { IfOk result (λ runs. runs.items ≡ runs_of events.now) }
{
    let mut runs = Vec::new(alloc);
    let mut rest = events;
    while !rest.is_empty() {
        let (run, behind) = rest.split_at(run_size(rest));
        runs.push(Run {
            events: Vec::from_slice(alloc, run)?,
        })?;
        rest = behind;
    }
    Ok(runs)
}

// How many events are in the first run of some.
fn run_size(events: &[PeriodicEvent]) -> usize
    requires { 1 ≤ length events.now }
    ensures first { runs_of events.now ≡ take result events.now ∷ runs_of (drop result events.now) }
    ensures some { 1 ≤ result }
    ensures within { result ≤ length events.now }
{
    for index in 1..events.len() {
        if !events[index - 1].is_same_run(&events[index]) {
            return index;
        }
    }
    events.len()
}
