// Where to look for the events that an event is joined to.
ghost use Rattle.std.specs.Prelude.{◌≡◌, ◌<◌, ◌≤◌, ◌%◌, ◌++◌, ◌∷◌, [], List, length, map, filter, slice_set, slice_index_or, vec_len, IfOk, OnOk};
ghost use Rattle.event_activity.specs.declared.run_event.RunEvent.{RunEvent};
ghost use Rattle.event_activity.specs.Activities.{joined};
ghost use Rattle.event_activity.specs.NextEvents.{AreNextEvents, NotesAt};

use crate::joining::Joining;
use crate::run_event::RunEvent;
use plan_num::NoMemory;
use std::alloc::Global;
use std::marker::Model;

/// The events that may be the second ones of two that are joined, in lists by their keys. Contracts
/// see it as these lists.
#[derive(Drop)]
pub(crate) struct NextEvents {
    rows: Vec<Vec<RunEvent>>,
}

impl Model for NextEvents {
    ghost use Rattle.std.specs.Prelude.{List, map};
    ghost use Rattle.event_activity.specs.declared.run_event.RunEvent.{RunEvent};

    ghost Value = { List (List RunEvent) };

    ghost view = { λ nexts. map (λ row. row.items) nexts.rows.items };
}

impl NextEvents {
    /// Those of events.
    pub(crate) fn new(
        alloc: Global,
        joining: Joining,
        events: &[RunEvent],
    ) -> Result<NextEvents, NoMemory>
        requires { length events.now ≤ 4000 }
        ensures { IfOk result (AreNextEvents joining events.now) }
    {
        let count = events.len() + 1;
        let mut rows = Vec::with_capacity(alloc, count)?;
        for _row in 0..count {
            rows.push(Vec::new(alloc))?;
        }
        for event in events {
            if joining.may_end(event) {
                note_event(&mut rows, joining.key_of(event) % count, event)?;
            }
        }
        Ok(NextEvents { rows })
    }

    /// Some of the events, among which are all that an event is joined to.
    pub(crate) fn after(&self, joining: Joining, event: &RunEvent) -> &[RunEvent]
        requires { 1 ≤ length self.now }
        ensures among { (events : List RunEvent) → AreNextEvents joining events self.now
            → filter (joined joining event.now) result.now
            ≡ filter (joined joining event.now) events }
        ensures few { (events : List RunEvent) → AreNextEvents joining events self.now
            → length result.now ≤ length events }
    {
        self.rows[joining.key_from(event) % self.rows.len()].as_slice()
    }
}

// Notes an event in a list.
fn note_event(rows: &mut Vec<Vec<RunEvent>>, list: usize, event: &RunEvent) -> Result<(), NoMemory>
    requires { list < vec_len rows.old }
    ensures size { vec_len rows.new ≡ vec_len rows.old }
    ensures noted { OnOk result (NotesAt list event.now (map (λ row. row.items) rows.old.items)
        (map (λ row. row.items) rows.new.items)) }
{
    rows[list].push(*event)?;
    Ok(())
}
