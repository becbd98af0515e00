// Reading periodic events.
ghost use Rattle.std.specs.Prelude.{◌≡◌, [], ◌∷◌, ⊤, IfOk};
ghost use Rattle.tables.specs.RowsOfTables.{ReadsFile};
ghost use Rattle.event_tables.specs.PeriodicFiles.{periodic_event_input, ArePeriodicEvents};
ghost use Rattle.event_tables.specs.Places.{own_place};

use crate::periodic_event::PeriodicEvent;
use crate::place::is_next_place;
use plan_num::NoMemory;
use std::alloc::Global;
use tables::{Counted, FileId, RowLimit, RowTests, RowWhy, StageFault, columns, read_file};

const LIMIT: RowLimit = RowLimit {
    what: Counted::PeriodicEvents,
    most: 4_000,
};

/// The periodic events of a text, or its first fault.
pub fn periodic_events(alloc: Global, text: &[u8]) -> Result<Vec<PeriodicEvent>, StageFault>
    ensures read { ReadsFile periodic_event_input text.now result }
    ensures sound { IfOk result (λ events. ArePeriodicEvents events.items) }
{
    let tests = EventTests;
    read_file(
        alloc,
        FileId::EventsP,
        text,
        &columns!(EventsP),
        Some(LIMIT),
        tests,
    )
}

// The rules of periodic events.
#[derive(Drop)]
struct EventTests;

impl RowTests<PeriodicEvent> for EventTests {
    ghost rules = { λ _. own_place (λ event. event.id) ∷ [] };

    ghost Knows = { λ _ _. ⊤ };

    fn test(
        &mut self,
        before: &[PeriodicEvent],
        row: &PeriodicEvent,
    ) -> Result<Option<RowWhy>, NoMemory> {
        let is_gap = !is_next_place(row.id, before.len());
        Ok(is_gap.then_some(RowWhy::OrderGap))
    }
}
