// Reading expanded events.
ghost use Rattle.std.specs.Prelude.{◌≡◌, [], ◌∷◌, ⊤, IfOk};
ghost use Rattle.tables.specs.RowsOfTables.{ReadsFile};
ghost use Rattle.event_tables.specs.ExpandedFiles.{expanded_event_input, AreExpandedEvents};
ghost use Rattle.event_tables.specs.Places.{own_place};

use crate::expanded_event::ExpandedEvent;
use crate::place::is_next_place;
use plan_num::NoMemory;
use std::alloc::Global;
use tables::{Counted, FileId, RowLimit, RowTests, RowWhy, StageFault, columns, read_file};

const LIMIT: RowLimit = RowLimit {
    what: Counted::ExpandedEvents,
    most: 100_000,
};

/// The expanded events of a text, or its first fault.
pub fn expanded_events(alloc: Global, text: &[u8]) -> Result<Vec<ExpandedEvent>, StageFault>
    ensures read { ReadsFile expanded_event_input text.now result }
    ensures sound { IfOk result (λ events. AreExpandedEvents events.items) }
{
    let tests = EventTests;
    read_file(
        alloc,
        FileId::EventsX,
        text,
        &columns!(EventsX),
        Some(LIMIT),
        tests,
    )
}

// The rules of expanded events.
#[derive(Drop)]
struct EventTests;

impl RowTests<ExpandedEvent> for EventTests {
    ghost rules = { λ _. own_place (λ event. event.id) ∷ [] };

    ghost Knows = { λ _ _. ⊤ };

    fn test(
        &mut self,
        before: &[ExpandedEvent],
        row: &ExpandedEvent,
    ) -> Result<Option<RowWhy>, NoMemory> {
        let is_gap = !is_next_place(row.id, before.len());
        Ok(is_gap.then_some(RowWhy::OrderGap))
    }
}
