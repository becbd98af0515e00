// Reading delays.
ghost use Rattle.std.specs.Prelude.{ℕ, ◌≡◌, nat_eq, length, map, IfOk};
ghost use Rattle.std.specs.HashSet.{contains};
ghost use Rattle.std.specs.List.{list_any, range_with_len};
ghost use Rattle.tables.specs.RowsOfTables.{ReadsFile};
ghost use Rattle.event_tables.specs.Delays.{delay_input, event_delay_input, activity_delay_input, delay_rules};
ghost use Rattle.event_tables.specs.Delays.{AreDelays};
ghost use Rattle.event_tables.specs.ExpandedFiles.{expanded_event_ids, expanded_activity_ids};
ghost use Rattle.event_tables.specs.Places.{AreNumbered};

use crate::delay_row::DelayRow;
use crate::expanded_activity::ExpandedActivity;
use crate::expanded_event::ExpandedEvent;
use crate::place::is_unknown;
use plan_num::NoMemory;
use std::alloc::Global;
use std::collections::HashSet;
use tables::{FileId, RowTests, RowWhy, StageFault, columns, read_file};

/// The delays of the events of a day by a text, or its first fault.
pub fn event_delays(
    alloc: Global,
    events: &[ExpandedEvent],
    text: &[u8],
) -> Result<Vec<DelayRow>, StageFault>
    requires { AreNumbered (λ event. event.id) events.now }
    ensures read { ReadsFile (event_delay_input (expanded_event_ids events.now)) text.now result }
    ensures sound { IfOk result (λ rows. AreDelays (length events.now) rows.items) }
{
    read_delays(
        alloc,
        FileId::EventDelays,
        RowWhy::UnknownEvent,
        events.len(),
        text,
    )
}

/// The delays of the activities of a day by a text, or its first fault.
pub fn activity_delays(
    alloc: Global,
    activities: &[ExpandedActivity],
    text: &[u8],
) -> Result<Vec<DelayRow>, StageFault>
    requires { AreNumbered (λ activity. activity.id) activities.now }
    ensures read { ReadsFile (activity_delay_input (expanded_activity_ids activities.now)) text.now result }
    ensures sound { IfOk result (λ rows. AreDelays (length activities.now) rows.items) }
{
    read_delays(
        alloc,
        FileId::ActivityDelays,
        RowWhy::UnknownActivity,
        activities.len(),
        text,
    )
}

// The delays of so many events or activities by a text of a file, or its first fault.
fn read_delays(
    alloc: Global,
    file: FileId,
    unknown: RowWhy,
    count: usize,
    text: &[u8],
) -> Result<Vec<DelayRow>, StageFault>
    ensures read { ReadsFile (delay_input file unknown (range_with_len 1 count)) text.now result }
    ensures sound { IfOk result (λ rows. AreDelays count rows.items) }
{
    let tests = DelayTests {
        unknown,
        count,
        seen: HashSet::new(alloc),
    };
    read_file(alloc, file, text, &columns!(Delays), None, tests)
}

// The rules of delays of so many events or activities, with the ids so far.
#[derive(Drop)]
struct DelayTests {
    unknown: RowWhy,
    count: usize,
    seen: HashSet<u32>,
}

impl RowTests<DelayRow> for DelayTests {
    ghost rules = { λ tests. delay_rules tests.unknown (range_with_len 1 tests.count) };

    ghost Knows = { λ tests before. (id : ℕ) → contains nat_eq tests.seen id ≡ list_any
        (λ row. nat_eq id row.id) before };

    fn test(&mut self, _before: &[DelayRow], row: &DelayRow) -> Result<Option<RowWhy>, NoMemory> {
        if is_unknown(row.id, self.count) {
            return Ok(Some(self.unknown));
        }
        let is_new = self.seen.insert(row.id)?;
        Ok((!is_new).then_some(RowWhy::RepeatedId))
    }
}
