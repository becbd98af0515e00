// Reading periodic activities.
ghost use Rattle.std.specs.Prelude.{◌≡◌, List, length, ⊤, IfOk};
ghost use Rattle.std.specs.List.{range_with_len};
ghost use Rattle.tables.specs.RowsOfTables.{ReadsFile};
ghost use Rattle.event_tables.specs.PeriodicFiles.{periodic_activity_input, periodic_activity_rules};
ghost use Rattle.event_tables.specs.PeriodicFiles.{periodic_event_ids, ArePeriodicActivities};
ghost use Rattle.event_tables.specs.Places.{AreNumbered};

use crate::periodic_activity::PeriodicActivity;
use crate::periodic_event::PeriodicEvent;
use crate::place::{is_either_unknown, is_next_place};
use plan_num::NoMemory;
use std::alloc::Global;
use tables::{Counted, FileId, RowLimit, RowTests, RowWhy, StageFault, columns, read_file};

const LIMIT: RowLimit = RowLimit {
    what: Counted::PeriodicActivities,
    most: 200_000,
};

/// The periodic activities of a text between events, or its first fault.
pub fn periodic_activities(
    alloc: Global,
    events: &[PeriodicEvent],
    text: &[u8],
) -> Result<Vec<PeriodicActivity>, StageFault>
    requires { AreNumbered (λ event. event.id) events.now }
    ensures read { ReadsFile (periodic_activity_input (periodic_event_ids events.now)) text.now result }
    ensures sound { IfOk result
        (λ activities. ArePeriodicActivities (length events.now) activities.items) }
{
    let tests = ActivityTests {
        events: events.len(),
    };
    read_file(
        alloc,
        FileId::ActivitiesP,
        text,
        &columns!(ActivitiesP),
        Some(LIMIT),
        tests,
    )
}

// The rules of periodic activities between so many events.
#[derive(Drop)]
struct ActivityTests {
    events: usize,
}

impl RowTests<PeriodicActivity> for ActivityTests {
    ghost rules = { λ tests. periodic_activity_rules (range_with_len 1 tests.events) };

    ghost Knows = { λ _ _. ⊤ };

    fn test(
        &mut self,
        before: &[PeriodicActivity],
        row: &PeriodicActivity,
    ) -> Result<Option<RowWhy>, NoMemory> {
        if !is_next_place(row.id, before.len()) {
            return Ok(Some(RowWhy::OrderGap));
        }
        if is_either_unknown(row.from, row.to, self.events) {
            return Ok(Some(RowWhy::UnknownEvent));
        }
        Ok(row.has_crossed_bounds().then_some(RowWhy::BoundsCrossed))
    }
}
