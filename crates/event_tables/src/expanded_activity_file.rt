// Reading expanded activities.
ghost use Rattle.std.specs.Prelude.{◌≡◌, IfOk};
ghost use Rattle.tables.specs.RowsOfTables.{ReadsFile};
ghost use Rattle.event_tables.specs.ExpandedFiles.{expanded_activity_input, expanded_activity_rules};
ghost use Rattle.event_tables.specs.ExpandedFiles.{AreExpandedActivities};
ghost use Rattle.event_tables.specs.Places.{AreNumbered};

use crate::expanded_activity::ExpandedActivity;
use crate::expanded_event::ExpandedEvent;
use crate::forward::goes_forward;
use crate::place::{is_either_unknown, is_next_place};
use plan_num::NoMemory;
use std::alloc::Global;
use tables::{Counted, FileId, RowLimit, RowTests, RowWhy, StageFault, columns, read_file};

const LIMIT: RowLimit = RowLimit {
    what: Counted::ExpandedActivities,
    most: 500_000,
};

/// The expanded activities of a text between events, or its first fault.
pub fn expanded_activities(
    alloc: Global,
    events: &[ExpandedEvent],
    text: &[u8],
) -> Result<Vec<ExpandedActivity>, StageFault>
    requires { AreNumbered (λ event. event.id) events.now }
    ensures read { ReadsFile (expanded_activity_input events.now) text.now result }
    ensures sound { IfOk result (λ activities. AreExpandedActivities events.now activities.items) }
{
    read_file(
        alloc,
        FileId::ActivitiesX,
        text,
        &columns!(ActivitiesX),
        Some(LIMIT),
        ActivityTests { events },
    )
}

// The rules of expanded activities between events.
#[derive(Drop)]
struct ActivityTests<'a> {
    events: &'a [ExpandedEvent],
}

impl<'a> RowTests<ExpandedActivity> for ActivityTests<'a> {
    ghost rules = { λ tests. expanded_activity_rules tests.events.now };

    ghost Knows = { λ tests _. AreNumbered (λ event. event.id) tests.events.now };

    fn test(
        &mut self,
        before: &[ExpandedActivity],
        row: &ExpandedActivity,
    ) -> Result<Option<RowWhy>, NoMemory> {
        if !is_next_place(row.id, before.len()) {
            return Ok(Some(RowWhy::OrderGap));
        }
        if is_either_unknown(row.from, row.to, self.events.len()) {
            return Ok(Some(RowWhy::UnknownEvent));
        }
        if row.has_crossed_bounds() {
            return Ok(Some(RowWhy::BoundsCrossed));
        }
        if row.kind.is_sync() {
            return Ok(Some(RowWhy::StraySync));
        }
        let is_backward = !goes_forward(self.events, row.from, row.to);
        Ok(is_backward.then_some(RowWhy::Backward))
    }
}
