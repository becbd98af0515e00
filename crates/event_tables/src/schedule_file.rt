// Reading the rows of a vehicle schedule.
ghost use Rattle.std.specs.Prelude.{◌≡◌, ◌||◌, false, All, filter, length, slice_get, IfOk, [], ◌∷◌};
ghost use Rattle.std.specs.List.{range_with_len};
ghost use Rattle.tables.specs.Inputs.{limit_faults};
ghost use Rattle.event_tables.specs.Cells.{schedule_row, AreSmall};
ghost use Rattle.event_tables.specs.Places.{AreNumbered, is_none_of};
ghost use Rattle.tables.specs.RowsOfTables.{ReadsFile, records_by};
ghost use Rattle.event_tables.specs.Schedules.{schedule_input, schedule_rules, kind_limit, is_trip_row, is_empty_row};
ghost use Rattle.event_tables.specs.Schedules.{ends_early, lacks_room, goes_back, AreScheduleRows};

use crate::expanded_event::ExpandedEvent;
use crate::forward::{event_of, goes_forward};
use crate::place::is_either_unknown;
use crate::schedule_row::ScheduleRow;
use plan_num::NoMemory;
use std::alloc::Global;
use tables::{
    Counted, FileId, Record, Refusal, RowLimit, RowTests, RowWhy, StageFault, Table, columns,
    read_cells, read_records, too_many,
};

// Of each kind there may be so many rows.
const LIMIT: RowLimit = RowLimit {
    what: Counted::Trips,
    most: 2_000,
};

/// The rows of a vehicle schedule over the events of a day, by a text, or its first fault.
pub fn schedule_rows(
    alloc: Global,
    events: &[ExpandedEvent],
    text: &[u8],
) -> Result<Vec<ScheduleRow>, StageFault>
    requires { AreNumbered (λ event. event.id) events.now }
    ensures read { ReadsFile (schedule_input events.now) text.now result }
    ensures sound { IfOk result (λ rows. AreScheduleRows events.now rows.items) }
{
    let table = read_cells(alloc, FileId::Schedule, text, &columns!(Schedule))?;
    if let Some(refusal) = too_many_of_a_kind(&table) {
        return Err(StageFault::Refused(refusal));
    }
    read_records(alloc, FileId::Schedule, &table, ScheduleTests { events })
}

// The refusal of a table with too many trips or, where it has not, with too many empty rides.
fn too_many_of_a_kind(table: &Table<13>) -> Option<Refusal>
    requires { All (λ row. AreSmall row.cells) table.now }
    ensures { result ≡ slice_get (limit_faults (kind_limit is_trip_row ∷ kind_limit is_empty_row
        ∷ []) (records_by schedule_row table.now)) 0 }
{
    let empty = count_empty(table);
    too_many(Some(LIMIT), table.len() - empty).or(too_many(Some(LIMIT), empty))
}

// How many rows are empty rides.
fn count_empty(table: &Table<13>) -> usize
    requires { All (λ row. AreSmall row.cells) table.now }
    ensures { result ≡ length (filter is_empty_row (records_by schedule_row table.now)) }
{
    let mut count = 0;
    for i in 0..table.len() {
        if ScheduleRow::read(table, i).kind.is_empty() {
            count += 1;
        }
    }
    count
}

// The rules of rows over the events of a day.
#[derive(Drop)]
struct ScheduleTests<'a> {
    events: &'a [ExpandedEvent],
}

impl<'a> RowTests<ScheduleRow> for ScheduleTests<'a> {
    ghost rules = { λ tests. schedule_rules tests.events.now };

    ghost Knows = { λ tests _. AreNumbered (λ event. event.id) tests.events.now };

    fn test(
        &mut self,
        _before: &[ScheduleRow],
        row: &ScheduleRow,
    ) -> Result<Option<RowWhy>, NoMemory> {
        if is_either_unknown(row.run.start.event, row.run.end.event, self.events.len()) {
            return Ok(Some(RowWhy::UnknownEvent));
        }
        let is_backward = row.kind.is_empty() && is_backward(self.events, row);
        Ok(is_backward.then_some(RowWhy::Backward))
    }
}

// Whether a row is backward in one of three ways, taken for an empty ride.
fn is_backward(events: &[ExpandedEvent], row: &ScheduleRow) -> bool
    requires numbered { AreNumbered (λ event. event.id) events.now }
    requires start_known { is_none_of (range_with_len 1 (length events.now)) row.now.run.start.event
        ≡ false }
    requires end_known { is_none_of (range_with_len 1 (length events.now)) row.now.run.end.event
        ≡ false }
    ensures { result
        ≡ (ends_early row.now || lacks_room events.now row.now || goes_back events.now row.now) }
{
    let (start, end) = (row.run.start.event, row.run.end.event);
    row.run.end.time < row.run.start.time
        || lacks_room(events, row)
        || !goes_forward(events, start, end)
}

// Whether a row has more minutes than there are between its events as planned.
fn lacks_room(events: &[ExpandedEvent], row: &ScheduleRow) -> bool
    requires numbered { AreNumbered (λ event. event.id) events.now }
    requires start_known { is_none_of (range_with_len 1 (length events.now)) row.now.run.start.event
        ≡ false }
    requires end_known { is_none_of (range_with_len 1 (length events.now)) row.now.run.end.event
        ≡ false }
    ensures { result ≡ lacks_room events.now row.now }
{
    let start = event_of(events, row.run.start.event);
    let end = event_of(events, row.run.end.event);
    let minutes = row.run.end.time.saturating_sub(row.run.start.time);
    u64::from(end.time) < u64::from(start.time) + u64::from(minutes)
}
