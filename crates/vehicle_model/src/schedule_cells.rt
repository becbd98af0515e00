// The rows of a schedule in a table.
ghost use Rattle.std.specs.Prelude.{◌≡◌, ◌+◌, ◌<◌, ◌≤◌, length, slice_index_or, All};
ghost use Rattle.event_tables.specs.Cells.{number_in, trip_end, schedule_row, AreSmall};
ghost use Rattle.event_tables.specs.Kinds.{schedule_kind_at};
ghost use Rattle.tables.specs.Tables.{no_row};

use event_tables::{ScheduleKind, ScheduleRow, Trip, TripEnd};
use tables::Table;

/// What a row of a table stands for.
pub(crate) fn row_at(table: &Table<13>, row: usize) -> ScheduleRow
    requires small { All (λ row. AreSmall row.cells) table.now }
    requires within { row < length table.now }
    ensures { result ≡ schedule_row (slice_index_or table.now row no_row).cells }
{
    ScheduleRow {
        circulation: number(table, row, 0),
        vehicle: number(table, row, 1),
        number: number(table, row, 2),
        kind: kind_at(number(table, row, 3)),
        run: Trip {
            start: end_at(table, row, 4),
            end: end_at(table, row, 8),
            line: number(table, row, 12),
        },
    }
}

// An end of a trip, from four columns.
fn end_at(table: &Table<13>, row: usize, column: usize) -> TripEnd
    requires small { All (λ row. AreSmall row.cells) table.now }
    requires within { row < length table.now }
    requires column { column + 4 ≤ 13 }
    ensures { result ≡ trip_end (slice_index_or table.now row no_row).cells column }
{
    TripEnd {
        event: number(table, row, column),
        periodic: number(table, row, column + 1),
        stop: number(table, row, column + 2),
        time: number(table, row, column + 3),
    }
}

// The number in a column.
fn number(table: &Table<13>, row: usize, column: usize) -> u32
    requires small { All (λ row. AreSmall row.cells) table.now }
    requires within { row < length table.now }
    requires column { column < 13 }
    ensures { result ≡ number_in (slice_index_or table.now row no_row).cells column }
{
    table.cell(row, column) as u32
}

// What the word at a place stands for.
fn kind_at(place: u32) -> ScheduleKind
    ensures { result ≡ schedule_kind_at place }
{
    match place {
        1 => ScheduleKind::Empty,
        _ => ScheduleKind::Trip,
    }
}
