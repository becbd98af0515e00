// The texts of the files that are made.
ghost use Rattle.std.specs.Prelude.{◌≡◌, All, IfOk};
ghost use Rattle.tables.specs.Columns.{events_p_columns, activities_p_columns, times_p_columns, events_x_columns};
ghost use Rattle.tables.specs.Columns.{activities_x_columns, trips_columns, schedule_columns, disposed_columns};
ghost use Rattle.tables.specs.Writing.{InColumns};
ghost use Rattle.event_tables.specs.Cells.{periodic_event, periodic_activity, periodic_time, expanded_event};
ghost use Rattle.event_tables.specs.Cells.{expanded_activity, trip, schedule_row, disposed_time, periodic_event_cells};
ghost use Rattle.event_tables.specs.Cells.{periodic_activity_cells, periodic_time_cells, expanded_event_cells};
ghost use Rattle.event_tables.specs.Cells.{expanded_activity_cells, trip_cells, schedule_cells, disposed_time_cells};
ghost use Rattle.event_tables.specs.Headers.{periodic_event_header, periodic_activity_header, periodic_time_header};
ghost use Rattle.event_tables.specs.Headers.{expanded_event_header, expanded_activity_header, trip_header};
ghost use Rattle.event_tables.specs.Headers.{schedule_header, disposed_time_header};
ghost use Rattle.tables.specs.RowsOfTables.{ReadsAs, file_text};

use crate::disposed_time::DisposedTime;
use crate::expanded_activity::ExpandedActivity;
use crate::expanded_event::ExpandedEvent;
use crate::periodic_activity::PeriodicActivity;
use crate::periodic_event::PeriodicEvent;
use crate::periodic_time::PeriodicTime;
use crate::schedule_row::ScheduleRow;
use crate::trip::Trip;
use crate::writing::write_records;
use plan_num::{NoMemory, Text};
use std::alloc::Global;
use tables::columns;

/// The text of the file of periodic events. It is read back to them.
pub fn periodic_events_text(alloc: Global, events: &[PeriodicEvent]) -> Result<Text, NoMemory>
    requires { All (λ row. InColumns events_p_columns (periodic_event_cells row)) events.now }
    ensures text { IfOk result
        (λ text. text ≡ file_text periodic_event_header events_p_columns periodic_event_cells events.now) }
    ensures back { IfOk result (ReadsAs events_p_columns periodic_event events.now) }
{
    write_records(
        alloc,
        b"# event-id; type; stop-id; line-id; direction; repetition",
        &columns!(EventsP),
        events,
    )
}

/// The text of the file of periodic activities. It is read back to them.
pub fn periodic_activities_text(
    alloc: Global,
    activities: &[PeriodicActivity],
) -> Result<Text, NoMemory>
    requires { All
        (λ row. InColumns activities_p_columns (periodic_activity_cells row)) activities.now }
    ensures text { IfOk result
        (λ text. text ≡ file_text periodic_activity_header activities_p_columns periodic_activity_cells activities.now) }
    ensures back { IfOk result (ReadsAs activities_p_columns periodic_activity activities.now) }
{
    write_records(
        alloc,
        b"# activity-id; type; from-event; to-event; lower-bound; upper-bound",
        &columns!(ActivitiesP),
        activities,
    )
}

/// The text of the file of periodic times. It is read back to them.
pub fn periodic_times_text(alloc: Global, times: &[PeriodicTime]) -> Result<Text, NoMemory>
    requires { All (λ row. InColumns times_p_columns (periodic_time_cells row)) times.now }
    ensures text { IfOk result
        (λ text. text ≡ file_text periodic_time_header times_p_columns periodic_time_cells times.now) }
    ensures back { IfOk result (ReadsAs times_p_columns periodic_time times.now) }
{
    write_records(alloc, b"# event-id; time", &columns!(TimesP), times)
}

/// The text of the file of the events of a day. It is read back to them.
pub fn expanded_events_text(alloc: Global, events: &[ExpandedEvent]) -> Result<Text, NoMemory>
    requires { All (λ row. InColumns events_x_columns (expanded_event_cells row)) events.now }
    ensures text { IfOk result
        (λ text. text ≡ file_text expanded_event_header events_x_columns expanded_event_cells events.now) }
    ensures back { IfOk result (ReadsAs events_x_columns expanded_event events.now) }
{
    write_records(
        alloc,
        b"# event-id; periodic-id; type; time; stop-id",
        &columns!(EventsX),
        events,
    )
}

/// The text of the file of the activities of a day. It is read back to them.
pub fn expanded_activities_text(
    alloc: Global,
    activities: &[ExpandedActivity],
) -> Result<Text, NoMemory>
    requires { All
        (λ row. InColumns activities_x_columns (expanded_activity_cells row)) activities.now }
    ensures text { IfOk result
        (λ text. text ≡ file_text expanded_activity_header activities_x_columns expanded_activity_cells activities.now) }
    ensures back { IfOk result (ReadsAs activities_x_columns expanded_activity activities.now) }
{
    write_records(
        alloc,
        b"# activity-id; periodic-id; type; from-event; to-event; lower-bound; upper-bound",
        &columns!(ActivitiesX),
        activities,
    )
}

/// The text of the file of trips. It is read back to them.
pub fn trips_text(alloc: Global, trips: &[Trip]) -> Result<Text, NoMemory>
    requires { All (λ row. InColumns trips_columns (trip_cells row)) trips.now }
    ensures text { IfOk result
        (λ text. text ≡ file_text trip_header trips_columns trip_cells trips.now) }
    ensures back { IfOk result (ReadsAs trips_columns trip trips.now) }
{
    write_records(
        alloc,
        b"# start-id; periodic-start-id; start-stop; start-time; end-id; periodic-end-id; end-stop; end-time; line",
        &columns!(Trips),
        trips,
    )
}

/// The text of the file of the rows of a vehicle schedule. It is read back to them.
pub fn schedule_text(alloc: Global, rows: &[ScheduleRow]) -> Result<Text, NoMemory>
    requires { All (λ row. InColumns schedule_columns (schedule_cells row)) rows.now }
    ensures text { IfOk result
        (λ text. text ≡ file_text schedule_header schedule_columns schedule_cells rows.now) }
    ensures back { IfOk result (ReadsAs schedule_columns schedule_row rows.now) }
{
    write_records(
        alloc,
        b"# circulation; vehicle; number; type; start-id; periodic-start-id; start-stop; start-time; end-id; periodic-end-id; end-stop; end-time; line",
        &columns!(Schedule),
        rows,
    )
}

/// The text of the file of disposed times. It is read back to them.
pub fn disposed_times_text(alloc: Global, times: &[DisposedTime]) -> Result<Text, NoMemory>
    requires { All (λ row. InColumns disposed_columns (disposed_time_cells row)) times.now }
    ensures text { IfOk result
        (λ text. text ≡ file_text disposed_time_header disposed_columns disposed_time_cells times.now) }
    ensures back { IfOk result (ReadsAs disposed_columns disposed_time times.now) }
{
    write_records(alloc, b"# event-id; time", &columns!(Disposed), times)
}
