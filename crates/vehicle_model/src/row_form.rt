// Tests of the rows of a schedule.
ghost use Rattle.std.specs.Prelude.{◌≡◌};
ghost use Rattle.event_tables.specs.Schedules.{is_empty_row};
ghost use Rattle.vehicle_model.specs.ReadSchedules.{begins, follows_trip, follows_empty};
ghost use Rattle.vehicle_model.specs.ReadSchedules.{is_next_row, same_end, same_run, leaves, takes};
ghost use Rattle.vehicle_model.specs.ReadSchedules.{goes_to};

use event_tables::{ScheduleKind, ScheduleRow, Trip, TripEnd};

/// Whether a row is an empty ride.
pub(crate) fn is_empty_row(row: &ScheduleRow) -> bool
    ensures { result ≡ is_empty_row row.now }
{
    matches!(row.kind, ScheduleKind::Empty)
}

/// Whether a row begins the next vehicle.
pub(crate) fn begins(before: Option<ScheduleRow>, row: &ScheduleRow) -> bool
    ensures { result ≡ begins before row.now }
{
    let last = match before {
        Some(before) => u64::from(before.vehicle),
        None => 0,
    };
    u64::from(row.vehicle) == last + 1 && row.number == 1
}

/// Whether a row stands behind a trip of its vehicle.
pub(crate) fn follows_trip(before: Option<ScheduleRow>, row: &ScheduleRow) -> bool
    ensures { result ≡ follows_trip before row.now }
{
    match before {
        Some(before) => !is_empty_row(&before) && is_next_row(&before, row),
        None => false,
    }
}

/// Whether a row stands behind an empty ride of its vehicle.
pub(crate) fn follows_empty(before: Option<ScheduleRow>, row: &ScheduleRow) -> bool
    ensures { result ≡ follows_empty before row.now }
{
    match before {
        Some(before) => is_empty_row(&before) && is_next_row(&before, row),
        None => false,
    }
}

// Whether a row is the next one of the vehicle of another.
fn is_next_row(before: &ScheduleRow, row: &ScheduleRow) -> bool
    ensures { result ≡ is_next_row before.now row.now }
{
    row.vehicle == before.vehicle && u64::from(row.number) == u64::from(before.number) + 1
}

/// Whether two trips are the same.
pub(crate) fn same_run(a: &Trip, b: &Trip) -> bool
    ensures { result ≡ same_run a.now b.now }
{
    same_end(&a.start, &b.start) && same_end(&a.end, &b.end) && a.line == b.line
}

// Whether two ends of trips are the same.
fn same_end(a: &TripEnd, b: &TripEnd) -> bool
    ensures { result ≡ same_end a.now b.now }
{
    a.event == b.event && a.periodic == b.periodic && a.stop == b.stop && a.time == b.time
}

/// Whether an empty ride leaves where and when a trip ends, with line 0.
pub(crate) fn leaves(before: &Trip, ride: &Trip) -> bool
    ensures { result ≡ leaves before.now ride.now }
{
    same_end(&ride.start, &before.end) && ride.line == 0
}

/// Whether an empty ride goes to where a trip starts, in the dead minutes if there are some.
pub(crate) fn goes_to(minutes: Option<u64>, after: &Trip, ride: &Trip) -> bool
    ensures { result ≡ goes_to minutes after.now ride.now }
{
    ride.end.event == after.start.event
        && ride.end.periodic == after.start.periodic
        && ride.end.stop == after.start.stop
        && takes(minutes, ride)
}

// Whether an empty ride takes so many minutes, if there are some.
fn takes(minutes: Option<u64>, ride: &Trip) -> bool
    ensures { result ≡ takes minutes ride.now }
{
    match minutes {
        Some(minutes) => {
            u128::from(ride.end.time) == u128::from(ride.start.time) + u128::from(minutes)
        }
        None => true,
    }
}
