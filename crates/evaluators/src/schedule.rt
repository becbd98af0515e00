// Empty rides, and what a vehicle schedule costs.
ghost use Rattle.std.specs.Prelude.{◌≡◌, ◌≤◌, length};
ghost use Rattle.event_tables.specs.Kinds.{is_empty};
ghost use Rattle.evaluators.specs.Statistic.{empty_minutes, minutes_of_row, schedule_cost};

use crate::day_values::DayValues;
use event_tables::{ScheduleKind, ScheduleRow};

/// The minutes of all empty rides.
pub(crate) fn empty_minutes(rows: &[ScheduleRow]) -> u64
    requires { length rows.now ≤ 4000 }
    ensures value { result ≡ empty_minutes rows.now }
    ensures few { result ≤ 17179869180000 }
{
    let mut sum = 0;
    for row in rows {
        if is_empty(row.kind) {
            sum += minutes_of_row(row);
        }
    }
    sum
}

// Whether a row of a kind is an empty ride.
fn is_empty(kind: ScheduleKind) -> bool
    ensures { result ≡ is_empty kind }
{
    matches!(kind, ScheduleKind::Empty)
}

// The minutes of a row, from its start to its end.
fn minutes_of_row(row: &ScheduleRow) -> u64
    ensures value { result ≡ minutes_of_row row.now }
    ensures few { result ≤ 4294967295 }
{
    u64::from(row.run.end.time.saturating_sub(row.run.start.time))
}

/// The cost of the vehicle schedule in millionths, by the costs of a vehicle and of a minute.
pub(crate) fn schedule_cost(by_vehicle: u64, by_minute: u64, day: &DayValues) -> u128
    requires by_vehicle { by_vehicle ≤ 1000000000000 }
    requires by_minute { by_minute ≤ 1000000000000 }
    ensures { result ≡ schedule_cost by_vehicle by_minute day.now }
{
    u128::from(by_vehicle) * u128::from(day.vehicles)
        + u128::from(by_minute) * u128::from(day.empty_minutes)
}
