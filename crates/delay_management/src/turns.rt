// Turns of vehicles between trips.
ghost use Rattle.std.specs.Prelude.{◌≡◌, ◌≤◌, filter, map, All, IfOk};
ghost use Rattle.event_tables.specs.Kinds.{is_empty};
ghost use Rattle.event_tables.specs.Schedules.{is_empty_row};
ghost use Rattle.delay_management.specs.InputProblems.{turn_of};

use event_tables::{ScheduleKind, ScheduleRow};
use plan_num::NoMemory;
use propagation::Step;
use std::alloc::Global;

/// The turns of the empty rides of a vehicle schedule, with a turnover time.
pub(crate) fn turns_of(
    alloc: Global,
    rows: &[ScheduleRow],
    turnover: u32,
) -> Result<Vec<Step>, NoMemory>
    requires { All (λ row. (1 ≤ row.run.start.event) × (1 ≤ row.run.end.event)) rows.now }
    ensures { IfOk result
        (λ turns. turns.items ≡ map (turn_of turnover) (filter is_empty_row rows.now)) }
{
    let mut turns = Vec::new(alloc);
    for row in rows {
        if is_empty(row.kind) {
            turns.push(turn_of(row, turnover))?;
        }
    }
    Ok(turns)
}

// Whether a row of a kind is an empty ride.
fn is_empty(kind: ScheduleKind) -> bool
    ensures { result ≡ is_empty kind }
{
    matches!(kind, ScheduleKind::Empty)
}

// The turn of an empty ride.
fn turn_of(row: &ScheduleRow, turnover: u32) -> Step
    requires start { 1 ≤ row.now.run.start.event }
    requires end { 1 ≤ row.now.run.end.event }
    ensures { result ≡ turn_of turnover row.now }
{
    Step {
        from: row.run.start.event - 1,
        to: row.run.end.event - 1,
        lower: row.run.end.time.saturating_sub(row.run.start.time),
        extra: turnover,
    }
}
