// The stage that takes a timetable that a person gives.
ghost use Rattle.std.specs.Prelude.{◌≡◌, [], map, IfOk};
ghost use Rattle.giv_files.specs.declared.stage.Stage.TheVariants as stages;
ghost use Rattle.tables.specs.Inputs.{UnlessFault, input_faults};
ghost use Rattle.giv_files.specs.Settings.{Fits};
ghost use Rattle.giv_files.specs.StageCalls.{StageGives, TakesSteps, input_text};
ghost use Rattle.pesp_search.specs.Judged.{times_in};
ghost use Rattle.pesp_search.specs.PinnedTimetables.{pinned_input, pinned_timetable_stage};
ghost use Rattle.pesp_search.specs.RightTimetables.{TimetableIsRight};
ghost use Rattle.pesp_search.specs.TimetableStage.{timetable_faults};

use crate::files::times_kept;
use crate::stage::{period_of, read_pesp};
use event_tables::{PeriodicTime, periodic_events, periodic_times};
use giv_files::{Bundle, Made};
use plan_num::{Ledger, NoMemory, Steps};
use std::alloc::Global;
use tables::{FileId, Refusal, RowWhy, StageFault};

/// Takes the timetable that the last input of the stage gives: one time for each event, which keep
/// the bounds of each activity. Its file is written as that of a timetable that was searched.
pub fn take_timetable<L: Ledger>(
    alloc: Global,
    bundle: &Bundle,
    steps: &mut Steps<L>,
) -> Result<Made, StageFault>
    requires stage { bundle.now.stage ≡ stages.PinnedTimetable }
    requires fits { Fits bundle.now }
    ensures made { StageGives (pinned_timetable_stage bundle.now) result }
    ensures right { IfOk result (TimetableIsRight bundle.now) }
    ensures steps { TakesSteps 1 steps.old steps.new result }
{
    steps.tick();
    taken_timetable(alloc, bundle)
}

// What the stage gives.
fn taken_timetable(alloc: Global, bundle: &Bundle) -> Result<Made, StageFault>
    requires stage { bundle.now.stage ≡ stages.PinnedTimetable }
    requires fits { Fits bundle.now }
    ensures { StageGives (pinned_timetable_stage bundle.now) result }
{
    let pesp = read_pesp(alloc, bundle)?;
    let times = given_times(alloc, bundle)?;
    match pesp.first_violated(&times) {
        Some(_) => Err(StageFault::Refused(Refusal::BadRow {
            file: FileId::PinnedTimes,
            row: 0,
            why: RowWhy::NotFeasible,
        })),
        None => Ok(times_kept(alloc, &times)?),
    }
}

// The times of the last input, one for each event, or its first fault. The events, which had no
// fault as a part of the problem, are read once more for that.
fn given_times(alloc: Global, bundle: &Bundle) -> Result<Vec<u32>, StageFault>
    requires stage { bundle.now.stage ≡ stages.PinnedTimetable }
    requires fits { Fits bundle.now }
    requires read { timetable_faults bundle.now ≡ [] }
    ensures { UnlessFault (input_faults (pinned_input bundle.now) (input_text bundle.now 2))
        (λ times. times.items ≡ times_in (input_text bundle.now 2)) result }
{
    let events = periodic_events(alloc, bundle.input(0))?;
    let period = period_of(bundle);
    let rows = periodic_times(alloc, FileId::PinnedTimes, period, &events, bundle.input(2))?;
    Ok(times_of(alloc, &rows)?)
}

// The times of rows.
fn times_of(alloc: Global, rows: &[PeriodicTime]) -> Result<Vec<u32>, NoMemory>
    ensures { IfOk result (λ times. times.items ≡ map (λ row. row.time) rows.now) }
{
    let mut times = Vec::new(alloc);
    for row in rows {
        times.push(row.time)?;
    }
    Ok(times)
}
