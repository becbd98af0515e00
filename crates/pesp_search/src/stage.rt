// The stage that searches a timetable.
ghost use Rattle.std.specs.Prelude.{◌≡◌, ◌≤◌, [], length, IfOk, IsTrue};
ghost use Rattle.giv_files.specs.declared.key.Key.TheVariants as keys;
ghost use Rattle.giv_files.specs.declared.stage.Stage.TheVariants as stages;
ghost use Rattle.tables.specs.Inputs.{UnlessFault};
ghost use Rattle.giv_files.specs.Keys.{has_key};
ghost use Rattle.giv_files.specs.Settings.{Fits};
ghost use Rattle.giv_files.specs.StageCalls.{StageGives, TakesSteps};
ghost use Rattle.pesp.specs.Listings.{ListingIsRight, ListingIsWhole};
ghost use Rattle.pesp_search.specs.RightTimetables.{IsNeverSpent, SaysNone, TimetableIsRight};
ghost use Rattle.pesp_search.specs.TimetableStage.{budget_in, period_in, problem_in, timetable_faults};
ghost use Rattle.pesp_search.specs.TimetableStage.{timetable_stage, timetable_work};

use crate::files::times_made;
use crate::searched::search_times;
use giv_files::{Bundle, Key, Made};
use pesp::Pesp;
use pesp_model::problem_of_texts;
use plan_num::{Ledger, Steps};
use std::alloc::Global;
use tables::StageFault;

/// Searches a periodic timetable over the inputs of the stage, with at most as many entries as the
/// budget allows (Serafini and Ukovich 1989 state the problem).
pub fn make_timetable<L: Ledger>(
    alloc: Global,
    bundle: &Bundle,
    steps: &mut Steps<L>,
) -> Result<Made, StageFault>
    requires stage { bundle.now.stage ≡ stages.Timetable }
    requires fits { Fits bundle.now }
    ensures made { StageGives (timetable_stage bundle.now) result }
    ensures right { IfOk result (TimetableIsRight bundle.now) }
    ensures none { SaysNone bundle.now result }
    ensures never_spent { IsNeverSpent bundle.now result }
    ensures finds { timetable_faults bundle.now ≡ [] → ListingIsRight (problem_in bundle.now) }
    ensures listed { ListingIsWhole (problem_in bundle.now) }
    ensures steps { TakesSteps (timetable_work bundle.now) steps.old steps.new result }
{
    searched_timetable(alloc, bundle, steps)
}

// What the stage gives, and in how many steps.
fn searched_timetable<L: Ledger>(
    alloc: Global,
    bundle: &Bundle,
    steps: &mut Steps<L>,
) -> Result<Made, StageFault>
    requires stage { bundle.now.stage ≡ stages.Timetable }
    requires fits { Fits bundle.now }
    ensures made { StageGives (timetable_stage bundle.now) result }
    ensures steps { TakesSteps (timetable_work bundle.now) steps.old steps.new result }
{
    steps.tick();
    let pesp = read_pesp(alloc, bundle)?;
    let found = search_times(alloc, &pesp, budget_of(bundle), steps)?;
    Ok(times_made(alloc, &found)?)
}

/// The problem of the first two inputs of a stage that has a period, or their first fault.
pub(crate) fn read_pesp(alloc: Global, bundle: &Bundle) -> Result<Pesp, StageFault>
    requires period { IsTrue (has_key bundle.now.stage keys.PeriodLength) }
    requires fits { Fits bundle.now }
    requires inputs { 2 ≤ length bundle.now.inputs }
    ensures read { UnlessFault (timetable_faults bundle.now)
        (λ pesp. pesp ≡ problem_in bundle.now) result }
    ensures period { IfOk result (λ pesp. pesp.period ≡ period_in bundle.now) }
{
    problem_of_texts(alloc, period_of(bundle), bundle.input(0), bundle.input(1))
}

/// The period of a bundle of a stage that has one, in minutes.
pub(crate) fn period_of(bundle: &Bundle) -> u32
    requires period { IsTrue (has_key bundle.now.stage keys.PeriodLength) }
    requires fits { Fits bundle.now }
    ensures value { result ≡ period_in bundle.now }
    ensures some { 1 ≤ result }
    ensures few { result ≤ 720 }
{
    bundle.settings().amount(Key::PeriodLength) as u32
}

// How many entries a search may take.
fn budget_of(bundle: &Bundle) -> u64
    requires stage { bundle.now.stage ≡ stages.Timetable }
    requires fits { Fits bundle.now }
    ensures { result ≡ budget_in bundle.now }
{
    bundle.settings().amount(Key::TimetableBudget)
}
