// The stage that makes the periodic events and activities of a line concept.
ghost use Rattle.std.specs.Prelude.{◌≡◌, ◌≤◌, length, All, IfOk};
ghost use Rattle.tables.specs.declared.counted.Counted.{Counted};
ghost use Rattle.giv_files.specs.declared.stage.Stage.TheVariants as stages;
ghost use Rattle.tables.specs.declared.refusal.Refusal.TheVariants as refusals;
ghost use Rattle.tables.specs.declared.refusal.StageFault.TheVariants as faults;
ghost use Rattle.tables.specs.Inputs.{UnlessFault};
ghost use Rattle.giv_files.specs.Settings.{Fits};
ghost use Rattle.giv_files.specs.StageCalls.{StageGives, TakesSteps};
ghost use Rattle.event_activity.specs.Activities.{concept_activities};
ghost use Rattle.event_activity.specs.EanStage.{ean_made, ean_stage, long_activities, rows_of};
ghost use Rattle.event_activity.specs.Fitting.{AreTimely, IsNumbered};
ghost use Rattle.event_activity.specs.RightEan.{EanIsRight};

use crate::activities::{activity_count, concept_activities};
use crate::files::{ean_made, rows_of};
use crate::run_event::RunEvent;
use crate::runs::{concept_events, event_count};
use giv_files::{Bundle, Made, Settings};
use line_walks::Pool;
use plan_num::{Ledger, Steps};
use ptn_network::Network;
use std::alloc::Global;
use tables::{Counted, Refusal, StageFault};

const MOST_EVENTS: usize = 4_000;

const MOST_ACTIVITIES: usize = 200_000;

/// The periodic events and activities of a line concept, from the settings and the texts of stops,
/// edges and the concept. It takes one step.
pub fn make_ean<L: Ledger>(
    alloc: Global,
    bundle: &Bundle,
    steps: &mut Steps<L>,
) -> Result<Made, StageFault>
    requires stage { bundle.now.stage ≡ stages.Ean }
    requires fits { Fits bundle.now }
    ensures made { StageGives (ean_stage bundle.now) result }
    ensures right { IfOk result (λ made. EanIsRight bundle.now made) }
    ensures steps { TakesSteps 1 steps.old steps.new result }
{
    steps.tick();
    ean_of_bundle(alloc, bundle)
}

// What the stage gives.
fn ean_of_bundle(alloc: Global, bundle: &Bundle) -> Result<Made, StageFault>
    requires stage { bundle.now.stage ≡ stages.Ean }
    requires fits { Fits bundle.now }
    ensures { StageGives (ean_stage bundle.now) result }
{
    let network = Network::from_texts(alloc, bundle.input(0), bundle.input(1))?;
    let pool = Pool::from_concept(alloc, &network, bundle.input(2))?;
    let event_count = event_count(&network, &pool);
    if event_count > MOST_EVENTS {
        return Err(too_many(Counted::PeriodicEvents, event_count));
    }
    let events = concept_events(alloc, &network, &pool)?;
    ean_of_events(alloc, bundle.settings(), &events)
}

// What is made of events, or the refusal of too many activities between them.
fn ean_of_events(
    alloc: Global,
    settings: &Settings,
    events: &[RunEvent],
) -> Result<Made, StageFault>
    requires settings { AreTimely settings.now }
    requires events { All (IsNumbered (length events.now)) events.now }
    requires few { length events.now ≤ 4000 }
    ensures { UnlessFault (long_activities (concept_activities settings.now events.now))
        (λ made. made ≡ ean_made (rows_of events.now)
        (concept_activities settings.now events.now)) result }
{
    let activity_count = activity_count(alloc, settings, events)?;
    if activity_count > MOST_ACTIVITIES {
        return Err(too_many(Counted::PeriodicActivities, activity_count));
    }
    let activities = concept_activities(alloc, settings, events)?;
    let rows = rows_of(alloc, events)?;
    Ok(ean_made(alloc, &rows, &activities)?)
}

// The refusal of a list that would be too long.
fn too_many(what: Counted, count: usize) -> StageFault
    ensures { result ≡ faults.Refused (refusals.TooMany what count) }
{
    StageFault::Refused(Refusal::TooMany {
        what,
        count: count as u64,
    })
}
