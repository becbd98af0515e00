// What the input texts of the stage of dispositions hold.
ghost use Rattle.std.specs.Prelude.{◌≡◌, ◌≤◌, length, IfOk};
ghost use Rattle.giv_files.specs.declared.stage.Stage.TheVariants as stages;
ghost use Rattle.tables.specs.Inputs.{UnlessFault};
ghost use Rattle.giv_files.specs.Settings.{Fits};
ghost use Rattle.event_tables.specs.Delays.{AreDelays};
ghost use Rattle.event_tables.specs.ExpandedFiles.{AreExpandedActivities, AreExpandedEvents};
ghost use Rattle.event_tables.specs.Places.{AreNumbered};
ghost use Rattle.event_tables.specs.Schedules.{AreScheduleRows};
ghost use Rattle.delay_management.specs.DispositionStage.{activities_in, activity_delay_faults, activity_delays_in};
ghost use Rattle.delay_management.specs.DispositionStage.{activity_faults, event_delay_faults, event_delays_in};
ghost use Rattle.delay_management.specs.DispositionStage.{event_faults, events_in, schedule_faults, schedule_in};
ghost use Rattle.delay_management.specs.DispositionStage.{turnover_in};

use event_tables::{
    DelayRow, ExpandedActivity, ExpandedEvent, ScheduleRow, activity_delays, event_delays,
    expanded_activities, expanded_events, schedule_rows,
};
use giv_files::{Bundle, Key};
use std::alloc::Global;
use tables::StageFault;

/// The events, or the first fault of their text.
#[tactic(auto, unfolding(crate::specs::DispositionStage::events_in))]
pub(crate) fn events_of(alloc: Global, bundle: &Bundle) -> Result<Vec<ExpandedEvent>, StageFault>
    requires stage { bundle.now.stage ≡ stages.Disposition }
    requires fits { Fits bundle.now }
    ensures read { UnlessFault (event_faults bundle.now)
        (λ events. events.items ≡ events_in bundle.now) result }
    ensures sound { IfOk result (λ events. AreExpandedEvents events.items) }
{
    expanded_events(alloc, bundle.input(0))
}

/// The activities between the events, or the first fault of their text.
#[tactic(auto, unfolding(crate::specs::DispositionStage::activities_in))]
pub(crate) fn activities_of(
    alloc: Global,
    bundle: &Bundle,
    events: &[ExpandedEvent],
) -> Result<Vec<ExpandedActivity>, StageFault>
    requires stage { bundle.now.stage ≡ stages.Disposition }
    requires fits { Fits bundle.now }
    requires events { events.now ≡ events_in bundle.now }
    requires sound { AreExpandedEvents events.now }
    ensures read { UnlessFault (activity_faults bundle.now)
        (λ activities. activities.items ≡ activities_in bundle.now) result }
    ensures sound { IfOk result (λ activities. AreExpandedActivities events.now activities.items) }
{
    expanded_activities(alloc, events, bundle.input(1))
}

/// The rows of the vehicle schedule, or the first fault of its text.
#[tactic(auto, unfolding(crate::specs::DispositionStage::schedule_in))]
pub(crate) fn schedule_of(
    alloc: Global,
    bundle: &Bundle,
    events: &[ExpandedEvent],
) -> Result<Vec<ScheduleRow>, StageFault>
    requires stage { bundle.now.stage ≡ stages.Disposition }
    requires fits { Fits bundle.now }
    requires events { events.now ≡ events_in bundle.now }
    requires sound { AreExpandedEvents events.now }
    ensures read { UnlessFault (schedule_faults bundle.now)
        (λ rows. rows.items ≡ schedule_in bundle.now) result }
    ensures sound { IfOk result (λ rows. AreScheduleRows events.now rows.items) }
{
    schedule_rows(alloc, events, bundle.input(2))
}

/// The delays of events, or the first fault of their text.
#[tactic(auto, unfolding(crate::specs::DispositionStage::event_delays_in))]
pub(crate) fn event_delays_of(
    alloc: Global,
    bundle: &Bundle,
    events: &[ExpandedEvent],
) -> Result<Vec<DelayRow>, StageFault>
    requires stage { bundle.now.stage ≡ stages.Disposition }
    requires fits { Fits bundle.now }
    requires events { events.now ≡ events_in bundle.now }
    requires sound { AreExpandedEvents events.now }
    ensures read { UnlessFault (event_delay_faults bundle.now)
        (λ rows. rows.items ≡ event_delays_in bundle.now) result }
    ensures sound { IfOk result (λ rows. AreDelays (length events.now) rows.items) }
{
    event_delays(alloc, events, bundle.input(3))
}

/// The delays of activities, or the first fault of their text.
#[tactic(auto, unfolding(crate::specs::DispositionStage::activity_delays_in))]
pub(crate) fn activity_delays_of(
    alloc: Global,
    bundle: &Bundle,
    activities: &[ExpandedActivity],
) -> Result<Vec<DelayRow>, StageFault>
    requires stage { bundle.now.stage ≡ stages.Disposition }
    requires fits { Fits bundle.now }
    requires activities { activities.now ≡ activities_in bundle.now }
    requires numbered { AreNumbered (λ activity. activity.id) activities.now }
    ensures read { UnlessFault (activity_delay_faults bundle.now)
        (λ rows. rows.items ≡ activity_delays_in bundle.now) result }
    ensures sound { IfOk result (λ rows. AreDelays (length activities.now) rows.items) }
{
    activity_delays(alloc, activities, bundle.input(4))
}

/// The turnover time of a bundle of the stage, in minutes.
pub(crate) fn turnover_of(bundle: &Bundle) -> u32
    requires stage { bundle.now.stage ≡ stages.Disposition }
    requires fits { Fits bundle.now }
    ensures minutes { result ≡ turnover_in bundle.now }
    ensures few { result ≤ 10000 }
{
    bundle.settings().amount(Key::VsTurnOverTime) as u32
}
