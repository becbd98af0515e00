// Bounds of activities.
ghost use Rattle.std.specs.Prelude.{◌≡◌, ◌≤◌, ◌/◌, ◌-◌};
ghost use Rattle.std.specs.Int.{div_ceil};
ghost use Rattle.giv_files.specs.declared.key.Key.TheVariants as keys;
ghost use Rattle.giv_files.specs.Settings.{amount};
ghost use Rattle.event_activity.specs.Activities.{bounds_from};
ghost use Rattle.event_activity.specs.Fitting.{AreBounds, AreTimely, IsDriven, drive_bounds};

use crate::run_event::RunEvent;
use event_tables::PeriodicKind;
use giv_files::{Key, Settings};
use ptn_network::Edge;

/// The least and the greatest minutes of an activity.
#[derive(Clone, Copy)]
pub(crate) struct Bounds {
    pub(crate) lower: u32,
    pub(crate) upper: u32,
}

/// The bounds of a kind of activities, by the event from which one of them goes.
pub(crate) fn bounds_from(settings: &Settings, kind: PeriodicKind, event: &RunEvent) -> Bounds
    requires settings { AreTimely settings.now }
    requires event { IsDriven event.now }
    ensures { result ≡ bounds_from settings.now kind event.now }
{
    match kind {
        PeriodicKind::Drive => drive_bounds(&event.edge),
        PeriodicKind::Wait => wait_bounds(settings),
        PeriodicKind::Change => change_bounds(settings),
        PeriodicKind::Sync => sync_bounds(settings, event.frequency),
        PeriodicKind::Headway => headway_bounds(settings),
    }
}

// The bounds of drives over an edge.
fn drive_bounds(edge: &Edge) -> Bounds
    requires { AreBounds (drive_bounds edge.now) }
    ensures { result ≡ drive_bounds edge.now }
{
    Bounds {
        lower: edge.lower.unsigned_abs() as u32,
        upper: edge.upper.unsigned_abs() as u32,
    }
}

// The bounds of waits.
fn wait_bounds(settings: &Settings) -> Bounds
    requires { AreTimely settings.now }
    ensures { result ≡ record {
      lower = amount settings.now keys.EanDefaultMinimalWaitingTime;
      upper = amount settings.now keys.EanDefaultMaximalWaitingTime;
    } }
{
    Bounds {
        lower: settings.amount(Key::EanDefaultMinimalWaitingTime) as u32,
        upper: settings.amount(Key::EanDefaultMaximalWaitingTime) as u32,
    }
}

// The bounds of changes.
fn change_bounds(settings: &Settings) -> Bounds
    requires { AreTimely settings.now }
    ensures { result ≡ record {
      lower = amount settings.now keys.EanDefaultMinimalChangeTime;
      upper = amount settings.now keys.EanDefaultMaximalChangeTime;
    } }
{
    Bounds {
        lower: settings.amount(Key::EanDefaultMinimalChangeTime) as u32,
        upper: settings.amount(Key::EanDefaultMaximalChangeTime) as u32,
    }
}

// The bounds of syncs of a line with a frequency.
fn sync_bounds(settings: &Settings, frequency: u32) -> Bounds
    requires settings { AreTimely settings.now }
    requires served { 1 ≤ frequency }
    ensures { result ≡ record {
      lower = amount settings.now keys.PeriodLength / frequency;
      upper = div_ceil (amount settings.now keys.PeriodLength) frequency;
    } }
{
    let period = settings.amount(Key::PeriodLength) as u32;
    Bounds {
        lower: period / frequency,
        upper: period.div_ceil(frequency),
    }
}

// The bounds of headways: the one of two departures is so many minutes after the other, or before it.
fn headway_bounds(settings: &Settings) -> Bounds
    requires { AreTimely settings.now }
    ensures { result ≡ record {
      lower = amount settings.now keys.EanHeadway;
      upper = amount settings.now keys.PeriodLength - amount settings.now keys.EanHeadway;
    } }
{
    let headway = settings.amount(Key::EanHeadway) as u32;
    Bounds {
        lower: headway,
        upper: settings.amount(Key::PeriodLength) as u32 - headway,
    }
}
