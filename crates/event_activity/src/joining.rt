// Which events are joined.
ghost use Rattle.std.specs.Prelude.{◌≡◌, ◌≤◌, ◌+◌, ◌==◌, length};
ghost use Rattle.event_activity.specs.Activities.{joined, joinings, kind_from, repeats, shares_edge};
ghost use Rattle.event_activity.specs.NextEvents.{key_from, key_of, may_end};

use crate::run_event::RunEvent;
use event_tables::PeriodicKind;
use giv_files::{Key, Settings};

/// What joins two events of a line concept.
#[derive(Clone, Copy)]
pub(crate) enum Joining {
    /// One comes next after the other in its run: a drive or a wait.
    Run,
    /// They are the first events of two repetitions, one after the other.
    Sync,
    /// They are an arrival and a departure of another line at the same stop.
    Change,
    /// They are departures of two runs from one stop over one edge.
    Headway,
}

impl Joining {
    /// Whether an activity goes from an event to another.
    pub(crate) fn joins(self, event: &RunEvent, next: &RunEvent) -> bool
        ensures { result ≡ joined self event.now next.now }
    {
        match self {
            Joining::Run => event.row.is_before(&next.row),
            Joining::Sync => is_repeated(event, next),
            Joining::Change => PeriodicKind::Change.joins(&event.row, &next.row),
            Joining::Headway => shares_edge(event, next),
        }
    }

    /// The kind of an activity that goes from an event.
    pub(crate) fn kind(self, event: &RunEvent) -> PeriodicKind
        ensures { result ≡ kind_from self event.now }
    {
        match self {
            Joining::Run if event.row.kind.is_arrival() => PeriodicKind::Wait,
            Joining::Run => PeriodicKind::Drive,
            Joining::Sync => PeriodicKind::Sync,
            Joining::Change => PeriodicKind::Change,
            Joining::Headway => PeriodicKind::Headway,
        }
    }

    /// Whether an event may be the second one of two that are joined.
    pub(crate) fn may_end(self, next: &RunEvent) -> bool
        ensures { result ≡ may_end self next.now }
    {
        match self {
            Joining::Run => true,
            Joining::Sync => next.place == 0,
            Joining::Change | Joining::Headway => !next.row.kind.is_arrival(),
        }
    }

    /// The key of an event as the second one.
    pub(crate) fn key_of(self, next: &RunEvent) -> usize
        ensures { result ≡ key_of self next.now }
    {
        match self {
            Joining::Run => next.row.id as usize,
            Joining::Sync => next.row.line as usize + next.row.repetition as usize,
            Joining::Change | Joining::Headway => next.row.stop as usize,
        }
    }

    /// The key of all events that an event may be joined to.
    pub(crate) fn key_from(self, event: &RunEvent) -> usize
        ensures { result ≡ key_from self event.now }
    {
        match self {
            Joining::Run => event.row.id as usize + 1,
            Joining::Sync => event.row.line as usize + event.row.repetition as usize + 1,
            Joining::Change | Joining::Headway => event.row.stop as usize,
        }
    }
}

/// The joinings whose activities are made, in the order in which these are numbered.
pub(crate) fn joinings(settings: &Settings) -> &'static [Joining]
    ensures all { result.now ≡ joinings settings.now }
    ensures few { length result.now ≤ 4 }
{
    if settings.amount(Key::EanHeadway) > 0 {
        &[
            Joining::Run,
            Joining::Sync,
            Joining::Change,
            Joining::Headway,
        ]
    } else {
        &[Joining::Run, Joining::Sync, Joining::Change]
    }
}

// Whether two events are the first ones of a run and of its next repetition.
fn is_repeated(event: &RunEvent, next: &RunEvent) -> bool
    ensures { result ≡ repeats event.now next.now }
{
    event.place == 0
        && next.place == 0
        && event.row.line == next.row.line
        && event.row.direction.is_same(next.row.direction)
        && comes_after(event.row.repetition, next.row.repetition)
}

// Whether two events are departures of two runs from one stop over one edge, that with the smaller
// id first.
fn shares_edge(event: &RunEvent, next: &RunEvent) -> bool
    ensures { result ≡ shares_edge event.now next.now }
{
    PeriodicKind::Headway.joins(&event.row, &next.row)
        && event.edge.id == next.edge.id
        && event.row.id < next.row.id
        && !event.row.is_same_run(&next.row)
}

// Whether a number is one more than another.
fn comes_after(number: u32, next: u32) -> bool
    ensures { result ≡ (next == number + 1) }
{
    u64::from(next) == u64::from(number) + 1
}
