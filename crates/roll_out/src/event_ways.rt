// The drives and waits at the events that they leave.
ghost use Rattle.std.specs.Prelude.{◌≡◌, ◌-◌, ◌≤◌, length, map, slice_get, vec_len, All, IfOk};
ghost use Rattle.std.specs.Prelude.{OnOk, Some};
ghost use Rattle.event_tables.specs.PeriodicFiles.{IsPeriodicActivity};
ghost use Rattle.event_tables.specs.Places.{IsOneOf};
ghost use Rattle.roll_out.specs.Plans.{AreWays, NotesWay, is_way};

use event_tables::{PeriodicActivity, PeriodicKind};
use plan_num::NoMemory;
use std::alloc::Global;
use std::marker::Model;

/// Of each event the drives and waits that leave it, in the order of the activities. Contracts see
/// it as a list for each event.
#[derive(Drop)]
pub(crate) struct EventWays {
    rows: Vec<Vec<PeriodicActivity>>,
}

impl Model for EventWays {
    ghost use Rattle.std.specs.Prelude.{List, map};
    ghost use Rattle.event_tables.specs.declared.periodic_activity.PeriodicActivity.{PeriodicActivity};

    ghost Value = { List (List PeriodicActivity) };

    ghost view = { λ ways. map (λ row. row.items) ways.rows.items };
}

impl EventWays {
    /// The drives and waits among activities between so many events.
    pub(crate) fn new(
        alloc: Global,
        events: usize,
        activities: &[PeriodicActivity],
    ) -> Result<EventWays, NoMemory>
        requires { All (IsPeriodicActivity events) activities.now }
        ensures { IfOk result (AreWays events activities.now) }
    {
        let mut rows = Vec::with_capacity(alloc, events)?;
        for _event in 0..events {
            rows.push(Vec::new(alloc))?;
        }
        for activity in activities {
            note_way(&mut rows, activity)?;
        }
        Ok(EventWays { rows })
    }

    /// The drives and waits that leave the event of an id.
    pub(crate) fn leaving(&self, id: u32) -> &[PeriodicActivity]
        requires some { 1 ≤ id }
        requires there { id ≤ length self.now }
        ensures { slice_get self.now (id - 1) ≡ Some result.now }
    {
        self.rows[id as usize - 1].as_slice()
    }
}

// Notes an activity at the event that it leaves if it is a drive or a wait.
fn note_way(
    rows: &mut Vec<Vec<PeriodicActivity>>,
    activity: &PeriodicActivity,
) -> Result<(), NoMemory>
    requires { IsOneOf (vec_len rows.old) activity.now.from }
    ensures size { vec_len rows.new ≡ vec_len rows.old }
    ensures noted { OnOk result (NotesWay activity.now (map (λ row. row.items) rows.old.items)
        (map (λ row. row.items) rows.new.items)) }
{
    if !is_way(activity) {
        return Ok(());
    }
    rows[activity.from as usize - 1].push(*activity)?;
    Ok(())
}

// Whether an activity is a drive or a wait.
fn is_way(activity: &PeriodicActivity) -> bool
    ensures { result ≡ is_way activity.now }
{
    matches!(activity.kind, PeriodicKind::Drive | PeriodicKind::Wait)
}
