// The activities at each event.
ghost use Rattle.std.specs.Prelude.{◌≡◌, ◌<◌, ◌≤◌, ◌≤ℤ◌, pos, length, map, slice_get, Some};
ghost use Rattle.std.specs.Prelude.{vec_len};
ghost use Rattle.std.specs.Prelude.{IfOk, OnOk};
ghost use Rattle.pesp.specs.Timetables.{IsActivity};
ghost use Rattle.pesp.specs.Revising.{AreLinks, NotesActivity, NotesAt, is_free};

use crate::activity::PespActivity;
use crate::problem::Pesp;
use crate::revise::width_of;
use plan_num::NoMemory;
use std::alloc::Global;
use std::marker::Model;

/// Of each event the indexes of the activities at it which not all times keep. Contracts see it as
/// a list for each event.
#[derive(Drop)]
pub(crate) struct Links {
    rows: Vec<Vec<usize>>,
}

impl Model for Links {
    ghost use Rattle.std.specs.Prelude.{List, ℕ, map};

    ghost Value = { List (List ℕ) };

    ghost view = { λ links. map (λ row. row.items) links.rows.items };
}

impl Links {
    /// The activities at the events of a problem of a period.
    pub(crate) fn new(alloc: Global, pesp: &Pesp, period: usize) -> Result<Links, NoMemory>
        requires { pesp.now.period ≡ period }
        ensures { IfOk result (AreLinks pesp.now (length pesp.now.activities)) }
    {
        let mut rows = Vec::with_capacity(alloc, pesp.event_count())?;
        for _event in 0..pesp.event_count() {
            rows.push(Vec::new(alloc))?;
        }
        for index in 0..pesp.activity_count() {
            note_activity(&mut rows, pesp.activity(index), index, period)?;
        }
        Ok(Links { rows })
    }

    /// The indexes of the activities at an event.
    pub(crate) fn at(&self, event: usize) -> &[usize]
        requires { event < length self.now }
        ensures { slice_get self.now event ≡ Some result.now }
    {
        self.rows[event].as_slice()
    }
}

// Notes the index of an activity at both of its events unless it is free.
fn note_activity(
    rows: &mut Vec<Vec<usize>>,
    activity: PespActivity,
    index: usize,
    period: usize,
) -> Result<(), NoMemory>
    requires some { 1 ≤ period }
    requires few { period ≤ 720 }
    requires activity { IsActivity (vec_len rows.old) activity }
    ensures size { vec_len rows.new ≡ vec_len rows.old }
    ensures noted { OnOk result (NotesActivity period activity index
        (map (λ row. row.items) rows.old.items) (map (λ row. row.items) rows.new.items)) }
{
    if is_free(activity, period) {
        return Ok(());
    }
    note_at(rows, activity.from, index)?;
    note_at(rows, activity.to, index)
}

// Notes the index of an activity at an event.
fn note_at(rows: &mut Vec<Vec<usize>>, event: usize, index: usize) -> Result<(), NoMemory>
    requires { event < vec_len rows.old }
    ensures size { vec_len rows.new ≡ vec_len rows.old }
    ensures noted { OnOk result (NotesAt event index (map (λ row. row.items) rows.old.items)
        (map (λ row. row.items) rows.new.items)) }
{
    rows[event].push(index)?;
    Ok(())
}

// Whether any two times of a period keep an activity.
fn is_free(activity: PespActivity, period: usize) -> bool
    requires some { 1 ≤ period }
    requires low { pos 0 ≤ℤ activity.lower }
    requires in_order { activity.lower ≤ℤ activity.upper }
    requires high { activity.upper ≤ℤ pos 100000 }
    ensures { result ≡ is_free period activity }
{
    period <= width_of(activity, period) + 1
}
