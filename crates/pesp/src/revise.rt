// Sets of times that are revised by an activity.
ghost use Rattle.std.specs.Prelude.{◌≡◌, ◌-◌, ◌/◌, ◌<◌, ◌≤◌, ◌≤ℤ◌, ℕ, false, true, nat_le};
ghost use Rattle.std.specs.Prelude.{pos};
ghost use Rattle.std.specs.Prelude.{length, IfOk, OnOk};
ghost use Rattle.bit_rows.specs.Bits.{marked};
ghost use Rattle.pesp.specs.Timetables.{IsActivity};
ghost use Rattle.pesp.specs.Listings.{is_empty};
ghost use Rattle.pesp.specs.Marks.{AreMarks, Prunes, is_left, times_from};
ghost use Rattle.pesp.specs.Revising.{HasEmpty, KeepsOwn, Revises, RevisesEnd, StaysFull, ahead};
ghost use Rattle.pesp.specs.Revising.{behind, event_at, is_partnered, keeps_partnered, noted};
ghost use Rattle.pesp.specs.Revising.{opens_behind, other_end, width_of};

use crate::activity::PespActivity;
use crate::activity_end::ActivityEnd;
use crate::flags::EventFlags;
use crate::marks::TimeMarks;
use crate::prune::{any_of, prune};
use crate::time_sets::TimeSets;
use crate::windows::reached;
use crate::words::WORDS;
use plan_num::NoMemory;

/// Takes the times that have no partner out of the set of an activity's other event where the set
/// of one of its events has changed, and sets the flags of the events whose set has changed. Keeps
/// the count of the times that are left to the event whose set had changed. Tells whether some set
/// has no time left for that.
pub(crate) fn revise(
    activity: PespActivity,
    at: usize,
    count: &mut usize,
    sets: &mut TimeSets,
    changed: &mut EventFlags,
) -> Result<bool, NoMemory>
    requires activity { IsActivity sets.old.sets.rows activity }
    requires event { at < sets.old.sets.rows }
    requires counted { count.old ≡ length (times_from sets.old.sets at 0) }
    requires each { length changed.old ≡ sets.old.sets.rows }
    ensures revises { OnOk result
        (Revises activity at sets.old sets.new changed.old changed.new) }
    ensures empty { IfOk result (λ is_empty. is_empty ≡ true → HasEmpty sets.new.sets) }
    ensures full { IfOk result (λ is_empty. is_empty ≡ false → StaysFull sets.old sets.new) }
    ensures counted { OnOk result (count.new ≡ length (times_from sets.new.sets at 0)) }
{
    let first = revise_end(activity, ActivityEnd::First, at, *count, sets, changed)?;
    recount(activity, at, count, sets.sets());
    let second = revise_end(activity, ActivityEnd::Second, at, *count, sets, changed)?;
    recount(activity, at, count, sets.sets());
    Ok(any_of(first, second))
}

// Counts the times that are left to an event anew where an activity leads from it to itself. Any
// other activity leaves its set as it was.
fn recount(activity: PespActivity, at: usize, count: &mut usize, sets: &TimeMarks)
    requires event { at < sets.now.rows }
    requires same { (activity.from ≡ activity.to → ⊥)
        → count.old ≡ length (times_from sets.now at 0) }
    ensures { count.new ≡ length (times_from sets.now at 0) }
{
    if activity.from == activity.to {
        *count = sets.count(at);
    }
}

// Does so for the event at one end.
fn revise_end(
    activity: PespActivity,
    end: ActivityEnd,
    at: usize,
    count: usize,
    sets: &mut TimeSets,
    changed: &mut EventFlags,
) -> Result<bool, NoMemory>
    requires activity { IsActivity sets.old.sets.rows activity }
    requires counted { count ≡ length (times_from sets.old.sets at 0) }
    requires each { length changed.old ≡ sets.old.sets.rows }
    ensures revises { OnOk result
        (RevisesEnd activity end at sets.old sets.new changed.old changed.new) }
    ensures empty { IfOk result (λ is_empty. is_empty ≡ true → HasEmpty sets.new.sets) }
    ensures full { IfOk result (λ is_empty. is_empty ≡ false → StaysFull sets.old sets.new) }
    ensures own { OnOk result (KeepsOwn activity at sets.old sets.new) }
{
    if end.other().event(activity) != at {
        return Ok(false);
    }
    let event = end.event(activity);
    let is_changed = prune_end(activity, end, count, sets)?;
    note(changed, event, is_changed);
    Ok(is_emptied(sets.sets(), event, is_changed))
}

/// Whether no time is left to an event whose set has changed.
pub(crate) fn is_emptied(sets: &TimeMarks, event: usize, is_changed: bool) -> bool
    requires { event < sets.now.rows }
    ensures empty { result ≡ true → HasEmpty sets.now }
    ensures some { result ≡ false → is_changed ≡ true
        → is_empty (times_from sets.now event 0) ≡ false }
{
    is_changed && sets.is_empty(event)
}

// Sets the flag of an event if its set has changed.
fn note(changed: &mut EventFlags, event: usize, is_changed: bool)
    requires { event < length changed.old }
    ensures { changed.new ≡ noted changed.old event is_changed }
{
    if is_changed {
        changed.put(event, true);
    }
}

// Takes the times without a partner out of the set of the event at an end of an activity, and tells
// whether there were any.
fn prune_end(
    activity: PespActivity,
    end: ActivityEnd,
    count: usize,
    sets: &mut TimeSets,
) -> Result<bool, NoMemory>
    requires activity { IsActivity sets.old.sets.rows activity }
    requires counted { count
        ≡ length (times_from sets.old.sets (event_at activity (other_end end)) 0) }
    ensures { IfOk result (Prunes sets.old sets.new
        (keeps_partnered sets.old.sets.columns (is_left sets.old.sets) activity end)) }
{
    if is_crowded(sets.sets(), count, activity) {
        return Ok(false);
    }
    let times = with_partner(activity, end, sets.sets());
    prune(sets, end.event(activity), &times)
}

// Whether more times are left than lie outside of each window of an activity, so that every time
// has a partner among them.
fn is_crowded(sets: &TimeMarks, count: usize, activity: PespActivity) -> bool
    requires { IsActivity sets.now.rows activity }
    ensures crowded { result
        ≡ nat_le (sets.now.columns - width_of sets.now.columns activity) count }
    ensures sound { AreMarks sets.now }
{
    let period = sets.period();
    period - width_of(activity, period) <= count
}

// The times of the period that have a partner where they are at an end of an activity.
fn with_partner(activity: PespActivity, end: ActivityEnd, sets: &TimeMarks) -> [u64; WORDS]
    requires { IsActivity sets.now.rows activity }
    ensures long { length result ≡ 13 }
    ensures each { (time : ℕ) → time < sets.now.columns → marked result time
        ≡ is_partnered sets.now.columns (is_left sets.now) activity end time }
{
    let period = sets.period();
    let width = width_of(activity, period);
    let opens = opens_behind(activity, end, period, width);
    reached(sets, end.other().event(activity), opens, width)
}

// How far behind a time at an end of an activity the window of its partners opens.
fn opens_behind(activity: PespActivity, end: ActivityEnd, period: usize, width: usize) -> usize
    requires some { 1 ≤ period }
    requires low { pos 0 ≤ℤ activity.lower }
    requires high { activity.lower ≤ℤ pos 100000 }
    requires width { width ≡ width_of period activity }
    requires narrow { width < period }
    requires few { period ≤ 720 }
    ensures opens { result ≡ opens_behind period activity end }
    ensures within { result ≤ period }
{
    match end {
        ActivityEnd::First => ahead(activity, period),
        ActivityEnd::Second => behind(activity, period, width),
    }
}

/// By how much an activity may take longer than its lower bound, up to a whole period.
pub(crate) fn width_of(activity: PespActivity, period: usize) -> usize
    requires some { 1 ≤ period }
    requires low { pos 0 ≤ℤ activity.lower }
    requires in_order { activity.lower ≤ℤ activity.upper }
    requires high { activity.upper ≤ℤ pos 100000 }
    ensures width { result ≡ width_of period activity }
    ensures within { result < period }
{
    ((activity.upper - activity.lower) as usize).min(period - 1)
}

/// How far behind a first time the window of its second ones opens, up to whole periods.
pub(crate) fn ahead(activity: PespActivity, period: usize) -> usize
    requires some { 1 ≤ period }
    requires low { pos 0 ≤ℤ activity.lower }
    ensures ahead { result ≡ ahead period activity }
    ensures within { result ≤ period }
{
    activity.lower as usize % period
}

/// How far behind a second time the window of its first ones opens, up to whole periods.
pub(crate) fn behind(activity: PespActivity, period: usize, width: usize) -> usize
    requires some { 1 ≤ period }
    requires low { pos 0 ≤ℤ activity.lower }
    requires high { activity.lower ≤ℤ pos 100000 }
    requires width { width ≡ width_of period activity }
    requires narrow { width < period }
    requires few { period ≤ 720 }
    ensures behind { result ≡ behind period activity }
    ensures within { result ≤ period }
{
    period - (activity.lower as usize + width) % period
}
