// Sets of times that are reduced by all activities.
ghost use Rattle.std.specs.Prelude.{◌≡◌, ◌<◌, true, false, length, All, IfOk, MatchBool, OnOk};
ghost use Rattle.pesp.specs.Flags.{has_changed};
ghost use Rattle.std.specs.List.{list_any};
ghost use Rattle.pesp.specs.Listings.{AreDead, is_empty};
ghost use Rattle.pesp.specs.Marks.{is_left, sets_of};
ghost use Rattle.pesp.specs.Cycles.{IsGraph};
ghost use Rattle.pesp.specs.Revising.{AllFrom, AreLinksAt, BoundUnless, Dies};
ghost use Rattle.pesp.specs.Revising.{IsReady, Reduces, Sweeps, Visits};
ghost use Rattle.pesp.specs.TimeSets.{AreGreatest, LosesNone};

use crate::close::close;
use crate::flags::EventFlags;
use crate::graph::ConstraintGraph;
use crate::problem::Pesp;
use crate::revise::revise;
use crate::time_sets::TimeSets;
use plan_num::NoMemory;

/// Takes times out of the sets of events until each time that is left has its partners on all
/// activities, or no time is left to some event. The activities at an event are revised, and again,
/// where its set has changed; flags say which have at first. This is arc consistency, by AC-3 with
/// a worklist of events in the place of one of activities. What cycles of exact activities would
/// take out of a set minute by minute goes at once. Tells whether no time is left to some event.
pub(crate) fn reduce(
    pesp: &Pesp,
    graph: &ConstraintGraph,
    sets: &mut TimeSets,
    changed: &mut EventFlags,
) -> Result<bool, NoMemory>
    requires period { sets.old.sets.columns ≡ pesp.now.period }
    requires events { sets.old.sets.rows ≡ pesp.now.events }
    requires graph { IsGraph pesp.now graph.now }
    requires ready { IsReady pesp.now sets.old changed.old }
    ensures each { OnOk result (length changed.new ≡ length changed.old) }
    ensures reduces { OnOk result (Reduces pesp.now sets.old sets.new) }
    ensures greatest { IfOk result (λ has_empty. has_empty ≡ false
        → AreGreatest pesp.now (sets_of sets.old.sets) (sets_of sets.new.sets)) }
    ensures dead { IfOk result (λ has_empty. has_empty ≡ true
        → AreDead pesp.now (sets_of sets.old.sets)) }
    ensures loses_none { OnOk result
        (LosesNone pesp.now (sets_of sets.old.sets) (sets_of sets.new.sets)) }
    ensures empty { IfOk result
        (λ has_empty. has_empty ≡ list_any is_empty (sets_of sets.new.sets)) }
{
    let _ = pesp.event_count();
    while changed.has_some() {
        if sweep(pesp, graph, sets, changed)? {
            return Ok(true);
        }
    }
    let _ = sets.sets().period();
    Ok(false)
}

// Revises the sets by the activities at each event that has a flag, which it loses, from the last
// event to the first. Stops where no time is left to some event, and tells so.
fn sweep(
    pesp: &Pesp,
    graph: &ConstraintGraph,
    sets: &mut TimeSets,
    changed: &mut EventFlags,
) -> Result<bool, NoMemory>
    requires period { sets.old.sets.columns ≡ pesp.now.period }
    requires events { sets.old.sets.rows ≡ pesp.now.events }
    requires graph { IsGraph pesp.now graph.now }
    requires each { length changed.old ≡ pesp.now.events }
    requires revised { AllFrom pesp.now.activities
        (BoundUnless pesp.now.period (is_left sets.old.sets) (has_changed changed.old)) 0 }
    ensures sweeps { IfOk result (λ is_dead. MatchBool is_dead (Dies pesp.now sets.old sets.new)
        (Sweeps pesp.now sets.old sets.new changed.new)) }
    ensures each { OnOk result (length changed.new ≡ length changed.old) }
{
    let mut end = changed.events();
    while let Some(event) = changed.last(end) {
        if visit(pesp, graph, event, sets, changed)? {
            return Ok(true);
        }
        end = event;
    }
    Ok(false)
}

// Closes the set of an event that has a flag, which it loses, and revises the sets by the
// activities at it. Stops where no time is left to some event, and tells so.
fn visit(
    pesp: &Pesp,
    graph: &ConstraintGraph,
    event: usize,
    sets: &mut TimeSets,
    changed: &mut EventFlags,
) -> Result<bool, NoMemory>
    requires period { sets.old.sets.columns ≡ pesp.now.period }
    requires events { sets.old.sets.rows ≡ pesp.now.events }
    requires event { event < pesp.now.events }
    requires graph { IsGraph pesp.now graph.now }
    requires each { length changed.old ≡ pesp.now.events }
    requires flag { has_changed changed.old event ≡ true }
    requires revised { AllFrom pesp.now.activities
        (BoundUnless pesp.now.period (is_left sets.old.sets) (has_changed changed.old)) 0 }
    ensures visits { IfOk result (λ is_dead. MatchBool is_dead (Dies pesp.now sets.old sets.new)
        (Visits pesp.now event sets.old sets.new changed.old changed.new)) }
    ensures each { OnOk result (length changed.new ≡ length changed.old) }
{
    if close(sets, event, graph.shifts[event])? {
        return Ok(true);
    }
    visit_links(pesp, graph.links.at(event), event, sets, changed)
}

// Revises the sets by the activities at an event, which loses its flag. Stops where no time is left
// to some event, and tells so.
fn visit_links(
    pesp: &Pesp,
    indexes: &[usize],
    event: usize,
    sets: &mut TimeSets,
    changed: &mut EventFlags,
) -> Result<bool, NoMemory>
    requires period { sets.old.sets.columns ≡ pesp.now.period }
    requires events { sets.old.sets.rows ≡ pesp.now.events }
    requires event { event < pesp.now.events }
    requires links { AreLinksAt pesp.now event indexes.now }
    requires each { length changed.old ≡ pesp.now.events }
    requires revised { AllFrom pesp.now.activities
        (BoundUnless pesp.now.period (is_left sets.old.sets) (has_changed changed.old)) 0 }
    ensures visits { IfOk result (λ is_dead. MatchBool is_dead (Dies pesp.now sets.old sets.new)
        (Visits pesp.now event sets.old sets.new changed.old changed.new)) }
    ensures each { OnOk result (length changed.new ≡ length changed.old) }
{
    changed.put(event, false);
    let mut count = sets.sets().count(event);
    for index in indexes {
        if revise(pesp.activity(*index), event, &mut count, sets, changed)? {
            return Ok(true);
        }
    }
    Ok(false)
}
