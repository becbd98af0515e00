// The search of a timetable within a budget of entries.
ghost use Rattle.std.specs.Prelude.{◌≡◌, IfOk};
ghost use Rattle.std.specs.List.{list_any};
ghost use Rattle.pesp.specs.Cycles.{IsGraph};
ghost use Rattle.pesp.specs.Listings.{ListingIsRight, ListingIsWhole, entries_listed, is_empty};
ghost use Rattle.pesp.specs.Listings.{listing};
ghost use Rattle.pesp.specs.Marks.{IsSettled, sets_of};
ghost use Rattle.pesp.specs.Revising.{IsReady};
ghost use Rattle.pesp.specs.SearchEnds.{CountsEntries, EndIsRight, EndsAs};
ghost use Rattle.pesp.specs.Searches.{AreFirst, Branches, TakesEntry};
ghost use Rattle.pesp.specs.Timetables.{IsProblem};

use crate::children::{keep_time, next_child};
use crate::flags::EventFlags;
use crate::graph::ConstraintGraph;
use crate::marks::TimeMarks;
use crate::problem::Pesp;
use crate::reduce::reduce;
use crate::standing::{first_open, first_times};
use crate::time_sets::{Branch, TimeSets};
use plan_num::{Ledger, NoMemory, Steps};
use std::alloc::Global;

/// A timetable that was found, and how many entries were listed.
#[derive(Drop)]
pub struct FoundTimes {
    pub times: Vec<u32>,
    pub entries: u64,
}

/// How a search ends: a timetable is found, or there is none, or the budget is spent before one is
/// found or all entries are listed.
#[derive(Drop)]
pub enum SearchEnd {
    Found(FoundTimes),
    NoSolution,
    Spent,
}

/// What an entry comes to: the times of a timetable, or none where it is the last one or another
/// one is to come, with the event of its branch.
#[derive(Drop)]
pub(crate) enum Entry {
    Found(Vec<u32>),
    Last,
    Next(usize),
}

/// Searches a timetable of a problem, with so many entries at most. Each entry takes a step.
pub fn search_times<L: Ledger>(
    alloc: Global,
    pesp: &Pesp,
    budget: u64,
    steps: &mut Steps<L>,
) -> Result<SearchEnd, NoMemory>
    ensures ends { IfOk result (EndsAs budget (listing pesp.now)) }
    ensures right { IfOk result (EndIsRight pesp.now budget) }
    ensures finds { ListingIsRight pesp.now }
    ensures listed { ListingIsWhole pesp.now }
    ensures steps { CountsEntries (entries_listed budget (listing pesp.now)) steps.old steps.new
        result }
{
    listed_times(alloc, pesp, budget, steps)
}

// How the listing ends within so many entries.
fn listed_times<L: Ledger>(
    alloc: Global,
    pesp: &Pesp,
    budget: u64,
    steps: &mut Steps<L>,
) -> Result<SearchEnd, NoMemory>
    ensures problem { IsProblem pesp.now }
    ensures found { IfOk result (EndsAs budget (listing pesp.now)) }
    ensures steps { CountsEntries (entries_listed budget (listing pesp.now)) steps.old steps.new
        result }
{
    let events = pesp.event_count();
    let period = pesp.period();
    let mut sets = first_sets(alloc, pesp, period)?;
    let graph = ConstraintGraph::new(alloc, pesp, period as usize)?;
    let mut changed = EventFlags::all(alloc, events)?;
    let mut from = 0;
    for entry in 0..budget {
        steps.tick();
        match take_entry(alloc, pesp, &graph, &mut sets, &mut changed, from)? {
            Entry::Found(times) => return Ok(SearchEnd::Found(FoundTimes {
                times,
                entries: entry + 1,
            })),
            Entry::Last => return Ok(SearchEnd::NoSolution),
            Entry::Next(event) => from = event,
        }
    }
    Ok(SearchEnd::Spent)
}

// The sets before the first entry: time 0 is left to the first event, and all times to the others.
fn first_sets(alloc: Global, pesp: &Pesp, period: u32) -> Result<TimeSets, NoMemory>
    requires { pesp.now.period ≡ period }
    ensures { IfOk result (AreFirst pesp.now) }
{
    let marks = TimeMarks::all(alloc, period as usize, pesp.event_count())?;
    let mut sets = TimeSets::new(alloc, marks);
    if pesp.event_count() == 0 {
        return Ok(sets);
    }
    keep_time(&mut sets, 0, 0)?;
    Ok(sets)
}

// Takes an entry. No event before one has several times.
fn take_entry(
    alloc: Global,
    pesp: &Pesp,
    graph: &ConstraintGraph,
    sets: &mut TimeSets,
    changed: &mut EventFlags,
    from: usize,
) -> Result<Entry, NoMemory>
    requires period { sets.old.sets.columns ≡ pesp.now.period }
    requires events { sets.old.sets.rows ≡ pesp.now.events }
    requires graph { IsGraph pesp.now graph.now }
    requires ready { IsReady pesp.now sets.old changed.old }
    requires settled { IsSettled sets.old.sets from }
    ensures { IfOk result (TakesEntry pesp.now sets.old sets.new changed.new) }
{
    let has_empty = reduce(pesp, graph, sets, changed)?;
    if let Some(times) = branch(alloc, sets, has_empty, from)? {
        return Ok(Entry::Found(times));
    }
    match next_child(sets)? {
        Some(event) => {
            changed.set_alone(event);
            Ok(Entry::Next(event))
        }
        None => Ok(Entry::Last),
    }
}

// The times of reduced sets where each event has one. Where some event has several, the sets are
// saved as a branch on the first such event, unless some event has none. No event before one has
// several.
fn branch(
    alloc: Global,
    sets: &mut TimeSets,
    has_empty: bool,
    from: usize,
) -> Result<Option<Vec<u32>>, NoMemory>
    requires empty { has_empty ≡ list_any is_empty (sets_of sets.old.sets) }
    requires settled { IsSettled sets.old.sets from }
    ensures { IfOk result (Branches sets.old sets.new) }
{
    if has_empty {
        return Ok(None);
    }
    match first_open(sets.sets(), from) {
        Some(event) => {
            sets.save(Branch { event, from: 0 })?;
            Ok(None)
        }
        None => Ok(Some(first_times(alloc, sets.sets())?)),
    }
}
