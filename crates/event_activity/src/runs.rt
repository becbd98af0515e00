// The events of the lines of a concept, run by run.
ghost use Rattle.std.specs.Prelude.{◌≡◌, ◌≤◌, ◌<◌, ◌*◌, ◌++◌, length, IfOk, OnOk, vec_len};
ghost use Rattle.std.specs.List.{flat_map};
ghost use Rattle.walks.specs.Networks.{NetworkParts};
ghost use Rattle.event_activity.specs.Fitting.{IsId};
ghost use Rattle.event_activity.specs.Runs.{AreServed, line_at, run, runs, line_events, with_ids, concept_events};

use crate::run_event::RunEvent;
use crate::run_place::run_event;
use event_tables::{Direction, PeriodicEvent};
use line_walks::Pool;
use plan_num::NoMemory;
use ptn_network::Network;
use std::alloc::Global;

/// How many events the lines of a concept have.
pub(crate) fn event_count(network: &Network, pool: &Pool) -> usize
    requires { AreServed network.now pool.now }
    ensures { result ≡ length (concept_events network.now pool.now) }
{
    let mut count = 0;
    for line in 0..pool.line_count() {
        count += line_event_count(network, pool, line);
    }
    count
}

// How many events a line has: two for each edge, in each run of both directions.
fn line_event_count(network: &Network, pool: &Pool, line: usize) -> usize
    requires served { AreServed network.now pool.now }
    requires line { line < length pool.now }
    ensures count { result ≡ length (line_events network.now (line_at pool.now line)) }
    ensures few { result ≤ 4000000 }
{
    4 * pool.edges(line).len() * pool.frequency(line) as usize
}

/// The events of the lines of a concept.
pub(crate) fn concept_events(
    alloc: Global,
    network: &Network,
    pool: &Pool,
) -> Result<Vec<RunEvent>, NoMemory>
    requires served { AreServed network.now pool.now }
    requires few { length (concept_events network.now pool.now) ≤ 4000 }
    ensures { IfOk result (λ events. events.items ≡ concept_events network.now pool.now) }
{
    let mut events = Vec::new(alloc);
    for line in 0..pool.line_count() {
        add_runs(network, pool, line, Direction::Forward, &mut events)?;
        add_runs(network, pool, line, Direction::Backward, &mut events)?;
    }
    with_ids(alloc, &events)
}

// The runs of a line in a direction are added to events.
fn add_runs(
    network: &Network,
    pool: &Pool,
    line: usize,
    direction: Direction,
    events: &mut Vec<RunEvent>,
) -> Result<(), NoMemory>
    requires served { AreServed network.now pool.now }
    requires line { line < length pool.now }
    ensures { OnOk result (events.new.items ≡ events.old.items
        ++ runs network.now (line_at pool.now line) direction) }
{
    for before in 0..pool.frequency(line) {
        add_run(network, pool, line, direction, before + 1, events)?;
    }
    Ok(())
}

// A run of a line is added to events.
fn add_run(
    network: &Network,
    pool: &Pool,
    line: usize,
    direction: Direction,
    repetition: u32,
    events: &mut Vec<RunEvent>,
) -> Result<(), NoMemory>
    requires served { AreServed network.now pool.now }
    requires line { line < length pool.now }
    ensures { OnOk result (events.new.items ≡ events.old.items
        ++ run network.now (line_at pool.now line) direction repetition) }
{
    for place in 0..2 * pool.edges(line).len() {
        events.push(run_event(network, pool, line, direction, repetition, place))?;
    }
    Ok(())
}

// Events with their places as ids, from 1.
fn with_ids(alloc: Global, events: &[RunEvent]) -> Result<Vec<RunEvent>, NoMemory>
    requires { length events.now ≤ 4000 }
    ensures { IfOk result (λ numbered. numbered.items ≡ with_ids events.now) }
{
    let mut numbered = Vec::new(alloc);
    for place in 0..events.len() {
        let event = events[place];
        let row = PeriodicEvent {
            id: place as u32 + 1,
            ..event.row
        };
        numbered.push(RunEvent { row, ..event })?;
    }
    Ok(numbered)
}
