// The event at a place of a run.
ghost use Rattle.std.specs.Prelude.{◌≡◌, ◌<◌, ◌+◌, ◌*◌, ◌/◌, ◌%◌, length, slice_index_or, unsigned_abs};
ghost use Rattle.event_tables.specs.Kinds.{event_kind_at};
ghost use Rattle.event_activity.specs.Runs.{AreServed, along, edge_at, line_at, run_event, stop_id};

use crate::run_event::RunEvent;
use event_tables::{Direction, EventKind, PeriodicEvent};
use line_walks::Pool;
use ptn_network::Network;

/// The event at a place of a run of a line. It has no number yet.
pub(crate) fn run_event(
    network: &Network,
    pool: &Pool,
    line: usize,
    direction: Direction,
    repetition: u32,
    place: usize,
) -> RunEvent
    requires served { AreServed network.now pool.now }
    requires line { line < length pool.now }
    requires place { place < 2 * length (line_at pool.now line).edges }
    ensures { result ≡ run_event network.now (line_at pool.now line) direction repetition place }
{
    let row = PeriodicEvent {
        id: 0,
        kind: kind_at(place),
        stop: stop_of(network, pool, line, direction, place),
        line: line_number(network, pool, line),
        direction,
        repetition,
    };
    let edge = network.edge(along(direction, pool.edges(line), place / 2));
    RunEvent {
        row,
        place,
        edge,
        frequency: pool.frequency(line),
    }
}

// Departures and arrivals alternate.
fn kind_at(place: usize) -> EventKind
    ensures { result ≡ event_kind_at (place % 2) }
{
    if place % 2 == 0 {
        EventKind::Departure
    } else {
        EventKind::Arrival
    }
}

// The id of the stop at a place of a run.
fn stop_of(network: &Network, pool: &Pool, line: usize, direction: Direction, place: usize) -> u32
    requires served { AreServed network.now pool.now }
    requires line { line < length pool.now }
    requires place { place < 2 * length (line_at pool.now line).edges }
    ensures { result ≡ stop_id network.now (slice_index_or
        (along direction (line_at pool.now line).stops) ((place + 1) / 2) 0) }
{
    let stop = along(direction, pool.stops(line), (place + 1) / 2);
    network.stop_id(stop).unsigned_abs() as u32
}

// The id of a line.
fn line_number(network: &Network, pool: &Pool, line: usize) -> u32
    requires served { AreServed network.now pool.now }
    requires line { line < length pool.now }
    ensures { result ≡ unsigned_abs (line_at pool.now line).id }
{
    pool.line_id(line).unsigned_abs() as u32
}

// What stands at a place along a line, in a direction.
fn along(direction: Direction, things: &[usize], place: usize) -> usize
    requires { place < length things.now }
    ensures { result ≡ slice_index_or (along direction things.now) place 0 }
{
    match direction {
        Direction::Forward => things[place],
        Direction::Backward => things[things.len() - 1 - place],
    }
}
