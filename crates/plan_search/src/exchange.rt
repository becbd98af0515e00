// Which trips can change places among themselves: a graph with a node for each trip, and one behind
// them all for none. A trip leads to those that have a place at which it is tight, and to none
// where such a place has no trip or where it needs no place. None leads to the trips without a
// place, and to those that have one which needs no trip.
ghost use Rattle.std.specs.Prelude.{◌≡◌, ◌<◌, length};
ghost use Rattle.link_plans.specs.Potentials.{AreOver};
ghost use Rattle.plan_search.specs.Moved.{IsNodeAt};

use crate::components::Components;
use link_plans::{Assignment, LinkTable, Potentials, of_trip};
use plan_num::NoMemory;
use std::alloc::Global;

/// The components of the graph, by one walk over all arcs (R. E. Tarjan, 1972).
pub(crate) fn components_of(
    alloc: Global,
    trips: &LinkTable,
    assignment: &Assignment,
    potentials: &Potentials,
) -> Result<Components, NoMemory>
    requires each { AreOver (length trips.now) potentials.now }
    requires places { length assignment.now ≡ length trips.now }
{
    let nodes = trips.len() + 1;
    let mut found = Components::new(alloc, nodes)?;
    for node in 0..nodes {
        if found.is_new(node) {
            found.enter(node)?;
            go_on(trips, assignment, potentials, &mut found)?;
        }
    }
    Ok(found)
}

// Goes on until all nodes are left. Each is reached once and left once.
fn go_on(
    trips: &LinkTable,
    assignment: &Assignment,
    potentials: &Potentials,
    found: &mut Components,
) -> Result<(), NoMemory>
    requires each { AreOver (length trips.now) potentials.now }
    requires places { length assignment.now ≡ length trips.now }
{
    for _turn in 0..2 * trips.len() + 2 {
        match found.last() {
            Some(node) => match next_new(trips, assignment, potentials, found, node) {
                Some(next) => found.enter(next)?,
                None => found.leave(node),
            },
            None => return Ok(()),
        }
    }
    Ok(())
}

// The next node to which a node leads and that was not reached.
fn next_new(
    trips: &LinkTable,
    assignment: &Assignment,
    potentials: &Potentials,
    found: &mut Components,
    node: usize,
) -> Option<usize>
    requires each { AreOver (length trips.now) potentials.now }
    requires places { length assignment.now ≡ length trips.now }
{
    if node < trips.len() {
        next_of_trip(trips, assignment, potentials, found, node)
    } else {
        next_of_none(assignment, potentials, found, node)
    }
}

// The same of a trip.
fn next_of_trip(
    trips: &LinkTable,
    assignment: &Assignment,
    potentials: &Potentials,
    found: &mut Components,
    trip: usize,
) -> Option<usize>
    requires each { AreOver (length trips.now) potentials.now }
    requires trip { trip < length trips.now }
{
    let own = of_trip(potentials, trip);
    let links = trips.row(trip);
    for arc in found.arcs(trip)..links.len() {
        let link = links[arc];
        if own + potentials.natural_v(link.to) == link.gain {
            let next = node_at(assignment, link.to);
            if found.look(trip, next) {
                found.set_arcs(trip, arc + 1);
                return Some(next);
            }
        }
    }
    found.set_arcs(trip, links.len());
    if own == 0 && found.look(trip, trips.len()) {
        Some(trips.len())
    } else {
        None
    }
}

// The same of none.
fn next_of_none(
    assignment: &Assignment,
    potentials: &Potentials,
    found: &mut Components,
    none: usize,
) -> Option<usize>
    requires { AreOver (length assignment.now) potentials.now }
{
    for trip in found.arcs(none)..assignment.len() {
        let next = node_at(assignment, trip);
        if potentials.natural_v(trip) == 0 && found.look(none, next) {
            return Some(next);
        }
        if assignment.next(trip).is_none() && found.look(none, trip) {
            return Some(trip);
        }
        found.set_arcs(none, trip + 1);
    }
    None
}

/// The node of the trip that has a place, or that of none.
pub(crate) fn node_at(assignment: &Assignment, place: usize) -> usize
    ensures { IsNodeAt assignment.now place result }
{
    assignment.trip_at(place).unwrap_or(assignment.len())
}
