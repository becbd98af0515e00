// Customers on the edges of their paths.
ghost use Rattle.std.specs.Prelude.{◌≡◌, ◌+◌, ◌<◌, ◌≤◌, ◌^◌, ℕ, length, slice_index_or, slice_set, vec_len, IfOk, OnOk};
ghost use Rattle.walks.specs.Networks.{IsNetwork};
ghost use Rattle.walks.specs.Paths.{stop_before, ArePaths};
ghost use Rattle.demand_paths.specs.Known.{AreKnown};
ghost use Rattle.demand_paths.specs.Wanted.{distance, everyone, goes_over, sum_between, sum_where, AreWanted, NobodyLeft};

use crate::far_stop::nearest_first;
use crate::known_paths::KnownPaths;
use crate::wanted::Wanted;
use plan_num::NoMemory;
use std::alloc::Global;
use walks::{Network, Paths};

/// How many of the customers go over each edge.
pub fn loads_of_wanted(
    alloc: Global,
    network: &Network,
    known: &mut KnownPaths,
    wanted: &Wanted,
) -> Result<Vec<u64>, NoMemory>
    requires known { AreKnown network.now known.old }
    requires wanted { AreWanted network.now wanted.now }
    requires few { sum_between (λ _. everyone) 0 wanted.now ≤ 100000000000000000 }
    ensures size { IfOk result (λ loads. vec_len loads ≡ length network.now.edges) }
    ensures loads { IfOk result (λ loads. (index : ℕ) → index < length network.now.edges
        → slice_index_or loads.items index 0
        ≡ sum_between (goes_over network.now index) 0 wanted.now) }
{
    let mut loads = vec![in alloc; 0; network.edge_count()]?;
    for from in 0..network.stop_count() {
        let customers = wanted.from_stop(from);
        if customers.is_empty() {
            continue;
        }
        known.learn(alloc, network, from)?;
        let paths = known.from_stop(from);
        bear_from(alloc, network, paths, from, customers, &mut loads)?;
    }
    Ok(loads)
}

// Customers from one stop go over the edges of their paths. From the farthest stop on, those who
// want to go there or farther have come over its last edge from the stop before it.
fn bear_from(
    alloc: Global,
    network: &Network,
    paths: &Paths,
    from: usize,
    customers: &[u64],
    loads: &mut Vec<u64>,
) -> Result<(), NoMemory>
    requires network { IsNetwork network.now }
    requires paths { ArePaths network.now from paths.now }
    requires customers { length customers.now ≡ length network.now.stops }
    requires loads { vec_len loads.old ≡ length network.now.edges }
    requires few { sum_where everyone 0 customers.now ≤ 100000000000000000 }
    requires room { (index : ℕ) → index < length network.now.edges
        → slice_index_or loads.old.items index 0
        + sum_where (goes_over network.now index from) 0 customers.now < 2 ^ 64 }
    ensures size { OnOk result (vec_len loads.new ≡ vec_len loads.old) }
    ensures added { OnOk result ((index : ℕ) → index < length network.now.edges
        → slice_index_or loads.new.items index 0 ≡ slice_index_or loads.old.items index 0
        + sum_where (goes_over network.now index from) 0 customers.now) }
{
    let mut left = Vec::from_slice(alloc, customers)?;
    let stops = nearest_first(alloc, network, paths, from)?;
    for behind in 0..stops.len() {
        let stop = stops[stops.len() - 1 - behind].stop;
        hand_back(network, paths, from, stop, &mut left, loads);
    }
    Ok(())
}

// Those who want to go to a stop have come over its last edge, so they want to go to the stop
// before it.
fn hand_back(
    network: &Network,
    paths: &Paths,
    from: usize,
    to: usize,
    left: &mut Vec<u64>,
    loads: &mut Vec<u64>,
)
    requires network { IsNetwork network.now }
    requires paths { ArePaths network.now from paths.now }
    requires to { to < length network.now.stops }
    requires left { vec_len left.old ≡ length network.now.stops }
    requires loads { vec_len loads.old ≡ length network.now.edges }
    requires few { sum_where everyone 0 left.old.items ≤ 100000000000000000 }
    requires room { (index : ℕ) → index < length network.now.edges
        → slice_index_or loads.old.items index 0
        + sum_where (goes_over network.now index from) 0 left.old.items < 2 ^ 64 }
    ensures left { vec_len left.new ≡ vec_len left.old }
    ensures loads { vec_len loads.new ≡ vec_len loads.old }
    ensures few { sum_where everyone 0 left.new.items ≡ sum_where everyone 0 left.old.items }
    ensures same { (index : ℕ) → index < length network.now.edges
        → slice_index_or loads.new.items index 0
        + sum_where (goes_over network.now index from) 0 left.new.items
        ≡ slice_index_or loads.old.items index 0
        + sum_where (goes_over network.now index from) 0 left.old.items }
    ensures nobody { NobodyLeft network.now from left.new.items to }
    ensures others { (other : ℕ) → NobodyLeft network.now from left.old.items other
        → distance network.now from to ≤ distance network.now from other
        → NobodyLeft network.now from left.new.items other }
{
    if to == from {
        return;
    }
    if let Some(edge) = paths.last_edge_to(to) {
        let before = stop_before(network, edge, to);
        hand_over(edge, to, before, left, loads);
    }
}

// Those who are left at a stop have come over an edge from another one.
fn hand_over(edge: usize, to: usize, before: usize, left: &mut Vec<u64>, loads: &mut Vec<u64>)
    requires edge { edge < vec_len loads.old }
    requires to { to < vec_len left.old }
    requires before { before < vec_len left.old }
    requires load { slice_index_or loads.old.items edge 0 + slice_index_or left.old.items to 0
        < 2 ^ 64 }
    requires waiting { slice_index_or (slice_set left.old.items to 0) before 0
        + slice_index_or left.old.items to 0 < 2 ^ 64 }
    ensures loads { loads.new.items ≡ slice_set loads.old.items edge
        (slice_index_or loads.old.items edge 0 + slice_index_or left.old.items to 0) }
    ensures left { left.new.items ≡ slice_set (slice_set left.old.items to 0) before
        (slice_index_or (slice_set left.old.items to 0) before 0
        + slice_index_or left.old.items to 0) }
{
    let customers = left[to];
    loads[edge] += customers;
    left[to] = 0;
    left[before] += customers;
}

// The stop from which the edge of an index comes to a stop.
fn stop_before(network: &Network, index: usize, to: usize) -> usize
    requires { index < length network.now.edges }
    ensures { result ≡ stop_before network.now.edges index to }
{
    network.edge(index).across(to).unwrap_or(to)
}
