// Paths along least lengths.
ghost use Rattle.std.specs.Prelude.{◌≡◌, ◌<◌, ◌+◌, is_some, true, length, map, reverse, slice_index_or, slice_set, vec_len, option_map, unsigned_abs, None, IfOk, IfSome};
ghost use Rattle.std.specs.List.{range_with_len};
ghost use Rattle.walks.specs.Networks.{IsNetwork};
ghost use Rattle.walks.specs.Walks.{IsSumUpTo};
ghost use Rattle.walks.specs.Paths.{are_equal, ends_least, last_edge, last_with, length_to, path, stop_before, ArePaths, IsSimple, IsShortest, EndsFirst};

use crate::edge::Edge;
use crate::network::Network;
use crate::reach::Reach;
use plan_num::NoMemory;
use std::alloc::Global;
use std::marker::Model;

/// The paths from one stop: the least length to each stop, and the index of the last edge of the
/// path to it. Contracts see it as these two lists.
pub struct Paths {
    reach: Reach,
    last: Vec<Option<usize>>,
}

impl Drop for Paths {
    fn drop(self) {
        let Paths { reach: _, last: _ } = self;
    }
}

impl Model for Paths {
    ghost use Rattle.walks.specs.Paths.{PathParts};

    ghost Value = { PathParts };

    ghost view = { λ paths. record { lengths = paths.reach; last = paths.last.items } };
}

impl Paths {
    /// The paths from a stop.
    pub fn from_stop(alloc: Global, network: &Network, from: usize) -> Result<Paths, NoMemory>
        requires { from < length network.now.stops }
        ensures { IfOk result (ArePaths network.now from) }
    {
        let reach = network.least_lengths(alloc, from)?;
        let last = last_edges(alloc, network, &reach)?;
        Ok(Paths { reach, last })
    }

    /// Whether a walk goes to a stop.
    pub fn reaches(&self, stop: usize) -> bool
        requires { stop < length self.now.lengths }
        ensures { result ≡ is_some (slice_index_or self.now.lengths stop None) }
    {
        self.reach.at(stop).is_some()
    }

    /// The least lengths to all stops.
    pub fn lengths(&self) -> &Reach
        ensures { result.now ≡ self.now.lengths }
    {
        &self.reach
    }

    /// The index of the last edge of the path to a stop, where an edge ends a least walk there.
    pub fn last_edge_to(&self, stop: usize) -> Option<usize>
        requires { stop < length self.now.last }
        ensures { result ≡ slice_index_or self.now.last stop None }
    {
        self.last[stop]
    }

    /// The indexes of the edges of the path to a stop, in their order.
    pub fn path_to(
        &self,
        alloc: Global,
        network: &Network,
        from: usize,
        to: usize,
    ) -> Result<Vec<usize>, NoMemory>
        requires network { IsNetwork network.now }
        requires paths { ArePaths network.now from self.now }
        requires to { to < length network.now.stops }
        requires reached { is_some (slice_index_or self.now.lengths to None) ≡ true }
        ensures path { IfOk result (λ found. found.items ≡ path network.now from to) }
        ensures simple { IfOk result (λ found. IsSimple network.now.edges found.items) }
        ensures shortest { IfOk result (λ found. IsShortest network.now from to found.items) }
        ensures last { IfOk result (λ found. EndsFirst network.now from to found.items) }
    {
        let mut path = self.path_back(alloc, network, from, to)?;
        path.reverse();
        Ok(path)
    }

    // The indexes of the edges of the path to a stop, from the last one back.
    fn path_back(
        &self,
        alloc: Global,
        network: &Network,
        from: usize,
        to: usize,
    ) -> Result<Vec<usize>, NoMemory>
        requires paths { ArePaths network.now from self.now }
        requires to { to < length network.now.stops }
        ensures { IfOk result (λ back. reverse back.items ≡ path network.now from to) }
    {
        let mut back = Vec::new(alloc);
        let mut at = to;
        for step in 0..network.stop_count() {
            if at == from {
                return Ok(back);
            }
            match self.last_edge_to(at) {
                None => return Ok(back),
                Some(index) => {
                    back.push(index)?;
                    at = stop_before(network, index, at);
                }
            }
        }
        Ok(back)
    }
}

// The stop from which the edge of an index comes to a stop.
fn stop_before(network: &Network, index: usize, to: usize) -> usize
    requires { index < length network.now.edges }
    ensures { result ≡ stop_before network.now.edges index to }
{
    network.edge(index).across(to).unwrap_or(to)
}

// The indexes of the last edges of the paths to each stop, where the least lengths to each stop are
// told.
fn last_edges(
    alloc: Global,
    network: &Network,
    lengths: &Reach,
) -> Result<Vec<Option<usize>>, NoMemory>
    requires { length lengths.now ≡ length network.now.stops }
    ensures { IfOk result (λ last. last.items
        ≡ map (last_edge network.now.edges (length_to lengths.now))
        (range_with_len 0 (length network.now.stops))) }
{
    let mut last = vec![in alloc; None; network.stop_count()]?;
    for index in 0..network.edge_count() {
        let edge = network.edge(index);
        note_edge(&mut last, lengths, index, &edge, edge.left);
        note_edge(&mut last, lengths, index, &edge, edge.right);
    }
    Ok(last)
}

// An edge becomes the last one of the path to a stop, where it ends a least walk to it and no edge
// before it does.
fn note_edge(last: &mut Vec<Option<usize>>, lengths: &Reach, index: usize, edge: &Edge, to: usize)
    requires to { to < vec_len last.old }
    requires left { edge.now.left < vec_len last.old }
    requires right { edge.now.right < vec_len last.old }
    requires lengths { length lengths.now ≡ vec_len last.old }
    ensures { last.new.items ≡ slice_set last.old.items to
        (last_with (length_to lengths.now) to (slice_index_or last.old.items to None)
        index edge.now) }
{
    if last[to].is_none() && ends_least(lengths, edge, to) {
        last[to] = Some(index);
    }
}

// Whether an edge ends a least walk to a stop.
fn ends_least(lengths: &Reach, edge: &Edge, to: usize) -> bool
    requires to { to < length lengths.now }
    requires left { edge.now.left < length lengths.now }
    requires right { edge.now.right < length lengths.now }
    ensures { result ≡ ends_least (length_to lengths.now) to edge.now }
{
    match edge.across(to) {
        None => false,
        Some(before) => is_sum(lengths.at(to), lengths.at(before), edge.length),
    }
}

// Whether a length is another one with that of an edge.
fn is_sum(whole: Option<i64>, before: Option<i64>, length: i64) -> bool
    requires { IfSome before (IsSumUpTo 10000000000000) }
    ensures { result ≡ are_equal (option_map unsigned_abs whole)
        (option_map (λ near. near + unsigned_abs length) (option_map unsigned_abs before)) }
{
    match (whole, before) {
        (Some(whole), Some(before)) => {
            whole.unsigned_abs() == before.unsigned_abs() + length.unsigned_abs()
        }
        _ => false,
    }
}
