// Networks.
ghost use Rattle.std.specs.Prelude.{◌≡◌, ◌<◌, length, slice_get, position, Some, map, IfOk};
ghost use Rattle.std.specs.Map.{values_of};
ghost use Rattle.std.specs.Ordering.{int_eq};
ghost use Rattle.walks.specs.Networks.{AreKeyed, IsEdge, IsNetwork};
ghost use Rattle.walks.specs.StopEdges.{AreEdgesAt};

use crate::edge::Edge;
use crate::stop_edges::StopEdges;
use indexmap::{IndexMap, IndexSet};
use plan_num::NoMemory;
use std::alloc::Global;
use std::marker::Model;

/// Stops and edges, each by id rising. An index of a stop or of an edge is its place in that order.
pub struct Network {
    stops: IndexSet<i64>,
    edges: IndexMap<i64, Edge>,
    at_stops: StopEdges,
}

impl Drop for Network {
    fn drop(self) {
        let Network {
            stops: _,
            edges: _,
            at_stops: _,
        } = self;
    }
}

impl Model for Network {
    ghost use Rattle.std.specs.Map.{values_of};
    ghost use Rattle.std.specs.Prelude.{length};
    ghost use Rattle.walks.specs.Networks.{NetworkParts, AreKeyed, IsNetwork};
    ghost use Rattle.walks.specs.StopEdges.{AreStopEdges};

    ghost Value = { NetworkParts };

    ghost view = { λ n. record { stops = n.stops.keys; edges = values_of n.edges.entries } };

    ghost invariant = { λ n. AreKeyed n.edges.entries
        × IsNetwork (record { stops = n.stops.keys; edges = values_of n.edges.entries })
        × AreStopEdges (length n.stops.keys) (values_of n.edges.entries) n.at_stops };
}

impl Network {
    /// The network of stops by their ids, rising, and of edges between them, each under its id and
    /// by id rising: at most 1,000 of either. An edge joins two stops, is 0.000001 to 10,000 long,
    /// in millionths, and is driven in 1 to 10,000 minutes.
    pub fn new(
        alloc: Global,
        stops: IndexSet<i64>,
        edges: IndexMap<i64, Edge>,
    ) -> Result<Network, NoMemory>
        requires keyed { AreKeyed edges.entries }
        requires network { IsNetwork (record { stops = stops.keys; edges = values_of edges.entries }) }
        ensures { IfOk result (λ network. network
            ≡ record { stops = stops.keys; edges = values_of edges.entries }) }
    {
        let at_stops = StopEdges::new(alloc, stops.len(), &edges)?;
        Ok(Network {
            stops,
            edges,
            at_stops,
        })
    }

    /// How many stops there are.
    pub fn stop_count(&self) -> usize
        ensures count { result ≡ length self.now.stops }
        ensures network { IsNetwork self.now }
    {
        self.stops.len()
    }

    /// How many edges there are.
    pub fn edge_count(&self) -> usize
        ensures count { result ≡ length self.now.edges }
        ensures network { IsNetwork self.now }
    {
        self.edges.len()
    }

    /// The id of the stop at an index.
    pub fn stop_id(&self, stop: usize) -> i64
        requires { stop < length self.now.stops }
        ensures { slice_get self.now.stops stop ≡ Some result }
    {
        self.stops.as_slice()[stop]
    }

    /// The index of the stop of an id.
    pub fn stop_index(&self, id: i64) -> Option<usize>
        ensures { result ≡ position (int_eq id) self.now.stops }
    {
        self.stops.get_index_of(&id)
    }

    /// The index of the edge of an id.
    pub fn edge_index(&self, id: i64) -> Option<usize>
        ensures { result ≡ position (int_eq id) (map (λ edge. edge.id) self.now.edges) }
    {
        self.edges.get_index_of(&id)
    }

    /// The edge at an index.
    pub fn edge(&self, index: usize) -> Edge
        requires { index < length self.now.edges }
        ensures place { slice_get self.now.edges index ≡ Some result }
        ensures sound { IsEdge (length self.now.stops) result }
    {
        self.edges[index]
    }

    /// The indexes of the edges that can be driven from the stop at an index.
    pub(crate) fn edges_at(&self, stop: usize) -> &[usize]
        requires { stop < length self.now.stops }
        ensures { AreEdgesAt self.now.edges stop result.now }
    {
        self.at_stops.at(stop)
    }
}
