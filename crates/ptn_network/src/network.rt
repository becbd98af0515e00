// Networks of texts.
ghost use Rattle.std.specs.Prelude.{◌≡◌, ◌<◌, length, slice_get, position, Some, map, IfOk};
ghost use Rattle.std.specs.Ordering.{int_eq};
ghost use Rattle.tables.specs.Inputs.{UnlessFault};
ghost use Rattle.ptn_network.specs.Networks.{network_of, network_faults};
ghost use Rattle.walks.specs.Networks.{IsEdge, IsNetwork};
ghost use Rattle.walks.specs.Walks.{edge_length, edge_time, least_sums, AreLeastSums, AreSumsUpTo};

use crate::edges::read_edges;
use crate::stops::read_stops;
use plan_num::NoMemory;
use std::alloc::Global;
use std::marker::Model;
use tables::StageFault;
use walks::{Edge, Reach};

/// Stops and edges, each by id rising. An index of a stop or of an edge is its place in that order.
/// Contracts see it as that of `walks`, which it holds.
#[derive(Drop)]
pub struct Network {
    network: walks::Network,
}

impl Model for Network {
    ghost use Rattle.walks.specs.Networks.{NetworkParts};

    ghost Value = { NetworkParts };

    ghost view = { λ network. network.network };
}

impl Network {
    /// The network of the texts of stops and of edges, or the first fault of the texts.
    pub fn from_texts(alloc: Global, stops: &[u8], edges: &[u8]) -> Result<Network, StageFault>
        ensures { UnlessFault (network_faults stops.now edges.now)
            (λ network. network ≡ network_of stops.now edges.now) result }
    {
        let stops = read_stops(alloc, stops)?;
        let edges = read_edges(alloc, &stops, edges)?;
        let network = walks::Network::new(alloc, stops, edges)?;
        Ok(Network { network })
    }

    /// The same, for walks over it.
    pub fn for_walks(&self) -> &walks::Network
        ensures { result.now ≡ self.now }
    {
        &self.network
    }

    /// How many stops there are.
    pub fn stop_count(&self) -> usize
        ensures count { result ≡ length self.now.stops }
        ensures network { IsNetwork self.now }
    {
        self.network.stop_count()
    }

    /// How many edges there are.
    pub fn edge_count(&self) -> usize
        ensures count { result ≡ length self.now.edges }
        ensures network { IsNetwork self.now }
    {
        self.network.edge_count()
    }

    /// The id of the stop at an index.
    pub fn stop_id(&self, stop: usize) -> i64
        requires { stop < length self.now.stops }
        ensures { slice_get self.now.stops stop ≡ Some result }
    {
        self.network.stop_id(stop)
    }

    /// The index of the stop of an id.
    pub fn stop_index(&self, id: i64) -> Option<usize>
        ensures { result ≡ position (int_eq id) self.now.stops }
    {
        self.network.stop_index(id)
    }

    /// The index of the edge of an id.
    pub fn edge_index(&self, id: i64) -> Option<usize>
        ensures { result ≡ position (int_eq id) (map (λ edge. edge.id) self.now.edges) }
    {
        self.network.edge_index(id)
    }

    /// The edge at an index.
    pub fn edge(&self, index: usize) -> Edge
        requires { index < length self.now.edges }
        ensures place { slice_get self.now.edges index ≡ Some result }
        ensures sound { IsEdge (length self.now.stops) result }
    {
        self.network.edge(index)
    }

    /// The least lengths of walks from a stop, in millionths.
    pub fn least_lengths(&self, alloc: Global, from: usize) -> Result<Reach, NoMemory>
        requires { from < length self.now.stops }
        ensures sums { IfOk result (λ reach. reach ≡ least_sums self.now edge_length from) }
        ensures least { IfOk result (λ reach. AreLeastSums self.now edge_length from reach) }
        ensures size { IfOk result (λ reach. length reach ≡ length self.now.stops) }
        ensures small { IfOk result (λ reach. AreSumsUpTo 10000000000000 reach) }
    {
        self.network.least_lengths(alloc, from)
    }

    /// The least times of walks from a stop, in minutes: the sums of the least minutes of drives.
    pub fn least_times(&self, alloc: Global, from: usize) -> Result<Reach, NoMemory>
        requires { from < length self.now.stops }
        ensures sums { IfOk result (λ reach. reach ≡ least_sums self.now edge_time from) }
        ensures least { IfOk result (λ reach. AreLeastSums self.now edge_time from reach) }
        ensures size { IfOk result (λ reach. length reach ≡ length self.now.stops) }
        ensures small { IfOk result (λ reach. AreSumsUpTo 10000000 reach) }
    {
        self.network.least_times(alloc, from)
    }
}
