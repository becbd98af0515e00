// Networks of texts, and loads of their edges.
use crate::refusing::{EDGES, ROUND_EDGES, ROUND_STOPS, STOPS};
use giv_files::{FileId, StageFault};
use ptn_network::{Edge, EdgeLoad, Loads, Network};
use std::alloc::Global;
use std::process::Abort;
use std::test::Fail;

const FIRST: Edge = Edge {
    id: 1,
    left: 0,
    right: 1,
    length: 2_000_000,
    lower: 4,
    upper: 5,
};

const SECOND: Edge = Edge {
    id: 2,
    left: 1,
    right: 2,
    length: 3_000_000,
    lower: 6,
    upper: 6,
};

// The edges between two stops.
const PARALLEL: [Edge; 3] = [
    Edge {
        id: 5,
        left: 0,
        right: 1,
        length: 10_000_000_000,
        lower: 1,
        upper: 10_000,
    },
    Edge {
        id: 6,
        left: 1,
        right: 0,
        length: 1_250_000,
        lower: 2,
        upper: 3,
    },
    Edge {
        id: 7,
        left: 0,
        right: 1,
        length: 500_000,
        lower: 1,
        upper: 1,
    },
];

// The id of a stop, and the index of that id.
fn stop_at(network: &Network, index: usize) -> Option<(i64, Option<usize>)> {
    if index < network.stop_count() {
        let id = network.stop_id(index);
        Some((id, network.stop_index(id)))
    } else {
        None
    }
}

// An edge, and the index of its id.
fn edge_at(network: &Network, index: usize) -> Option<(Edge, Option<usize>)> {
    if index < network.edge_count() {
        let edge = network.edge(index);
        Some((edge, network.edge_index(edge.id)))
    } else {
        None
    }
}

// A network has these stops by their ids, and no stop 4.
fn has_stops(rt: &impl Abort, network: &Network, ids: &[i64]) {
    for (index, id) in ids.iter().enumerate() {
        assert_eq!(rt; stop_at(network, index), Some((*id, Some(index))));
    }
    assert_eq!(rt;
        (network.stop_count(), network.stop_index(4)),
        (ids.len(), None)
    );
}

// It has these edges by their ids, and no edge 0.
fn has_edges(rt: &impl Abort, network: &Network, edges: &[Edge]) {
    for (index, edge) in edges.iter().enumerate() {
        assert_eq!(rt; edge_at(network, index), Some((*edge, Some(index))));
    }
    assert_eq!(rt;
        (network.edge_count(), network.edge_index(0)),
        (edges.len(), None)
    );
}

// The network of two texts has these stops and edges.
fn is_read(
    rt: &(impl AllocGlobal + Abort),
    stops: &[u8],
    edges: &[u8],
    want_stops: &[i64],
    want_edges: &[Edge],
) -> Result<(), Fail> {
    let network = Network::from_texts(rt.alloc(), stops, edges)?;
    has_stops(rt, &network, want_stops);
    has_edges(rt, &network, want_edges);
    Ok(())
}

#[test]
fn stops_and_edges_are_by_id(rt: HostRuntime) -> Result<(), Fail> {
    is_read(&rt, STOPS, EDGES, &[1, 2, 3], &[FIRST, SECOND])?;
    is_read(&rt, b"", b"", &[], &[])?;
    // Ids that are not in order.
    is_read(
        &rt,
        b"3; C; C; 0; 0\n1; A; A; 0; 0\n2; B; B; 0; 0\n",
        b"2; 2; 3; 3; 6; 6\n1; 1; 2; 2; 4; 5\n",
        &[1, 2, 3],
        &[FIRST, SECOND],
    )
}

#[test]
fn two_edges_join_the_same_stops(rt: HostRuntime) -> Result<(), Fail> {
    // One of them begins at the later stop.
    is_read(
        &rt,
        b"10; ; ; ; 0\n30; ; ; ; 0\n",
        b"7; 10; 30; 0.5; 1; 1\n5; 10; 30; 10000; 1; 10000\n6; 30; 10; 1.25; 2; 3\n",
        &[10, 30],
        &PARALLEL,
    )?;
    // The greatest id.
    is_read(&rt, b"1000000000; ; ; ; 0\n", b"", &[1_000_000_000], &[])
}

const GIVEN: &[u8] = b"# loads\n5; 1; 0; 0\n1; 80.5; 1; 3\n2; 0; 0; 1\n3; 0; 0; 0\n4; 7; 2; 2\n";

const LOADS: [EdgeLoad; 5] = [
    EdgeLoad {
        load: 80_500_000,
        least: 1,
        most: 3,
    },
    EdgeLoad {
        load: 0,
        least: 0,
        most: 1,
    },
    EdgeLoad {
        load: 0,
        least: 0,
        most: 0,
    },
    EdgeLoad {
        load: 7_000_000,
        least: 2,
        most: 2,
    },
    EdgeLoad {
        load: 1_000_000,
        least: 0,
        most: 0,
    },
];

// What a text of loads gives the edges.
fn loads_of(alloc: Global, file: FileId) -> Result<Loads, StageFault> {
    let network = Network::from_texts(alloc, ROUND_STOPS, ROUND_EDGES)?;
    Loads::from_text(alloc, &network, file, GIVEN)
}

// The load of an edge, where it is there.
fn load_at(loads: &Loads, index: usize) -> Option<EdgeLoad> {
    if index < loads.len() {
        Some(loads.get(index))
    } else {
        None
    }
}

// Loads are these.
fn has_loads(rt: &impl Abort, loads: &Loads) {
    assert_eq!(rt; loads.len(), LOADS.len());
    for (index, want) in LOADS.iter().enumerate() {
        assert_eq!(rt; load_at(loads, index), Some(*want));
    }
}

#[test]
fn loads_of_either_file_are_by_edge(rt: HostRuntime) -> Result<(), Fail> {
    for file in [FileId::LoadGiven, FileId::Load] {
        let loads = loads_of(rt.alloc(), file)?;
        has_loads(&rt, &loads);
    }
    Ok(())
}
