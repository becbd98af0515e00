// Four stops, and four edges around: two equal walks lead to the farthest stop.
ghost use Rattle.std.specs.Prelude.{◌≡◌, pos, ◌∷◌, [], length, map, IfOk};
ghost use Rattle.std.specs.Map.{values_of};
ghost use Rattle.walks.specs.Networks.{AreKeyed, IsNetwork};

use indexmap::{IndexMap, IndexSet};
use plan_num::NoMemory;
use std::alloc::Global;
use std::test::Fail;
use walks::{Edge, Network, Paths};

// The ids of the stops.
fn stops_around(alloc: Global) -> Result<IndexSet<i64>, NoMemory>
    ensures { IfOk result (λ stops. stops.keys ≡ pos 1 ∷ pos 2 ∷ pos 3 ∷ pos 4 ∷ []) }
{
    let mut stops = IndexSet::new(alloc);
    stops.insert(1)?;
    stops.insert(2)?;
    stops.insert(3)?;
    stops.insert(4)?;
    Ok(stops)
}

// An edge of so many millionths, which is driven in 2 to 5 minutes.
fn edge(id: i64, left: usize, right: usize, length: i64) -> Edge
    ensures { result ≡ record {
      id = id;
      left = left;
      right = right;
      length = length;
      lower = pos 2;
      upper = pos 5;
    } }
{
    Edge {
        id,
        left,
        right,
        length,
        lower: 2,
        upper: 5,
    }
}

// The edges by their ids.
fn edges_around(alloc: Global) -> Result<IndexMap<i64, Edge>, NoMemory>
    ensures keyed { IfOk result (λ edges. AreKeyed edges.entries) }
    ensures network { IfOk result (λ edges. IsNetwork (record {
      stops = pos 1 ∷ pos 2 ∷ pos 3 ∷ pos 4 ∷ [];
      edges = values_of edges.entries;
    })) }
{
    let mut edges = IndexMap::new(alloc);
    edges.insert(1, edge(1, 0, 1, 1_000_000))?;
    edges.insert(2, edge(2, 1, 3, 3_000_000))?;
    edges.insert(3, edge(3, 0, 2, 3_000_000))?;
    edges.insert(4, edge(4, 2, 3, 1_000_000))?;
    Ok(edges)
}

// The network of both.
fn around(alloc: Global) -> Result<Network, NoMemory>
    ensures stops { IfOk result (λ network. length network.stops ≡ 4) }
    ensures network { IfOk result IsNetwork }
{
    let stops = stops_around(alloc)?;
    let edges = edges_around(alloc)?;
    Network::new(alloc, stops, edges)
}

// From each stop the least lengths to all of them.
const LENGTHS: [(usize, [i64; 4]); 4] = [
    (0, [0, 1_000_000, 3_000_000, 4_000_000]),
    (1, [1_000_000, 0, 4_000_000, 3_000_000]),
    (2, [3_000_000, 4_000_000, 0, 1_000_000]),
    (3, [4_000_000, 3_000_000, 1_000_000, 0]),
];

#[test]
fn least_lengths_are_over_all_walks(rt: HostRuntime) -> Result<(), Fail> {
    let network = around(rt.alloc())?;
    for (from, want) in LENGTHS {
        if from < network.stop_count() {
            let lengths = network.least_lengths(rt.alloc(), from)?;
            for (to, length) in want.iter().enumerate() {
                if to < network.stop_count() {
                    assert_eq!(rt; lengths.at(to), Some(*length), "{from} to {to}");
                }
            }
        }
    }
    Ok(())
}

// Two stops, and the indexes of the edges of the path between them.
const PATHS: [(usize, usize, &[usize]); 4] = [
    (0, 3, &[0, 1]),
    (3, 0, &[1, 0]),
    (1, 2, &[0, 2]),
    (2, 2, &[]),
];

#[test]
fn paths_end_with_the_first_edge_of_a_least_walk(rt: HostRuntime) -> Result<(), Fail> {
    let network = around(rt.alloc())?;
    for (from, to, want) in PATHS {
        if from < network.stop_count() && to < network.stop_count() {
            let paths = Paths::from_stop(rt.alloc(), &network, from)?;
            if paths.reaches(to) {
                let path = paths.path_to(rt.alloc(), &network, from, to)?;
                assert_eq!(rt; path.as_slice(), want, "{from} to {to}");
            }
        }
    }
    Ok(())
}
