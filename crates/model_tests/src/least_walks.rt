// Least sums over walks, and shortest paths.
ghost use Rattle.std.specs.Prelude.{◌≡◌, ◌<◌, length};
ghost use Rattle.walks.specs.Networks.{IsNetwork};
ghost use Rattle.walks.specs.Paths.{ArePaths};

use crate::refusing::{ROUND_EDGES, ROUND_STOPS};
use giv_files::StageFault;
use plan_num::NoMemory;
use ptn_network::{Network, Paths, Reach};
use std::alloc::Global;
use std::process::Abort;
use std::test::Fail;

const STOPS: &[u8] = b"1; A; A; 0; 0\n2; B; B; 0; 0\n3; C; C; 0; 0\n4; D; D; 0; 0\n";

// Two edges one behind the other, and a stop that no walk reaches.
const ROW: &[u8] = b"1; 1; 2; 2; 4; 5\n2; 2; 3; 3; 6; 6\n";

struct Case {
    stops: &'static [u8],
    edges: &'static [u8],
    from: usize,
    lengths: &'static [Option<i64>],
    times: &'static [Option<i64>],
}

const IN_A_ROW: [Case; 4] = [
    Case {
        stops: STOPS,
        edges: ROW,
        from: 0,
        lengths: &[Some(0), Some(2_000_000), Some(5_000_000), None],
        times: &[Some(0), Some(4), Some(10), None],
    },
    // The same edges, driven against their direction.
    Case {
        stops: STOPS,
        edges: ROW,
        from: 2,
        lengths: &[Some(5_000_000), Some(3_000_000), Some(0), None],
        times: &[Some(10), Some(6), Some(0), None],
    },
    // A stop without edges.
    Case {
        stops: STOPS,
        edges: ROW,
        from: 3,
        lengths: &[None, None, None, Some(0)],
        times: &[None, None, None, Some(0)],
    },
    // One stop alone.
    Case {
        stops: b"1; ; ; ; 0\n",
        edges: b"",
        from: 0,
        lengths: &[Some(0)],
        times: &[Some(0)],
    },
];

const SEVERAL_WAYS: [Case; 3] = [
    // Parallel edges: the lesser counts, and lengths and times may choose different ones.
    Case {
        stops: b"1; ; ; ; 0\n2; ; ; ; 0\n",
        edges: b"1; 1; 2; 2.5; 1; 5\n2; 2; 1; 0.5; 7; 9\n3; 1; 2; 1; 3; 3\n",
        from: 0,
        lengths: &[Some(0), Some(500_000)],
        times: &[Some(0), Some(1)],
    },
    // A stop that is reached early by a far way and later by a near one.
    Case {
        stops: STOPS,
        edges: b"1; 1; 4; 9; 9; 9\n2; 1; 2; 1; 1; 1\n3; 2; 3; 1; 1; 1\n4; 3; 4; 1; 9; 9\n",
        from: 0,
        lengths: &[Some(0), Some(1_000_000), Some(2_000_000), Some(3_000_000)],
        times: &[Some(0), Some(1), Some(2), Some(9)],
    },
    // Two equal ways round.
    Case {
        stops: STOPS,
        edges: b"1; 1; 2; 1; 2; 2\n2; 2; 4; 3; 3; 3\n3; 1; 3; 3; 3; 3\n4; 3; 4; 1; 2; 2\n",
        from: 0,
        lengths: &[Some(0), Some(1_000_000), Some(3_000_000), Some(4_000_000)],
        times: &[Some(0), Some(2), Some(3), Some(5)],
    },
];

// The sums to all stops are those that are wanted.
fn has_sums(reach: &Reach, want: &[Option<i64>]) -> bool
    requires { length reach.now ≡ length want.now }
{
    for (to, sum) in want.iter().enumerate() {
        if reach.at(to) != *sum {
            return false;
        }
    }
    true
}

// The least lengths and times from a stop of a network are these.
fn has_least(
    alloc: Global,
    network: &Network,
    from: usize,
    lengths: &[Option<i64>],
    times: &[Option<i64>],
) -> Result<(bool, bool), NoMemory> {
    Ok((
        has_lengths(alloc, network, from, lengths)?,
        has_times(alloc, network, from, times)?,
    ))
}

fn has_lengths(
    alloc: Global,
    network: &Network,
    from: usize,
    want: &[Option<i64>],
) -> Result<bool, NoMemory> {
    if from >= network.stop_count() || want.len() != network.stop_count() {
        return Ok(false);
    }
    let lengths = network.least_lengths(alloc, from)?;
    Ok(has_sums(&lengths, want))
}

fn has_times(
    alloc: Global,
    network: &Network,
    from: usize,
    want: &[Option<i64>],
) -> Result<bool, NoMemory> {
    if from >= network.stop_count() || want.len() != network.stop_count() {
        return Ok(false);
    }
    let times = network.least_times(alloc, from)?;
    Ok(has_sums(&times, want))
}

// The least sums are those of a case.
fn is_least(alloc: Global, case: &Case) -> Result<(bool, bool), StageFault> {
    let network = Network::from_texts(alloc, case.stops, case.edges)?;
    Ok(has_least(alloc, &network, case.from, case.lengths, case.times)?)
}

// The least sums are those of some cases.
fn are_least(rt: &(impl AllocGlobal + Abort), cases: &[Case]) -> Result<(), Fail> {
    for case in cases {
        assert_eq!(rt; is_least(rt.alloc(), case)?, (true, true));
    }
    Ok(())
}

#[test]
fn least_sums_are_over_all_walks(rt: HostRuntime) -> Result<(), Fail> {
    are_least(&rt, &IN_A_ROW)
}

#[test]
fn least_sums_are_over_several_ways(rt: HostRuntime) -> Result<(), Fail> {
    are_least(&rt, &SEVERAL_WAYS)
}

// Indexes of two stops, and those of the edges that are wanted, where a walk joins the stops.
const PATHS: [(usize, usize, Option<&[usize]>); 6] = [
    (0, 3, Some(&[1, 0])),
    (3, 0, Some(&[0, 1])),
    (1, 2, Some(&[1, 2])),
    (2, 1, Some(&[3, 0])),
    (2, 2, Some(&[])),
    (0, 4, None),
];

// The edges of the path from a stop to another one, where there is one.
fn path_of(
    alloc: Global,
    paths: &Paths,
    network: &Network,
    from: usize,
    to: usize,
) -> Result<Option<Vec<usize>>, NoMemory>
    requires network { IsNetwork network.now }
    requires paths { ArePaths network.now from paths.now }
    requires to { to < length network.now.stops }
{
    if paths.reaches(to) {
        Ok(Some(paths.path_to(alloc, network.for_walks(), from, to)?))
    } else {
        Ok(None)
    }
}

// The same of stops that may not be there.
fn path(
    alloc: Global,
    network: &Network,
    from: usize,
    to: usize,
) -> Result<Option<Vec<usize>>, NoMemory> {
    if from >= network.stop_count() || to >= network.stop_count() {
        return Ok(None);
    }
    let paths = Paths::from_stop(alloc, network.for_walks(), from)?;
    path_of(alloc, &paths, network, from, to)
}

#[test]
fn each_step_of_a_path_is_the_least_that_ends_a_shortest_walk(rt: HostRuntime) -> Result<(), Fail> {
    let network = Network::from_texts(rt.alloc(), ROUND_STOPS, ROUND_EDGES)?;
    for (from, to, want) in PATHS {
        let path = path(rt.alloc(), &network, from, to)?;
        let edges = path.as_ref().map(|edges| edges.as_slice());
        assert_eq!(rt; edges, want, "{from} to {to}");
    }
    Ok(())
}
