// Stops by their distance from one stop.
ghost use Rattle.std.specs.Prelude.{◌≡◌, length, map, option_map, unsigned_abs, unwrap_or, IfOk};
ghost use Rattle.std.specs.List.{range_with_len};
ghost use Rattle.walks.specs.Paths.{ArePaths};
ghost use Rattle.demand_paths.specs.Wanted.{far_stop, AreByDistance};

use plan_num::NoMemory;
use std::alloc::Global;
use walks::{Network, Paths};

/// A stop with its distance from another, in millionths.
#[derive(Clone, Copy)]
pub(crate) struct FarStop {
    pub distance: u64,
    pub stop: usize,
}

/// All stops, the nearest first.
pub(crate) fn nearest_first(
    alloc: Global,
    network: &Network,
    paths: &Paths,
    from: usize,
) -> Result<Vec<FarStop>, NoMemory>
    requires { ArePaths network.now from paths.now }
    ensures { IfOk result (λ stops. AreByDistance network.now from stops.items) }
{
    let mut stops = all_stops(alloc, network, paths, from)?;
    stops.sort_unstable_by_key(|far| far.distance);
    Ok(stops)
}

// All stops in their order, and 0 as the distance where no walk goes.
fn all_stops(
    alloc: Global,
    network: &Network,
    paths: &Paths,
    from: usize,
) -> Result<Vec<FarStop>, NoMemory>
    requires { ArePaths network.now from paths.now }
    ensures { IfOk result (λ stops. stops.items ≡ map (far_stop network.now from)
        (range_with_len 0 (length network.now.stops))) }
{
    let mut stops = Vec::with_capacity(alloc, network.stop_count())?;
    for stop in 0..network.stop_count() {
        let distance = distance_of(paths.lengths().at(stop));
        stops.push(FarStop { distance, stop })?;
    }
    Ok(stops)
}

// A length, and 0 where there is none.
fn distance_of(length: Option<i64>) -> u64
    ensures { result ≡ unwrap_or (option_map unsigned_abs length) 0 }
{
    match length {
        None => 0,
        Some(length) => length.unsigned_abs(),
    }
}
