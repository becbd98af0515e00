// Paths that are known.
ghost use Rattle.std.specs.Prelude.{◌≡◌, ◌<◌, true, is_some, length, slice_index_or, None, Some, IfOk, OnOk};
ghost use Rattle.walks.specs.Paths.{ArePaths};
ghost use Rattle.walks.specs.Walks.{edge_length, least_sum};
ghost use Rattle.demand_paths.specs.Known.{AreKnown};

use plan_num::NoMemory;
use std::alloc::Global;
use std::marker::Model;
use walks::{Network, Paths};

/// The paths from each stop, where they were asked for. Contracts see it as the list of them, by
/// stop.
#[derive(Drop)]
pub struct KnownPaths {
    paths: Vec<Option<Paths>>,
}

impl Model for KnownPaths {
    ghost use Rattle.std.specs.Prelude.{List, Option};
    ghost use Rattle.walks.specs.Paths.{PathParts};

    ghost Value = { List (Option PathParts) };

    ghost view = { λ known. known.paths.items };
}

impl KnownPaths {
    /// Before any path was asked for.
    pub fn new(alloc: Global, network: &Network) -> Result<KnownPaths, NoMemory>
        ensures { IfOk result (AreKnown network.now) }
    {
        let mut paths = Vec::new(alloc);
        for _stop in 0..network.stop_count() {
            paths.push(None)?;
        }
        Ok(KnownPaths { paths })
    }

    /// Whether a walk joins two stops. The paths from the first one are known from then on.
    pub fn joins(
        &mut self,
        alloc: Global,
        network: &Network,
        from: usize,
        to: usize,
    ) -> Result<bool, NoMemory>
        requires known { AreKnown network.now self.old }
        requires from { from < length network.now.stops }
        requires to { to < length network.now.stops }
        ensures known { OnOk result (AreKnown network.now self.new) }
        ensures joined { IfOk result (λ joined. joined
            ≡ is_some (least_sum network.now edge_length from to)) }
    {
        self.learn(alloc, network, from)?;
        Ok(self.from_stop(from).reaches(to))
    }

    /// The paths from a stop, where they are known.
    pub(crate) fn from_stop(&self, from: usize) -> &Paths
        requires from { from < length self.now }
        requires there { is_some (slice_index_or self.now from None) ≡ true }
        ensures { slice_index_or self.now from None ≡ Some result.now }
    {
        match &self.paths[from] {
            None => unreachable!(),
            Some(paths) => paths,
        }
    }

    /// The paths from a stop are known from then on.
    pub(crate) fn learn(
        &mut self,
        alloc: Global,
        network: &Network,
        from: usize,
    ) -> Result<(), NoMemory>
        requires known { AreKnown network.now self.old }
        requires from { from < length network.now.stops }
        ensures known { OnOk result (AreKnown network.now self.new) }
        ensures there { OnOk result (is_some (slice_index_or self.new from None) ≡ true) }
    {
        if self.paths[from].is_some() {
            return Ok(());
        }
        let paths = Paths::from_stop(alloc, network, from)?;
        self.paths[from] = Some(paths);
        Ok(())
    }
}
