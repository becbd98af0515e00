// The paths between terminals.
ghost use Rattle.std.specs.Prelude.{◌≡◌, ◌<◌, ◌++◌, length, filter_map, option_to_list, All, IfOk, OnOk};
ghost use Rattle.walks.specs.Networks.{IsNetwork};
ghost use Rattle.walks.specs.Paths.{way, ArePaths};
ghost use Rattle.terminal_lines.specs.Terminals.{AreStops, paths_over, way_between};

use crate::path::Path;
use crate::terminal::Terminal;
use plan_num::NoMemory;
use std::alloc::Global;
use walks::{Network, Paths};

/// The paths of the pairs of terminals that a walk joins, each from the lesser id to the greater
/// one: by the first terminal, and then by the second.
pub fn paths_between(
    alloc: Global,
    network: &Network,
    terminals: &[Terminal],
) -> Result<Vec<Path>, NoMemory>
    requires network { IsNetwork network.now }
    requires stops { AreStops network.now terminals.now }
    ensures { IfOk result (λ paths. paths.items ≡ paths_over network.now terminals.now) }
{
    let mut paths = Vec::new(alloc);
    for from in terminals {
        push_paths(alloc, network, from, terminals, &mut paths)?;
    }
    Ok(paths)
}

// The paths from one terminal to those of greater ids are put behind some paths.
fn push_paths(
    alloc: Global,
    network: &Network,
    from: &Terminal,
    terminals: &[Terminal],
    paths: &mut Vec<Path>,
) -> Result<(), NoMemory>
    requires network { IsNetwork network.now }
    requires from { from.now.stop < length network.now.stops }
    requires stops { AreStops network.now terminals.now }
    ensures { OnOk result (paths.new.items ≡ paths.old.items
        ++ filter_map (way_between network.now from.now) terminals.now) }
{
    let known = Paths::from_stop(alloc, network, from.stop)?;
    for to in terminals {
        push_found(paths, path_between(alloc, network, &known, from, to)?)?;
    }
    Ok(())
}

// A path is put behind some others, where it was found.
fn push_found(paths: &mut Vec<Path>, found: Option<Path>) -> Result<(), NoMemory>
    ensures { OnOk result (paths.new.items ≡ paths.old.items ++ option_to_list found) }
{
    if let Some(path) = found {
        paths.push(path)?;
    }
    Ok(())
}

// The path between two terminals, where the second has the greater id and a walk joins them.
fn path_between(
    alloc: Global,
    network: &Network,
    known: &Paths,
    from: &Terminal,
    to: &Terminal,
) -> Result<Option<Path>, NoMemory>
    requires network { IsNetwork network.now }
    requires known { ArePaths network.now from.now.stop known.now }
    requires to { to.now.stop < length network.now.stops }
    ensures { IfOk result (λ found. found ≡ way_between network.now from.now to.now) }
{
    if from.id < to.id {
        way(alloc, network, known, from.stop, to.stop)
    } else {
        Ok(None)
    }
}

// The path between two stops, where a walk joins them.
fn way(
    alloc: Global,
    network: &Network,
    known: &Paths,
    from: usize,
    to: usize,
) -> Result<Option<Path>, NoMemory>
    requires network { IsNetwork network.now }
    requires known { ArePaths network.now from known.now }
    requires to { to < length network.now.stops }
    ensures { IfOk result (λ found. found ≡ way network.now from to) }
{
    if !known.reaches(to) {
        return Ok(None);
    }
    let edges = known.path_to(alloc, network, from, to)?;
    Ok(Some(Path::new(alloc, network, edges)?))
}
