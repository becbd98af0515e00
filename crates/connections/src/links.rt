// Connections by the ranks of their tails.
ghost use Rattle.std.specs.Prelude.{◌≡◌, ◌<◌, ◌≤◌, ◌==◌, ◌&&◌, length, All, IfOk};
ghost use Rattle.std.specs.List.Sorted.{IsNonDecreasingBy, IsPermutation};
ghost use Rattle.connections.specs.Links.{links_of};

use crate::connection::Connection;
use plan_num::NoMemory;
use std::alloc::Global;

/// A connection with its index, and the rank of its tail.
#[derive(Clone, Copy, Debug)]
pub(crate) struct Link {
    pub(crate) rank: u64,
    pub(crate) from: u32,
    pub(crate) to: u32,
    pub(crate) index: u32,
}

impl Link {
    /// Whether it leads from one event to another.
    pub(crate) fn leads(&self, from: usize, to: usize) -> bool
        ensures { result ≡ (self.now.from == from) && (self.now.to == to) }
    {
        self.from as usize == from && self.to as usize == to
    }
}

/// The connections by the ranks of their tails.
pub(crate) fn links_in_order(
    alloc: Global,
    connections: &[Connection],
    ranks: &[u64],
) -> Result<Vec<Link>, NoMemory>
    requires few_connections { length connections.now ≤ 500000 }
    requires tails { All (λ connection. connection.from < length ranks.now) connections.now }
    ensures all { IfOk result
        (λ links. IsPermutation (links_of ranks.now 0 connections.now) links.items) }
    ensures in_order { IfOk result (λ links. IsNonDecreasingBy (λ link. link.rank) links.items) }
{
    let mut links = all_links(alloc, connections, ranks)?;
    links.sort_unstable_by_key(|link| link.rank);
    Ok(links)
}

// The connections with their ranks, in the order of their indexes.
fn all_links(
    alloc: Global,
    connections: &[Connection],
    ranks: &[u64],
) -> Result<Vec<Link>, NoMemory>
    requires few_connections { length connections.now ≤ 500000 }
    requires tails { All (λ connection. connection.from < length ranks.now) connections.now }
    ensures { IfOk result (λ links. links.items ≡ links_of ranks.now 0 connections.now) }
{
    let mut links = Vec::with_capacity(alloc, connections.len())?;
    for (index, connection) in connections.iter().enumerate() {
        links.push(Link {
            rank: ranks[connection.from as usize],
            from: connection.from,
            to: connection.to,
            index: index as u32,
        })?;
    }
    Ok(links)
}
