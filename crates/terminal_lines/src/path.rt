// Paths with their sets of edges.
ghost use Rattle.std.specs.Prelude.{◌≡◌, ◌<◌, nat_eq, length, All, IfOk};
ghost use Rattle.std.specs.List.{list_any};
ghost use Rattle.terminal_lines.specs.TerminalPaths.{lies_in};

use plan_num::NoMemory;
use std::alloc::Global;
use std::marker::Model;
use walks::Network;

/// The indexes of the edges of a path in their order, and the set of them. Contracts see it as the
/// list of the indexes.
#[derive(Drop)]
pub struct Path {
    edges: Vec<usize>,
    has: Vec<bool>,
}

impl Model for Path {
    ghost use Rattle.std.specs.Prelude.{ℕ, ◌≡◌, List, false, get_or, nat_eq};
    ghost use Rattle.std.specs.List.{list_any};

    ghost Value = { List ℕ };

    ghost view = { λ path. path.edges.items };

    ghost invariant = { λ path. (edge : ℕ)
        → get_or path.has.items edge false ≡ list_any (nat_eq edge) path.edges.items };
}

impl Path {
    /// The path over edges of a network.
    pub fn new(alloc: Global, network: &Network, edges: Vec<usize>) -> Result<Path, NoMemory>
        requires { All (λ edge. edge < length network.now.edges) edges.items }
        ensures { IfOk result (λ path. path ≡ edges.items) }
    {
        let mut has = vec![in alloc; false; network.edge_count()]?;
        for edge in &edges {
            has[*edge] = true;
        }
        Ok(Path { edges, has })
    }

    /// The same path once more.
    pub fn copy(&self, alloc: Global) -> Result<Path, NoMemory>
        ensures { IfOk result (λ path. path ≡ self.now) }
    {
        Ok(Path {
            edges: Vec::from_slice(alloc, &self.edges)?,
            has: Vec::from_slice(alloc, &self.has)?,
        })
    }

    /// The indexes of its edges, in their order.
    pub fn edges(&self) -> &[usize]
        ensures { result.now ≡ self.now }
    {
        &self.edges
    }

    /// Whether an edge is one of its edges.
    pub fn has(&self, edge: usize) -> bool
        ensures { result ≡ list_any (nat_eq edge) self.now }
    {
        match self.has.get(edge) {
            Some(has) => *has,
            None => false,
        }
    }

    /// Whether its edges are all among those of another path.
    pub fn lies_in(&self, other: &Path) -> bool
        ensures { result ≡ lies_in self.now other.now }
    {
        self.edges.iter().all(|edge| other.has(*edge))
    }
}
