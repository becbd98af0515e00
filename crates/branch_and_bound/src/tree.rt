// Trees.
ghost use Rattle.std.specs.Prelude.{◌≡◌, ◌<◌, ◌++◌, ◌∷◌, [], length, slice_get, Some, OnOk, OnErr};

use plan_num::NoMemory;
use std::alloc::Global;
use std::marker::Model;

/// The nodes of a tree in preorder. Contracts see it as their list.
#[derive(Debug, Drop)]
pub struct Tree<N> {
    nodes: Vec<N>,
}

impl<N> Model for Tree<N> {
    ghost use Rattle.std.specs.Prelude.{List};

    ghost Value = { List N };

    ghost view = { λ tree. tree.nodes.items };
}

impl<N: Drop> Tree<N> {
    /// No node.
    pub fn new(alloc: Global) -> Tree<N>
        ensures { result ≡ [] }
    {
        Tree {
            nodes: Vec::new(alloc),
        }
    }

    /// One node more, behind those that are there.
    pub fn push(&mut self, node: N) -> Result<(), NoMemory>
        ensures ok { OnOk result (self.new ≡ self.old ++ node ∷ []) }
        ensures err { OnErr result (self.new ≡ self.old) }
    {
        self.nodes.push(node)?;
        Ok(())
    }

    /// How many nodes there are.
    pub fn len(&self) -> usize
        ensures { result ≡ length self.now }
    {
        self.nodes.len()
    }

    /// The node at a place.
    pub fn node(&self, index: usize) -> &N
        requires { index < length self.now }
        ensures { slice_get self.now index ≡ Some result.now }
    {
        &self.nodes[index]
    }

    /// The same, by the name that lists of waiting decisions have for it.
    pub fn at(&self, index: usize) -> &N
        requires { index < length self.now }
        ensures { slice_get self.now index ≡ Some result.now }
    {
        self.node(index)
    }

    /// All nodes.
    pub fn nodes(&self) -> &[N]
        ensures { result.now ≡ self.now }
    {
        &self.nodes
    }
}
