// The strongly connected components of a graph, by one walk over its arcs.
ghost use Rattle.std.specs.Prelude.{◌≡◌, get_or};

use crate::cells::{at, set, zeros};
use plan_num::NoMemory;
use std::alloc::Global;
use std::marker::Model;

/// The components so far. Contracts see them as the number of each node. That of a component is no
/// less than those of the components to which its nodes lead; this is not promised: who takes the
/// numbers looks whether they serve.
pub(crate) struct Components {
    // The number of the component of each node, from 1; 0 where it has none so far.
    numbers: Vec<usize>,
    // The step at which each node was reached, from 1, and the least one to which it leads.
    reached: Vec<usize>,
    least: Vec<usize>,
    // How many arcs of each node were looked at.
    arcs: Vec<usize>,
    // The nodes without a component, and those of them from which the walk goes on.
    open: Vec<usize>,
    walk: Vec<usize>,
    steps: usize,
    count: usize,
}

impl Drop for Components {
    fn drop(self) {
        let Components {
            numbers: _,
            reached: _,
            least: _,
            arcs: _,
            open: _,
            walk: _,
            steps: _,
            count: _,
        } = self;
    }
}

impl Model for Components {
    ghost use Rattle.std.specs.Prelude.{List, ℕ};

    ghost Value = { List ℕ };

    ghost view = { λ components. components.numbers.items };
}

impl Components {
    /// So many nodes, of which none was reached.
    pub(crate) fn new(alloc: Global, nodes: usize) -> Result<Components, NoMemory> {
        Ok(Components {
            numbers: zeros(alloc, nodes)?,
            reached: zeros(alloc, nodes)?,
            least: zeros(alloc, nodes)?,
            arcs: zeros(alloc, nodes)?,
            open: Vec::new(alloc),
            walk: Vec::new(alloc),
            steps: 0,
            count: 0,
        })
    }

    /// The number of the component of a node; 0 where there is no such node.
    pub(crate) fn number(&self, node: usize) -> u64
        ensures { result ≡ get_or self.now node 0 }
    {
        at(&self.numbers, node) as u64
    }

    /// How many arcs of a node were looked at.
    pub(crate) fn arcs(&self, node: usize) -> usize {
        at(&self.arcs, node)
    }

    /// So many arcs of a node were looked at.
    pub(crate) fn set_arcs(&mut self, node: usize, arcs: usize) {
        set(&mut self.arcs, node, arcs);
    }

    /// The node from which the walk goes on.
    pub(crate) fn last(&self) -> Option<usize> {
        self.walk.last().copied()
    }

    /// Whether a node was not reached.
    pub(crate) fn is_new(&self, node: usize) -> bool {
        at(&self.reached, node) == 0
    }

    /// Goes on from a node that was not reached.
    pub(crate) fn enter(&mut self, node: usize) -> Result<(), NoMemory> {
        self.steps = self.steps.saturating_add(1);
        set(&mut self.reached, node, self.steps);
        set(&mut self.least, node, self.steps);
        self.open.push(node)?;
        self.walk.push(node)?;
        Ok(())
    }

    /// Looks at an arc, and tells whether it leads to a node that was not reached.
    pub(crate) fn look(&mut self, from: usize, to: usize) -> bool {
        if 0 < at(&self.numbers, to) {
            return false;
        }
        let step = at(&self.reached, to);
        if step == 0 {
            return true;
        }
        self.lower(from, step);
        false
    }

    /// Goes back from a node of which all arcs were looked at. Where it leads to none before it,
    /// what is open from it on is a component.
    pub(crate) fn leave(&mut self, node: usize) {
        let least = at(&self.least, node);
        if least == at(&self.reached, node) {
            self.close(node);
        }
        self.walk.pop();
        if let Some(before) = self.last() {
            self.lower(before, least);
        }
    }

    // A node leads to one that was reached at a step.
    fn lower(&mut self, node: usize, step: usize) {
        let least = at(&self.least, node).min(step);
        set(&mut self.least, node, least);
    }

    // Makes a component of what is open from a node on.
    fn close(&mut self, node: usize) {
        self.count = self.count.saturating_add(1);
        for _turn in 0..self.open.len() {
            if let Some(last) = self.open.pop() {
                set(&mut self.numbers, last, self.count);
                if last == node {
                    return;
                }
            }
        }
    }
}
