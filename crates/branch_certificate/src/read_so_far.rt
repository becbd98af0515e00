// What is read of a tree so far.
ghost use Rattle.plan_num.specs.declared.number.TheConstants.{NUMBER_LIMIT};
ghost use Rattle.std.specs.Prelude.{◌≡◌, ◌<◌, ◌^◌, ◌≤ℤ◌, ◌++◌, ◌∷◌, [], pos, not, option_map};
ghost use Rattle.std.specs.Prelude.{unwrap_or, if◌then◌else◌, false, None, Some, IfOk, OnOk};
ghost use Rattle.branch_certificate.specs.ReadRows.{IsInOrder, MayBeTaken, closed, is_due_in};
ghost use Rattle.branch_certificate.specs.ReadRows.{taken_by, takes, takes_row, with_row};

use crate::open_bound::OpenBound;
use crate::row_says::RowSays;
use line_concepts::{Node, Tree};
use plan_num::NoMemory;
use std::alloc::Global;

/// The nodes that were read whole, and the bound behind them whose multipliers may still come.
pub(crate) struct ReadSoFar {
    pub(crate) nodes: Tree,
    pub(crate) bound: Option<OpenBound>,
}

impl Drop for ReadSoFar {
    fn drop(self) {
        let ReadSoFar { nodes: _, bound: _ } = self;
    }
}

impl ReadSoFar {
    /// Before the first row.
    pub(crate) fn new(alloc: Global) -> ReadSoFar
        ensures { result ≡ record { nodes = []; bound = None } }
    {
        ReadSoFar {
            nodes: Tree::new(alloc),
            bound: None,
        }
    }

    /// Takes a row, where it stands in its place; tells whether it did.
    pub(crate) fn take(&mut self, alloc: Global, said: RowSays) -> Result<bool, NoMemory>
        requires order { IsInOrder self.old.bound }
        requires said { MayBeTaken said }
        ensures taken { IfOk result (λ taken. taken ≡ takes_row self.old said) }
        ensures new { IfOk result
            (λ taken. self.new ≡ (if taken then with_row self.old said else self.old)) }
    {
        match said {
            RowSays::Whole(node) => self.take_node(node),
            RowSays::Bound { count } => self.begin_bound(alloc, count),
            RowSays::Multiplier { edge, millionths } => self.take_multiplier(edge, millionths),
        }
    }

    /// Whether a multiplier is due.
    pub(crate) fn is_due(&self) -> bool
        ensures { result ≡ is_due_in self.now.bound }
    {
        match &self.bound {
            Some(bound) => bound.due > 0,
            None => false,
        }
    }

    /// The nodes, where the bound behind them has no further multiplier.
    pub(crate) fn into_tree(mut self) -> Result<Tree, NoMemory>
        ensures { IfOk result (λ tree. tree ≡ closed self.nodes self.bound) }
    {
        self.close()?;
        let ReadSoFar { nodes, bound: _ } = self;
        Ok(nodes)
    }

    // A bound that is open has no further multiplier.
    fn close(&mut self) -> Result<(), NoMemory>
        ensures { OnOk result (self.new
            ≡ record { nodes = closed self.old.nodes self.old.bound; bound = None }) }
    {
        if let Some(bound) = self.bound.take() {
            let multipliers = bound.multipliers;
            self.nodes.push(Node::Bound { multipliers })?;
        }
        Ok(())
    }

    // Takes a node, where no multiplier is due.
    fn take_node(&mut self, node: Node) -> Result<bool, NoMemory>
        ensures taken { IfOk result (λ taken. taken ≡ not (is_due_in self.old.bound)) }
        ensures new { IfOk result (λ taken. self.new ≡ (if taken
            then record { nodes = closed self.old.nodes self.old.bound ++ node ∷ []; bound = None }
            else self.old)) }
    {
        if self.is_due() {
            return Ok(false);
        }
        self.close()?;
        self.nodes.push(node)?;
        Ok(true)
    }

    // Begins a bound of so many multipliers, where none is due.
    fn begin_bound(&mut self, alloc: Global, count: u64) -> Result<bool, NoMemory>
        ensures taken { IfOk result (λ taken. taken ≡ not (is_due_in self.old.bound)) }
        ensures new { IfOk result (λ taken. self.new ≡ (if taken then record {
          nodes = closed self.old.nodes self.old.bound;
          bound = Some (record { multipliers = []; next = 0; due = count });
        } else self.old)) }
    {
        if self.is_due() {
            return Ok(false);
        }
        self.close()?;
        self.bound = Some(OpenBound::new(alloc, count));
        Ok(true)
    }

    // Takes a multiplier, where one is due and its edge rises.
    fn take_multiplier(&mut self, edge: usize, millionths: i64) -> Result<bool, NoMemory>
        requires order { IsInOrder self.old.bound }
        requires small { edge < 2 ^ 63 }
        requires some { pos 1 ≤ℤ millionths }
        requires few { millionths ≤ℤ pos NUMBER_LIMIT }
        ensures taken { IfOk result (λ taken. taken
            ≡ unwrap_or (option_map (λ bound. takes bound edge) self.old.bound) false) }
        ensures new { IfOk result (λ taken. self.new ≡ (if taken then record {
          nodes = self.old.nodes;
          bound = option_map (λ bound. taken_by bound edge millionths) self.old.bound;
        } else self.old)) }
    {
        match &mut self.bound {
            Some(bound) => bound.take(edge, millionths),
            None => Ok(false),
        }
    }
}
