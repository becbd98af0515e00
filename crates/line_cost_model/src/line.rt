// Lines with costs.
ghost use Rattle.std.specs.Prelude.{◌≡◌};

use std::marker::Model;

/// A line. Contracts see it as its id, its cost in millionths and the indexes of its edges.
#[derive(Debug, Drop)]
pub(crate) struct Line {
    id: i64,
    cost: u64,
    edges: Vec<usize>,
}

impl Model for Line {
    ghost use Rattle.line_cost_model.specs.Problems.{CostedLine};

    ghost Value = { CostedLine };

    ghost view = { λ line. record { id = line.id; cost = line.cost; edges = line.edges.items } };
}

impl Line {
    pub(crate) fn new(id: i64, cost: u64, edges: Vec<usize>) -> Line
        ensures { result ≡ record { id = id; cost = cost; edges = edges.items } }
    {
        Line { id, cost, edges }
    }

    pub(crate) fn id(&self) -> i64
        ensures { result ≡ self.now.id }
    {
        self.id
    }

    /// In millionths.
    pub(crate) fn cost(&self) -> u64
        ensures { result ≡ self.now.cost }
    {
        self.cost
    }

    pub(crate) fn edges(&self) -> &[usize]
        ensures { result.now ≡ self.now.edges }
    {
        &self.edges
    }
}
