// The ids of a line problem.
ghost use Rattle.std.specs.Prelude.{◌≡◌, ◌<◌, ◌^◌, ℤ, List, map, position, vec_len, IfOk, IfSome};
ghost use Rattle.std.specs.List.Sorted.{IsStrictlySortedBy};
ghost use Rattle.std.specs.Ordering.{int_cmp, int_eq};
ghost use Rattle.branch_certificate.specs.ReadRows.{AreRising};
ghost use Rattle.branch_certificate.specs.TreeFiles.{ids_of};

use line_cost_model::LineProblem;
use plan_num::NoMemory;
use std::alloc::Global;
use std::marker::Model;

/// The ids of the lines and of the edges of a line problem, rising. Contracts see it as these.
#[derive(Drop)]
pub(crate) struct ProblemIds {
    lines: Vec<i64>,
    edges: Vec<i64>,
}

impl Model for ProblemIds {
    ghost use Rattle.branch_certificate.specs.ReadRows.{AreRising};
    ghost use Rattle.branch_certificate.specs.TreeFiles.{NamedIds};

    ghost Value = { NamedIds };

    ghost view = { λ ids. record { lines = ids.lines.items; edges = ids.edges.items } };

    ghost invariant = { λ ids. AreRising
        (record { lines = ids.lines.items; edges = ids.edges.items }) };
}

impl ProblemIds {
    /// The ids of a problem.
    pub(crate) fn of(alloc: Global, problem: &LineProblem) -> Result<ProblemIds, NoMemory>
        ensures ids { IfOk result (λ ids. ids ≡ ids_of problem.now) }
        ensures rising { AreRising (ids_of problem.now) }
    {
        let mut lines = Vec::new(alloc);
        for line in 0..problem.line_count() {
            lines.push(problem.line_row(line).0)?;
        }
        let mut edges = Vec::new(alloc);
        for edge in 0..problem.edge_count() {
            edges.push(problem.edge_row(edge).0)?;
        }
        Ok(ProblemIds { lines, edges })
    }

    /// The index of the line of an id.
    pub(crate) fn line_index(&self, id: i64) -> Option<usize>
        ensures { result ≡ position (int_eq id) self.now.lines }
    {
        index_of(&self.lines, id)
    }

    /// The index of the edge of an id.
    pub(crate) fn edge_index(&self, id: i64) -> Option<usize>
        ensures index { result ≡ position (int_eq id) self.now.edges }
        ensures small { IfSome result (λ edge. edge < 2 ^ 63) }
    {
        index_of(&self.edges, id)
    }
}

// The index of an id among ids that rise.
fn index_of(ids: &[i64], id: i64) -> Option<usize>
    requires { IsStrictlySortedBy int_cmp ids.now }
    ensures index { result ≡ position (int_eq id) ids.now }
    ensures small { IfSome result (λ place. place < 2 ^ 63) }
{
    match ids.binary_search(&id) {
        Ok(place) => Some(place),
        Err(_) => None,
    }
}
