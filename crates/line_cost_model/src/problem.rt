// The line problem.
ghost use Rattle.std.specs.Prelude.{◌≡◌, ◌<◌, ◌++◌, ◌∷◌, [], ◌≤◌, ◌≤ℤ◌, ◌<ℤ◌, pos, length};
ghost use Rattle.std.specs.Prelude.{ℕ, map, filter_map, min, unwrap_or, slice_get, Some};
ghost use Rattle.std.specs.Prelude.{option_map, unsigned_abs, OnOk, OnErr, IfOk, All, vec_len};
ghost use Rattle.std.specs.List.{reduce};
ghost use Rattle.std.specs.Option.{option_map_or};
ghost use Rattle.line_cost_model.specs.Regions.{most_on, most_of};
ghost use Rattle.line_cost_model.specs.Crossings.{AreLonger, AreTaken, lines_over};
ghost use Rattle.line_cost_model.specs.Problems.{IsBoundedEdge, IsCostedLine, IsProblem};

use crate::edge::{BoundedEdge, CrossedEdge};
use crate::line::Line;
use plan_num::NoMemory;
use std::alloc::Global;
use std::marker::Model;

/// Edges with bounds of frequency, and lines over them with costs, both by id rising. Contracts see
/// it as these two lists.
#[derive(Debug)]
pub struct LineProblem {
    alloc: Global,
    edges: Vec<CrossedEdge>,
    lines: Vec<Line>,
}

impl Drop for LineProblem {
    fn drop(self) {
        let LineProblem {
            alloc: _,
            edges: _,
            lines: _,
        } = self;
    }
}

impl Model for LineProblem {
    ghost use Rattle.std.specs.Prelude.{map};
    ghost use Rattle.line_cost_model.specs.Problems.{ProblemParts, IsProblem};
    ghost use Rattle.line_cost_model.specs.Crossings.{AreCrossed};

    ghost Value = { ProblemParts };

    ghost view = { λ problem. record {
      edges = map (λ at. at.bounds) problem.edges.items;
      lines = problem.lines.items;
    } };

    ghost invariant = { λ problem. IsProblem (record {
      edges = map (λ at. at.bounds) problem.edges.items;
      lines = problem.lines.items;
    }) × AreCrossed problem.lines.items problem.edges.items };
}

impl LineProblem {
    /// No edge and no line.
    #[tactic(auto, using(crate::proofs::Pushed::no_problem, crate::proofs::Pushed::crossed_none))]
    pub fn new(alloc: Global) -> LineProblem
        ensures { result ≡ record { edges = []; lines = [] } }
    {
        LineProblem {
            alloc,
            edges: Vec::new(alloc),
            lines: Vec::new(alloc),
        }
    }

    /// One edge more, before there are lines, with its minimal and its maximal frequency.
    pub fn push_edge(&mut self, id: i64, least: u32, most: u32) -> Result<(), NoMemory>
        requires edge { IsBoundedEdge (record { id = id; least = least; most = most }) }
        requires rising { All (λ edge. edge.id <ℤ id) self.old.edges }
        requires no_line { self.old.lines ≡ [] }
        ensures ok { OnOk result (self.new ≡ record self.old {
          edges = self.old.edges ++ record { id = id; least = least; most = most } ∷ [];
        }) }
        ensures err { OnErr result (self.new ≡ self.old) }
    {
        let bounds = BoundedEdge { id, least, most };
        self.edges.push(CrossedEdge::new(self.alloc, bounds))?;
        Ok(())
    }

    /// One line more, with its cost in millionths and the indexes of its edges.
    pub fn push_line(&mut self, id: i64, cost: i64, edges: &[usize]) -> Result<(), NoMemory>
        requires cost { pos 0 ≤ℤ cost }
        requires line { IsCostedLine (length self.old.edges)
            (record { id = id; cost = unsigned_abs cost; edges = edges.now }) }
        requires rising { All (λ line. line.id <ℤ id) self.old.lines }
        ensures ok { OnOk result (self.new ≡ record self.old {
          lines = self.old.lines
              ++ record { id = id; cost = unsigned_abs cost; edges = edges.now } ∷ [];
        }) }
        ensures err { OnErr result (self.new ≡ self.old) }
    {
        let line = Line::new(id, cost.unsigned_abs(), Vec::from_slice(self.alloc, edges)?);
        let longer = longer_lists(self.alloc, &self.edges, edges, self.lines.len())?;
        self.lines.push(line)?;
        take_longer(&mut self.edges, longer);
        Ok(())
    }

    /// How many edges there are.
    pub fn edge_count(&self) -> usize
        ensures count { result ≡ length self.now.edges }
        ensures sound { IsProblem self.now }
    {
        self.edges.len()
    }

    /// How many lines there are.
    pub fn line_count(&self) -> usize
        ensures count { result ≡ length self.now.lines }
        ensures sound { IsProblem self.now }
    {
        self.lines.len()
    }

    /// The id, the minimal and the maximal frequency of the edge at an index.
    pub fn edge_row(&self, edge: usize) -> (i64, u32, u32)
        requires { edge < length self.now.edges }
        ensures { option_map (λ at. (at.id, at.least, at.most)) (slice_get self.now.edges edge)
            ≡ Some result }
    {
        let bounds = self.bounds_of(edge);
        (bounds.id, bounds.least, bounds.most)
    }

    /// The id and the cost, in millionths, of the line at an index.
    pub fn line_row(&self, line: usize) -> (i64, i64)
        requires { line < length self.now.lines }
        ensures { option_map (λ at. (at.id, pos at.cost)) (slice_get self.now.lines line)
            ≡ Some result }
    {
        let line = &self.lines[line];
        (line.id(), line.cost() as i64)
    }

    /// The indexes of the edges of the line at an index.
    pub fn line_edges(&self, line: usize) -> &[usize]
        requires { line < length self.now.lines }
        ensures { option_map (λ at. at.edges) (slice_get self.now.lines line) ≡ Some result.now }
    {
        self.lines[line].edges()
    }

    /// The bounds of the edge at an index.
    pub(crate) fn bounds_of(&self, edge: usize) -> BoundedEdge
        requires { edge < length self.now.edges }
        ensures { slice_get self.now.edges edge ≡ Some result }
    {
        self.edges[edge].bounds()
    }

    /// The indexes of the lines over the edge at an index.
    pub(crate) fn lines_over(&self, edge: usize) -> &[usize]
        requires { edge < length self.now.edges }
        ensures lines { result.now ≡ lines_over self.now.lines edge }
        ensures there { All (λ line. line < length self.now.lines) result.now }
    {
        self.edges[edge].lines()
    }

    /// The greatest frequency that its edges leave the line at an index.
    pub(crate) fn most_of_line(&self, line: usize) -> u32
        requires { line < length self.now.lines }
        ensures { option_map (most_of self.now.edges) (slice_get self.now.lines line)
            ≡ Some result }
    {
        self.least_most(self.lines[line].edges())
    }

    /// The least of the maximal frequencies of some edges; 0 where there is none.
    pub(crate) fn least_most(&self, edges: &[usize]) -> u32
        requires { All (λ edge. edge < length self.now.edges) edges.now }
        ensures { result ≡ unwrap_or
            (reduce min (filter_map (most_on self.now.edges) edges.now)) 0 }
    {
        let mut least = None;
        for edge in edges {
            least = lesser(least, self.bounds_of(*edge).most);
        }
        least.unwrap_or(0)
    }

    /// The cost, in millionths, of the line at an index.
    pub(crate) fn cost_of_line(&self, line: usize) -> u64
        requires { line < length self.now.lines }
        ensures { option_map (λ at. at.cost) (slice_get self.now.lines line) ≡ Some result }
    {
        self.lines[line].cost()
    }
}

/// The lines over the edge of an index.
#[derive(Drop)]
struct Longer {
    edge: usize,
    lines: Vec<usize>,
}

// The lines over each of some edges, with one line more.
fn longer_lists(
    alloc: Global,
    all: &[CrossedEdge],
    edges: &[usize],
    line: usize,
) -> Result<Vec<Longer>, NoMemory>
    requires { All (λ edge. edge < length all.now) edges.now }
    ensures edges { IfOk result (λ longer. map (λ one. one.edge) longer.items ≡ edges.now) }
    ensures lines { IfOk result (λ longer. AreLonger all.now line longer.items) }
{
    let mut longer = Vec::new(alloc);
    for edge in edges {
        let lines = all[*edge].lines_and(alloc, line)?;
        longer.push(Longer { edge: *edge, lines })?;
    }
    Ok(longer)
}

// Edges take the longer lists of their lines.
fn take_longer(all: &mut Vec<CrossedEdge>, longer: Vec<Longer>)
    requires { All (λ one. one.edge < vec_len all.old) longer.items }
    ensures size { vec_len all.new ≡ vec_len all.old }
    ensures taken { (line : ℕ) → AreLonger all.old.items line longer.items
        → AreTaken all.old.items line longer.items all.new.items }
{
    for one in longer {
        all[one.edge].set_lines(one.lines);
    }
}

// The lesser of two numbers, where there is a first one.
fn lesser(least: Option<u32>, number: u32) -> Option<u32>
    ensures { result ≡ Some (option_map_or (λ some. min some number) least number) }
{
    match least {
        None => Some(number),
        Some(some) => Some(some.min(number)),
    }
}
