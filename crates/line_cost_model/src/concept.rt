// Line concepts: which of them are feasible, and what they cost.
ghost use Rattle.std.specs.Prelude.{◌≡◌, ◌<◌, ◌≤◌, ◌↔◌, pos, length, slice_get, Some, option_map};
ghost use Rattle.std.specs.Prelude.{All, IsTrue};
ghost use Rattle.line_cost_model.specs.Concepts.{IsFeasible, is_feasible, keeps_bounds, cost_of};

use crate::problem::LineProblem;
use crate::sums::{cost_of, frequency_on, signed};

impl LineProblem {
    /// Whether a concept drives each edge as often as its bounds allow. The concept has a frequency
    /// for each line.
    pub fn is_feasible(&self, f: &[u32]) -> bool
        requires each { length f.now ≡ length self.now.lines }
        requires few { All (λ frequency. frequency ≤ 1000) f.now }
        ensures test { result ≡ is_feasible self.now f.now }
        ensures means { IsTrue result ↔ IsFeasible self.now f.now }
    {
        for edge in 0..self.edge_count() {
            if !keeps_bounds(self, f, edge) {
                return false;
            }
        }
        true
    }

    /// What a concept costs, in millionths: each line as often as it is driven.
    pub fn cost(&self, f: &[u32]) -> i128
        requires each { length f.now ≡ length self.now.lines }
        requires few { All (λ frequency. frequency ≤ 1000) f.now }
        ensures { result ≡ pos (cost_of self.now f.now) }
    {
        signed(cost_of(self, f))
    }
}

// Whether a concept keeps the bounds of the edge at an index.
fn keeps_bounds(problem: &LineProblem, f: &[u32], edge: usize) -> bool
    requires there { edge < length problem.now.edges }
    requires each { length f.now ≡ length problem.now.lines }
    ensures { option_map (λ at. keeps_bounds problem.now.lines f.now (edge, at))
        (slice_get problem.now.edges edge) ≡ Some result }
{
    let bounds = problem.bounds_of(edge);
    let driven = frequency_on(problem, f, edge);
    u128::from(bounds.least) <= driven && driven <= u128::from(bounds.most)
}
