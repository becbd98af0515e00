// Regions of concepts with running sums.
ghost use Rattle.std.specs.Prelude.{◌≡◌, ◌<◌, ◌≤◌, pos, length, slice_get, IfOk, All, Some};
ghost use Rattle.std.specs.Prelude.{IsTrue, IfSome, None, option_map, slice_set};
ghost use Rattle.std.specs.List.{list_any};
ghost use Rattle.line_cost_model.specs.Concepts.{cost_of, frequency_on};
ghost use Rattle.line_cost_model.specs.DualBounds.{shortfall};
ghost use Rattle.line_cost_model.specs.EmptySides.{is_empty_on};
ghost use Rattle.line_cost_model.specs.Passes.{IsNextShort};
ghost use Rattle.line_cost_model.specs.Problems.{IsProblem};
ghost use Rattle.line_cost_model.specs.Regions.{HasEachFeasible, IsRange, empty_edge, empty_side};
ghost use Rattle.line_cost_model.specs.Regions.{greatest_in, has_several};
ghost use Rattle.line_cost_model.specs.Regions.{least_in, range_of, root_of, with_range};
ghost use Rattle.line_cost_model.specs.RunningSums.{AreSums};

use crate::edge_sums::EdgeSums;
use crate::problem::LineProblem;
use crate::range::LineRange;
use crate::region::Region;
use crate::running::{cost_moved, root_ranges};
use crate::side::{Side, side_of};
use crate::sums::{ends_on, signed};
use plan_num::NoMemory;
use std::alloc::Global;
use std::marker::Model;

/// A range of frequencies for each line of a problem. Contracts see it as the problem and the list
/// of these ranges. It keeps what the least frequencies cost. It may keep how often each edge is
/// driven at least and at most, on which edges drives are missing, and how many edges show that
/// there is no feasible concept: then another range for a line takes some steps for each of its
/// edges, and else an edge that is asked for takes some steps for each line over it.
pub struct SummedRegion<'a> {
    problem: &'a LineProblem,
    ranges: Vec<LineRange>,
    sums: Option<EdgeSums>,
    least_cost: u128,
}

impl Drop for SummedRegion<'_> {
    fn drop(self) {
        let SummedRegion {
            problem: _,
            ranges: _,
            sums: _,
            least_cost: _,
        } = self;
    }
}

impl<'a> Model for SummedRegion<'a> {
    ghost use Rattle.line_cost_model.specs.Regions.{RegionParts};
    ghost use Rattle.line_cost_model.specs.RunningSums.{IsSummed};

    ghost Value = { RegionParts };

    ghost view = { λ r. record { problem = r.problem.now; ranges = r.ranges.items } };

    ghost invariant = { λ r. IsSummed r.problem.now r.ranges.items r.sums r.least_cost };
}

impl<'a> SummedRegion<'a> {
    /// The region with all feasible concepts: each line has a frequency from 0 to the least of the
    /// maximal frequencies of its edges. It keeps sums of edges.
    pub fn root(alloc: Global, problem: &'a LineProblem) -> Result<SummedRegion<'a>, NoMemory>
        ensures root { IfOk result
            (λ region. region ≡ record { problem = problem.now; ranges = root_of problem.now }) }
        ensures each { IfOk result (λ region. HasEachFeasible problem.now region.ranges) }
    {
        let ranges = root_ranges(alloc, problem)?;
        let sums = EdgeSums::root(alloc, problem, &ranges)?;
        Ok(SummedRegion::over_root(problem, ranges, Some(sums)))
    }

    /// The same region without sums of edges, for a walk that asks for few edges at each of its
    /// regions.
    pub fn root_without_sums(
        alloc: Global,
        problem: &'a LineProblem,
    ) -> Result<SummedRegion<'a>, NoMemory>
        ensures root { IfOk result
            (λ region. region ≡ record { problem = problem.now; ranges = root_of problem.now }) }
        ensures each { IfOk result (λ region. HasEachFeasible problem.now region.ranges) }
    {
        let ranges = root_ranges(alloc, problem)?;
        Ok(SummedRegion::over_root(problem, ranges, None))
    }

    // The region of the ranges of the root, with or without sums.
    fn over_root(
        problem: &'a LineProblem,
        ranges: Vec<LineRange>,
        sums: Option<EdgeSums>,
    ) -> SummedRegion<'a>
        requires root { ranges.items ≡ root_of problem.now }
        requires sound { All IsRange ranges.items }
        requires sums { IfSome sums (AreSums problem.now ranges.items) }
        ensures { result ≡ record { problem = problem.now; ranges = ranges.items } }
    {
        // A count tells what always holds of a problem.
        let _ = problem.edge_count();
        SummedRegion {
            problem,
            ranges,
            sums,
            least_cost: 0,
        }
    }

    /// A region of concepts with the sums of its ranges.
    pub fn of(
        alloc: Global,
        problem: &'a LineProblem,
        region: &Region,
    ) -> Result<SummedRegion<'a>, NoMemory>
        requires { length region.now ≡ length problem.now.lines }
        ensures { IfOk result
            (λ summed. summed ≡ record { problem = problem.now; ranges = region.now }) }
    {
        let mut summed = SummedRegion::root(alloc, problem)?;
        for line in 0..problem.line_count() {
            let (lo, hi) = region.ends(line);
            summed.set_range(line, lo, hi);
        }
        Ok(summed)
    }

    /// The least and the greatest frequency of the line at an index.
    pub fn ends(&self, line: usize) -> (u32, u32)
        requires { line < length self.now.ranges }
        ensures ends { result
            ≡ ((range_of self.now.ranges line).lo, (range_of self.now.ranges line).hi) }
        ensures sound { All IsRange self.now.ranges }
        ensures each { length self.now.ranges ≡ length self.now.problem.lines }
    {
        let range = self.ranges[line];
        (range.lo, range.hi)
    }

    /// The range of the line at an index becomes another one.
    pub fn set_range(&mut self, line: usize, lo: u32, hi: u32)
        requires there { line < length self.old.ranges }
        requires in_order { lo ≤ hi }
        requires few { hi ≤ 1000 }
        ensures { self.new
            ≡ record self.old { ranges = with_range self.old.ranges line lo hi } }
    {
        let range = LineRange { lo, hi };
        let before = self.ranges[line];
        let cost = self.problem.cost_of_line(line);
        move_sums(&mut self.sums, self.problem, &self.ranges, line, range);
        self.ranges[line] = range;
        self.least_cost = cost_moved(self.least_cost, cost, before.lo, lo);
    }

    /// Whether some line may have several frequencies.
    pub fn has_several(&self) -> bool
        ensures { result ≡ list_any has_several self.now.ranges }
    {
        self.ranges.iter().any(|range| range.has_several())
    }

    /// The line problem.
    pub fn problem(&self) -> &LineProblem
        ensures problem { result.now ≡ self.now.problem }
        ensures each { length self.now.ranges ≡ length self.now.problem.lines }
    {
        let _ = &self.ranges;
        self.problem
    }

    /// How many edges there are.
    pub(crate) fn edge_count(&self) -> usize
        ensures count { result ≡ length self.now.problem.edges }
        ensures sound { IsProblem self.now.problem }
    {
        self.problem.edge_count()
    }

    /// What the least frequencies cost, in millionths.
    pub fn least_cost(&self) -> i128
        ensures { result ≡ pos (cost_of self.now.problem (least_in self.now.ranges)) }
    {
        signed(self.least_millionths())
    }

    /// The same without a sign.
    #[tactic(auto, using(crate::proofs::RunningSums::least_cost_few))]
    pub(crate) fn least_millionths(&self) -> u128
        ensures cost { result ≡ cost_of self.now.problem (least_in self.now.ranges) }
        ensures few { result ≤ 5000000000000000000000000000000000000 }
        ensures sound { IsProblem self.now.problem }
    {
        self.least_cost
    }

    /// The ranges.
    pub(crate) fn ranges(&self) -> &[LineRange]
        ensures { result.now ≡ self.now.ranges }
    {
        &self.ranges
    }

    /// Whether no edge shows that the region has no feasible concept.
    #[tactic(auto, using(crate::proofs::EdgeCounts::none_empty))]
    pub(crate) fn has_no_empty_edge(&self) -> bool
        ensures { IsTrue result → empty_edge self.now.problem self.now.ranges ≡ None }
    {
        match &self.sums {
            Some(sums) => sums.miss_no_edge(),
            None => false,
        }
    }

    /// On which side the edge at an index shows that the region has no feasible concept, where it
    /// does.
    pub(crate) fn empty_side(&self, edge: usize) -> Option<Side>
        requires { edge < length self.now.problem.edges }
        ensures { option_map (empty_side self.now.problem.lines self.now.ranges edge)
            (slice_get self.now.problem.edges edge) ≡ Some result }
    {
        let (least, greatest) = self.driven(edge);
        side_of(self.problem.bounds_of(edge), least, greatest)
    }

    /// Whether the least frequencies drive an edge too often, or the greatest ones not often
    /// enough.
    pub fn is_empty_on(&self, edge: usize, side: Side) -> bool
        requires { edge < length self.now.problem.edges }
        ensures { option_map (is_empty_on self.now.problem self.now.ranges edge side)
            (slice_get self.now.problem.edges edge) ≡ Some result }
    {
        let bounds = self.problem.bounds_of(edge);
        let (least, greatest) = self.driven(edge);
        match side {
            Side::Over => u64::from(bounds.most) < least,
            Side::Under => greatest < u64::from(bounds.least),
        }
    }

    // How often the least and the greatest frequencies drive the edge at an index.
    fn driven(&self, edge: usize) -> (u64, u64)
        requires { edge < length self.now.problem.edges }
        ensures { result ≡ (
          frequency_on self.now.problem.lines (least_in self.now.ranges) edge,
          frequency_on self.now.problem.lines (greatest_in self.now.ranges) edge,
        ) }
    {
        match &self.sums {
            Some(sums) => (sums.least.sums[edge], sums.greatest.sums[edge]),
            None => ends_on(self.problem, &self.ranges, edge),
        }
    }

    /// An edge from one on before which the least frequencies leave no drives missing: without sums
    /// that one itself, and else the first on which they do.
    pub(crate) fn next_short(&self, from: usize) -> Option<usize>
        ensures next { IsNextShort self.now.problem self.now.ranges from result }
        ensures sound { IsProblem self.now.problem }
    {
        match &self.sums {
            Some(sums) => sums.least.short.next(from),
            None if from < self.problem.edge_count() => Some(from),
            None => None,
        }
    }

    /// How many drives the least frequencies leave missing on the edge at an index.
    pub(crate) fn shortfall(&self, edge: usize) -> u64
        requires { edge < length self.now.problem.edges }
        ensures shortfall { option_map (shortfall self.now.problem.lines self.now.ranges edge)
            (slice_get self.now.problem.edges edge) ≡ Some result }
        ensures few { result < 4294967296 }
    {
        let bounds = self.problem.bounds_of(edge);
        let (driven, _) = self.driven(edge);
        u64::from(bounds.least).saturating_sub(driven)
    }
}

// Where sums are kept, the line at an index has another range in them.
fn move_sums(
    sums: &mut Option<EdgeSums>,
    problem: &LineProblem,
    ranges: &[LineRange],
    line: usize,
    range: LineRange,
)
    requires there { line < length ranges.now }
    requires each { length ranges.now ≡ length problem.now.lines }
    requires sound { All IsRange ranges.now }
    requires sums { IfSome sums.old (AreSums problem.now ranges.now) }
    ensures { IfSome sums.new (AreSums problem.now (slice_set ranges.now line range)) }
{
    match sums {
        Some(sums) => sums.set_range(problem, ranges, line, range),
        None => {}
    }
}
