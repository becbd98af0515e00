// How often the ends of ranges drive edges, and which edges that misses.
ghost use Rattle.std.specs.Prelude.{◌≡◌, ◌+◌, ◌<◌, ◌≤◌, false, get_or, length, nat_lt, replicate};
ghost use Rattle.std.specs.Prelude.{slice_set, IfOk, IsTrue, All};
ghost use Rattle.line_cost_model.specs.Problems.{IsProblem};
ghost use Rattle.line_cost_model.specs.Regions.{IsRange, greatest_in, root_of};
ghost use Rattle.line_cost_model.specs.RunningSums.{AreCounted, AreDriven, AreMoved, AreSums};
ghost use Rattle.line_cost_model.specs.RunningSums.{IsOfGreatest, IsOfLeast, over, over_edges, under};

use crate::edge::BoundedEdge;
use crate::problem::LineProblem;
use crate::range::LineRange;
use crate::running::greatest_sums;
use bit_rows::Marking;
use plan_num::NoMemory;
use std::alloc::Global;

/// How often both ends of ranges drive each edge.
#[derive(Drop)]
pub(crate) struct EdgeSums {
    pub(crate) least: LeastSums,
    pub(crate) greatest: GreatestSums,
}

impl EdgeSums {
    /// Those of the ranges of the root of a problem.
    pub(crate) fn root(
        alloc: Global,
        problem: &LineProblem,
        ranges: &[LineRange],
    ) -> Result<EdgeSums, NoMemory>
        requires root { ranges.now ≡ root_of problem.now }
        requires sound { All IsRange ranges.now }
        ensures { IfOk result (AreSums problem.now ranges.now) }
    {
        let least = LeastSums::zero(alloc, problem)?;
        let greatest = GreatestSums::of(alloc, problem, ranges)?;
        Ok(EdgeSums { least, greatest })
    }

    /// The line at an index has another range than it has among some ranges.
    pub(crate) fn set_range(
        &mut self,
        problem: &LineProblem,
        ranges: &[LineRange],
        line: usize,
        range: LineRange,
    )
        requires there { line < length ranges.now }
        requires each { length ranges.now ≡ length problem.now.lines }
        requires sound { All IsRange ranges.now }
        requires sums { AreSums problem.now ranges.now self.old }
        ensures { AreSums problem.now (slice_set ranges.now line range) self.new }
    {
        // A count tells what always holds of a problem.
        let _ = problem.edge_count();
        let before = ranges[line];
        let edges = problem.line_edges(line);
        self.least.move_line(problem, edges, before.lo, range.lo);
        self.greatest.move_line(problem, edges, before.hi, range.hi);
    }

    /// Whether no edge is driven too often, or not often enough.
    pub(crate) fn miss_no_edge(&self) -> bool
        ensures over { IsTrue result → self.now.least.over ≡ 0 }
        ensures under { IsTrue result → self.now.greatest.under ≡ 0 }
    {
        self.least.over == 0 && self.greatest.under == 0
    }
}

/// How often least frequencies drive each edge, which edges they leave short of their minimal
/// frequency, and how many they drive too often.
#[derive(Drop)]
pub(crate) struct LeastSums {
    pub(crate) sums: Vec<u64>,
    pub(crate) short: Marking,
    pub(crate) over: usize,
}

impl LeastSums {
    /// Those of frequencies of 0.
    pub(crate) fn zero(alloc: Global, problem: &LineProblem) -> Result<LeastSums, NoMemory>
        ensures zero { IfOk result
            (λ least. least.sums.items ≡ replicate (length problem.now.edges) 0) }
        ensures sound { IfOk result
            (λ least. IsOfLeast problem.now.edges least.sums.items least.short least.over) }
        ensures problem { IfOk result (λ _. IsProblem problem.now) }
    {
        let count = problem.edge_count();
        let sums = vec![in alloc; 0; count]?;
        let mut short = Marking::none(alloc, count)?;
        for edge in 0..count {
            short.set(edge, is_short(problem.bounds_of(edge), 0));
        }
        Ok(LeastSums {
            sums,
            short,
            over: 0,
        })
    }

    /// A line over some edges has another least frequency.
    pub(crate) fn move_line(
        &mut self,
        problem: &LineProblem,
        edges: &[usize],
        before: u32,
        after: u32,
    )
        requires counted { AreCounted before self.old.sums.items edges.now }
        requires sound { IsOfLeast problem.now.edges self.old.sums.items self.old.short
            self.old.over }
        ensures size { length self.new.sums.items ≡ length self.old.sums.items }
        ensures moved { AreMoved edges.now before after self.old.sums.items self.new.sums.items }
        ensures sound { IsOfLeast problem.now.edges self.new.sums.items self.new.short
            self.new.over }
    {
        if before == after {
            return;
        }
        for edge in edges {
            let sum = moved(self.sums[*edge], before, after);
            self.put(problem, *edge, sum);
        }
    }

    // The edge at an index is driven so often.
    fn put(&mut self, problem: &LineProblem, edge: usize, sum: u64)
        requires there { edge < length problem.now.edges }
        requires sound { IsOfLeast problem.now.edges self.old.sums.items self.old.short
            self.old.over }
        ensures sums { self.new.sums.items ≡ slice_set self.old.sums.items edge sum }
        ensures sound { IsOfLeast problem.now.edges self.new.sums.items self.new.short
            self.new.over }
    {
        let bounds = problem.bounds_of(edge);
        let before = self.sums[edge];
        self.over = self.over + over(bounds, sum) - over(bounds, before);
        let was = is_short(bounds, before);
        renew(&mut self.short, edge, was, is_short(bounds, sum));
        self.sums[edge] = sum;
    }
}

/// How often greatest frequencies drive each edge, and how many edges they leave below their
/// minimal frequency.
#[derive(Drop)]
pub(crate) struct GreatestSums {
    pub(crate) sums: Vec<u64>,
    pub(crate) under: usize,
}

impl GreatestSums {
    /// Those of the greatest frequencies of some ranges.
    pub(crate) fn of(
        alloc: Global,
        problem: &LineProblem,
        ranges: &[LineRange],
    ) -> Result<GreatestSums, NoMemory>
        requires each { length ranges.now ≡ length problem.now.lines }
        requires sound { All IsRange ranges.now }
        ensures driven { IfOk result
            (λ greatest. AreDriven problem.now (greatest_in ranges.now) greatest.sums.items) }
        ensures sound { IfOk result
            (λ greatest. IsOfGreatest problem.now.edges greatest.sums.items greatest.under) }
    {
        let sums = greatest_sums(alloc, problem, ranges)?;
        let under = under_count(problem, &sums);
        Ok(GreatestSums { sums, under })
    }

    /// A line over some edges has another greatest frequency.
    pub(crate) fn move_line(
        &mut self,
        problem: &LineProblem,
        edges: &[usize],
        before: u32,
        after: u32,
    )
        requires counted { AreCounted before self.old.sums.items edges.now }
        requires sound { IsOfGreatest problem.now.edges self.old.sums.items self.old.under }
        ensures size { length self.new.sums.items ≡ length self.old.sums.items }
        ensures moved { AreMoved edges.now before after self.old.sums.items self.new.sums.items }
        ensures sound { IsOfGreatest problem.now.edges self.new.sums.items self.new.under }
    {
        if before == after {
            return;
        }
        for edge in edges {
            let sum = moved(self.sums[*edge], before, after);
            self.put(problem, *edge, sum);
        }
    }

    // The edge at an index is driven so often.
    fn put(&mut self, problem: &LineProblem, edge: usize, sum: u64)
        requires there { edge < length problem.now.edges }
        requires sound { IsOfGreatest problem.now.edges self.old.sums.items self.old.under }
        ensures sums { self.new.sums.items ≡ slice_set self.old.sums.items edge sum }
        ensures sound { IsOfGreatest problem.now.edges self.new.sums.items self.new.under }
    {
        let bounds = problem.bounds_of(edge);
        let before = self.sums[edge];
        self.under = self.under + under(bounds, sum) - under(bounds, before);
        self.sums[edge] = sum;
    }
}

// How often an edge is driven, where a line over it has another frequency.
fn moved(sum: u64, before: u32, after: u32) -> u64
    requires counted { before ≤ sum }
    requires few { sum ≤ 1000000000000 }
    ensures { result + before ≡ sum + after }
{
    sum - u64::from(before) + u64::from(after)
}

// How many edges the greatest sums leave below their minimal frequencies.
fn under_count(problem: &LineProblem, sums: &[u64]) -> usize
    requires { length sums.now ≡ length problem.now.edges }
    ensures count { result ≡ over_edges under problem.now.edges sums.now }
    ensures sound { IsProblem problem.now }
{
    let mut count = 0;
    for edge in 0..problem.edge_count() {
        count += under(problem.bounds_of(edge), sums[edge]);
    }
    count
}

// Whether an edge with these bounds is driven too often by a sum of least frequencies, as a number.
fn over(bounds: BoundedEdge, sum: u64) -> usize
    ensures over { result ≡ over bounds sum }
    ensures one { result ≤ 1 }
{
    usize::from(u64::from(bounds.most) < sum)
}

// Whether one is not driven often enough by a sum of greatest frequencies, as a number.
fn under(bounds: BoundedEdge, sum: u64) -> usize
    ensures under { result ≡ under bounds sum }
    ensures one { result ≤ 1 }
{
    usize::from(sum < u64::from(bounds.least))
}

// Whether a sum of least frequencies falls short of the minimal frequency of an edge.
fn is_short(bounds: BoundedEdge, sum: u64) -> bool
    ensures { result ≡ nat_lt sum bounds.least }
{
    sum < u64::from(bounds.least)
}

// The mark of a place becomes another one.
fn renew(marks: &mut Marking, place: usize, was: bool, is: bool)
    requires there { place < length marks.old }
    requires was { get_or marks.old place false ≡ was }
    ensures { marks.new ≡ slice_set marks.old place is }
{
    if was != is {
        marks.set(place, is);
    }
}
