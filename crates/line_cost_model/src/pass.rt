// The pass over the edges that finds their multipliers.
ghost use Rattle.std.specs.Prelude.{◌≡◌, ◌<◌, List, [], length, map, slice_get, vec_len, Some};
ghost use Rattle.std.specs.Prelude.{option_map, OnOk, min, nat_le, if◌then◌else◌, true};
ghost use Rattle.std.specs.List.{list_all};
ghost use Rattle.std.specs.Option.{option_map_or};
ghost use Rattle.line_cost_model.specs.declared.multipliers.Multiplier.{Multiplier};
ghost use Rattle.line_cost_model.specs.DualBounds.{least_left, left_of, next_multiplier};
ghost use Rattle.line_cost_model.specs.DualBounds.{open_over, shortfall};
ghost use Rattle.line_cost_model.specs.Passes.{AreLowered};
ghost use Rattle.line_cost_model.specs.Regions.{has_several};

use crate::problem::LineProblem;
use crate::range::LineRange;
use crate::summed::SummedRegion;
use plan_num::NoMemory;

impl<'a> SummedRegion<'a> {
    /// The costs of all lines take the place of what was left of them.
    pub(crate) fn renew_costs(&self, left: &mut Vec<u64>) -> Result<(), NoMemory>
        ensures { OnOk result
            (left.new.items ≡ map (λ line. line.cost) self.now.problem.lines) }
    {
        renew_costs(self.problem(), left)
    }

    /// An amount is taken off what is left of the costs of the lines over the edge at an index.
    pub(crate) fn take_off(&self, edge: usize, amount: u64, left: &mut Vec<u64>)
        requires there { edge < length self.now.problem.edges }
        requires each { vec_len left.old ≡ length self.now.problem.lines }
        ensures size { length left.new.items ≡ length left.old.items }
        ensures lowered { AreLowered self.now.problem.lines edge amount left.old.items
            left.new.items }
    {
        take_off(self.problem(), edge, amount, left);
    }

    /// Whether so much at least is left of the cost of each open line over the edge at an index.
    pub(crate) fn can_pay(&self, edge: usize, amount: u64, left: &[u64]) -> bool
        requires there { edge < length self.now.problem.edges }
        requires left { length left.now ≡ length self.now.problem.lines }
        ensures { (multipliers : List Multiplier)
            → left.now ≡ map (left_of multipliers) self.now.problem.lines
            → result ≡ list_all (λ line. nat_le amount (left_of multipliers line))
            (open_over self.now.problem self.now.ranges edge) }
    {
        can_pay(self.problem(), self.ranges(), edge, amount, left)
    }
}

// The costs of all lines take the place of what was left of them.
fn renew_costs(problem: &LineProblem, left: &mut Vec<u64>) -> Result<(), NoMemory>
    ensures { OnOk result (left.new.items ≡ map (λ line. line.cost) problem.now.lines) }
{
    left.clear();
    for line in 0..problem.line_count() {
        left.push(problem.cost_of_line(line))?;
    }
    Ok(())
}

/// How many drives are missing on the edge at an index, and its multiplier.
pub(crate) fn next_multiplier(region: &SummedRegion, edge: usize, left: &[u64]) -> (u64, u64)
    requires there { edge < length region.now.problem.edges }
    requires left { length left.now ≡ length region.now.problem.lines }
    ensures shortfall { option_map (shortfall region.now.problem.lines region.now.ranges edge)
        (slice_get region.now.problem.edges edge) ≡ Some result.0 }
    ensures few { result.0 < 4294967296 }
    ensures amount { (multipliers : List Multiplier)
        → left.now ≡ map (left_of multipliers) region.now.problem.lines
        → option_map
        (λ at. next_multiplier region.now.problem region.now.ranges multipliers (edge, at))
        (slice_get region.now.problem.edges edge) ≡ Some result.1 }
{
    let missing = region.shortfall(edge);
    if missing == 0 {
        return (missing, 0);
    }
    (
        missing,
        least_left(region.problem(), region.ranges(), edge, left),
    )
}

// The least that is left of the costs of the open lines over the edge at an index; 0 where there is
// none.
#[tactic(auto, using(crate::proofs::LeastLeft::least_whole, crate::proofs::LeastLeft::least_more))]
fn least_left(problem: &LineProblem, ranges: &[LineRange], edge: usize, left: &[u64]) -> u64
    requires there { edge < length problem.now.edges }
    requires each { length ranges.now ≡ length problem.now.lines }
    requires left { length left.now ≡ length problem.now.lines }
    ensures { (multipliers : List Multiplier)
        → left.now ≡ map (left_of multipliers) problem.now.lines
        → result ≡ least_left problem.now ranges.now multipliers edge }
{
    let mut least = None;
    for line in problem.lines_over(edge) {
        least = lesser(least, ranges[*line], left[*line]);
    }
    least.unwrap_or(0)
}

// The lesser of two costs, where there is a first one and the second is that of an open line.
fn lesser(least: Option<u64>, range: LineRange, left: u64) -> Option<u64>
    ensures { result ≡ if has_several range
        then Some (option_map_or (λ some. min some left) least left) else least }
{
    if range.lo >= range.hi {
        return least;
    }
    match least {
        None => Some(left),
        Some(some) => Some(some.min(left)),
    }
}

// An amount is taken off what is left of the costs of the lines over the edge at an index.
fn take_off(problem: &LineProblem, edge: usize, amount: u64, left: &mut Vec<u64>)
    requires there { edge < length problem.now.edges }
    requires each { vec_len left.old ≡ length problem.now.lines }
    ensures size { length left.new.items ≡ length left.old.items }
    ensures lowered { AreLowered problem.now.lines edge amount left.old.items left.new.items }
{
    for line in problem.lines_over(edge) {
        left[*line] = left[*line].saturating_sub(amount);
    }
}

// Whether so much at least is left of the cost of each open line over the edge at an index.
fn can_pay(
    problem: &LineProblem,
    ranges: &[LineRange],
    edge: usize,
    amount: u64,
    left: &[u64],
) -> bool
    requires there { edge < length problem.now.edges }
    requires each { length ranges.now ≡ length problem.now.lines }
    requires left { length left.now ≡ length problem.now.lines }
    ensures { (multipliers : List Multiplier)
        → left.now ≡ map (left_of multipliers) problem.now.lines
        → result ≡ list_all (λ line. nat_le amount (left_of multipliers line))
        (open_over problem.now ranges.now edge) }
{
    for line in problem.lines_over(edge) {
        if !pays(ranges[*line], amount, left[*line]) {
            return false;
        }
    }
    true
}

// Whether a line with so much left pays an amount, where it is open.
fn pays(range: LineRange, amount: u64, left: u64) -> bool
    ensures { result ≡ if has_several range then nat_le amount left else true }
{
    !range.has_several() || amount <= left
}
