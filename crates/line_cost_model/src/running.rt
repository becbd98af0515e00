// Running sums over edges.
ghost use Rattle.std.specs.Prelude.{◌≡◌, ◌≤◌, ◌+◌, ◌*◌, length, IfOk, All};
ghost use Rattle.line_cost_model.specs.Regions.{HasEachFeasible, IsRange, greatest_in, root_of};
ghost use Rattle.line_cost_model.specs.RunningSums.{AreDriven};

use crate::problem::LineProblem;
use crate::range::LineRange;
use crate::sums::ends_on;
use plan_num::NoMemory;
use std::alloc::Global;

/// The ranges of the root of a problem.
pub(crate) fn root_ranges(alloc: Global, problem: &LineProblem) -> Result<Vec<LineRange>, NoMemory>
    ensures root { IfOk result (λ ranges. ranges.items ≡ root_of problem.now) }
    ensures sound { IfOk result (λ ranges. All IsRange ranges.items) }
    ensures each { IfOk result (λ ranges. HasEachFeasible problem.now ranges.items) }
{
    let mut ranges = Vec::new(alloc);
    for line in 0..problem.line_count() {
        let hi = problem.most_of_line(line);
        ranges.push(LineRange { lo: 0, hi })?;
    }
    Ok(ranges)
}

/// How often each edge is driven by the greatest frequencies of some ranges.
pub(crate) fn greatest_sums(
    alloc: Global,
    problem: &LineProblem,
    ranges: &[LineRange],
) -> Result<Vec<u64>, NoMemory>
    requires each { length ranges.now ≡ length problem.now.lines }
    requires sound { All IsRange ranges.now }
    ensures { IfOk result
        (λ sums. AreDriven problem.now (greatest_in ranges.now) sums.items) }
{
    let mut sums = Vec::new(alloc);
    for edge in 0..problem.edge_count() {
        sums.push(ends_on(problem, ranges, edge).1)?;
    }
    Ok(sums)
}

/// A cost, where a line has another frequency.
pub(crate) fn cost_moved(all: u128, cost: u64, before: u32, after: u32) -> u128
    requires counted { cost * before ≤ all }
    requires few { all ≤ 5000000000000000000000000000000000000 }
    ensures { result + cost * before ≡ all + cost * after }
{
    let cost = u128::from(cost);
    all - cost * u128::from(before) + cost * u128::from(after)
}
