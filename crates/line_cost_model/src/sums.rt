// How often edges are driven, and what concepts cost.
ghost use Rattle.std.specs.Prelude.{◌≡◌, ◌<◌, ◌≤◌, pos, length, map, All};
ghost use Rattle.line_cost_model.specs.Concepts.{frequency_on, cost_of};
ghost use Rattle.line_cost_model.specs.Regions.{IsRange, greatest_in, least_in};

use crate::problem::LineProblem;
use crate::range::LineRange;

/// How often a concept drives the edge at an index.
#[tactic(auto, using(std::proofs::lemmas::List::take_all, crate::proofs::Driven::sum_is_frequency))]
pub(crate) fn frequency_on(problem: &LineProblem, frequencies: &[u32], edge: usize) -> u128
    requires there { edge < length problem.now.edges }
    requires each { length frequencies.now ≡ length problem.now.lines }
    ensures { result ≡ frequency_on problem.now.lines frequencies.now edge }
{
    let mut sum = 0u128;
    for line in problem.lines_over(edge) {
        sum += u128::from(frequencies[*line]);
    }
    sum
}

/// How often the least and the greatest frequencies of some ranges drive the edge at an index.
pub(crate) fn ends_on(problem: &LineProblem, ranges: &[LineRange], edge: usize) -> (u64, u64)
    requires there { edge < length problem.now.edges }
    requires each { length ranges.now ≡ length problem.now.lines }
    requires sound { All IsRange ranges.now }
    ensures { result ≡ (
      frequency_on problem.now.lines (least_in ranges.now) edge,
      frequency_on problem.now.lines (greatest_in ranges.now) edge,
    ) }
{
    // A count tells what always holds of a problem.
    let _ = problem.line_count();
    let mut least = 0u64;
    let mut greatest = 0u64;
    for line in problem.lines_over(edge) {
        least += u64::from(ranges[*line].lo);
        greatest += u64::from(ranges[*line].hi);
    }
    (least, greatest)
}

/// What a concept costs, in millionths.
pub(crate) fn cost_of(problem: &LineProblem, frequencies: &[u32]) -> u128
    requires each { length frequencies.now ≡ length problem.now.lines }
    ensures cost { result ≡ cost_of problem.now frequencies.now }
    ensures few { result ≤ 5000000000000000000000000000000000000 }
{
    let mut sum = 0u128;
    for line in 0..problem.line_count() {
        sum += u128::from(problem.cost_of_line(line)) * u128::from(frequencies[line]);
    }
    sum
}

/// The same number of millionths with a sign.
pub(crate) fn signed(millionths: u128) -> i128
    requires { millionths ≤ 10000000000000000000000000000000000000 }
    ensures { result ≡ pos millionths }
{
    millionths as i128
}
