// The line whose range is split.
ghost use Rattle.std.specs.Prelude.{◌≡◌, ℕ, ◌<◌, length, option_map, if◌then◌else◌, true, Some};
ghost use Rattle.line_cost_model.specs.Regions.{has_several, range_of};
ghost use Rattle.line_concepts.specs.Listings.{first_open};
ghost use Rattle.line_concepts.specs.Searches.{dearer};

use line_cost_model::{LineProblem, SummedRegion};

/// The first open line of a region in the order of lines: the dearest of the lines whose ranges
/// have several values, and the one of least id among these.
pub(crate) fn first_open(region: &SummedRegion) -> Option<usize>
    ensures first { result ≡ first_open region.now.problem region.now.ranges }
    ensures each { length region.now.ranges ≡ length region.now.problem.lines }
{
    first_of(region.problem(), region)
}

// The first open line of a region of a problem.
fn first_of(problem: &LineProblem, region: &SummedRegion) -> Option<usize>
    requires each { length region.now.ranges ≡ length problem.now.lines }
    ensures { result ≡ first_open problem.now region.now.ranges }
{
    let mut first = None;
    for line in 0..problem.line_count() {
        let (_, cost) = problem.line_row(line);
        if !comes_first(region, first, line, cost) {
            continue;
        }
        first = Some((line, cost));
    }
    line_of(first)
}

// The line, without its cost.
fn line_of(first: Option<(usize, i64)>) -> Option<usize>
    ensures { result ≡ option_map (λ first. first.0) first }
{
    first.map(|(line, _)| line)
}

// Whether a line is open and dearer than the open line so far. The range of a line that is not dearer
// is not looked at.
fn comes_first(region: &SummedRegion, first: Option<(usize, i64)>, line: usize, cost: i64) -> bool
    requires { line < length region.now.ranges }
    ensures { dearer first line cost (has_several (range_of region.now.ranges line))
        ≡ (if result then Some (line, cost) else first) }
{
    is_dearer(first, cost) && is_open(region, line)
}

// Whether a cost is above that of the open line so far, where there is one.
fn is_dearer(first: Option<(usize, i64)>, cost: i64) -> bool
    ensures { (line : ℕ) → dearer first line cost true ≡ (if result then Some (line, cost) else first) }
{
    match first {
        None => true,
        Some((_, most)) => cost > most,
    }
}

// Whether the range of the line at an index has several values.
fn is_open(region: &SummedRegion, line: usize) -> bool
    requires { line < length region.now.ranges }
    ensures { result ≡ has_several (range_of region.now.ranges line) }
{
    let (lo, hi) = region.ends(line);
    lo < hi
}
