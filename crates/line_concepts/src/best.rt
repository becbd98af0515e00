// The best concept of a search so far.
ghost use Rattle.std.specs.Prelude.{◌≡◌, ◌<◌, ◌≤◌, length, All, IfOk};
ghost use Rattle.line_cost_model.specs.Regions.{least_in, range_of};
ghost use Rattle.line_concepts.specs.Searches.{IsPriced};

use line_cost_model::{LineProblem, SummedRegion};
use plan_num::NoMemory;
use std::alloc::Global;

/// A concept: the frequency of each line by its index, and what they cost together in millionths.
#[derive(Drop)]
pub struct BestConcept {
    pub frequencies: Vec<u32>,
    pub cost: i128,
}

impl BestConcept {
    /// The concept of some frequencies, one for each line of a problem, of at most 1,000 each.
    pub fn priced(problem: &LineProblem, frequencies: Vec<u32>) -> BestConcept
        requires each { length frequencies.items ≡ length problem.now.lines }
        requires few { All (λ frequency. frequency ≤ 1000) frequencies.items }
        ensures same { result.frequencies.items ≡ frequencies.items }
        ensures priced { IsPriced problem.now result }
    {
        let cost = problem.cost(&frequencies);
        BestConcept { frequencies, cost }
    }

    /// The concept of least frequencies in a region.
    pub(crate) fn least_in(alloc: Global, region: &SummedRegion) -> Result<BestConcept, NoMemory>
        ensures least { IfOk result (λ best. best.frequencies.items ≡ least_in region.now.ranges) }
        ensures priced { IfOk result (IsPriced region.now.problem) }
    {
        let problem = region.problem();
        let frequencies = least_frequencies(alloc, problem, region)?;
        let cost = problem.cost(&frequencies);
        Ok(BestConcept { frequencies, cost })
    }
}

// The least frequencies in a region.
fn least_frequencies(
    alloc: Global,
    problem: &LineProblem,
    region: &SummedRegion,
) -> Result<Vec<u32>, NoMemory>
    requires each { length region.now.ranges ≡ length problem.now.lines }
    ensures least { IfOk result (λ all. all.items ≡ least_in region.now.ranges) }
    ensures few { IfOk result (λ all. All (λ frequency. frequency ≤ 1000) all.items) }
{
    let mut frequencies = Vec::new(alloc);
    for line in 0..problem.line_count() {
        frequencies.push(least_of(region, line))?;
    }
    Ok(frequencies)
}

// The least frequency of a line in a region.
fn least_of(region: &SummedRegion, line: usize) -> u32
    requires { line < length region.now.ranges }
    ensures least { result ≡ (range_of region.now.ranges line).lo }
    ensures few { result ≤ 1000 }
{
    region.ends(line).0
}
