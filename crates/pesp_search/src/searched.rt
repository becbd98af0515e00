// The search of the stage: why it finds no timetable is told as a refusal.
ghost use Rattle.giv_files.specs.StageCalls.{TakesSteps};
ghost use Rattle.pesp.specs.Listings.{entries_listed, listing};
ghost use Rattle.pesp_search.specs.SearchResults.{SearchGives, result_within};

use pesp::{FoundTimes, Pesp, SearchEnd};
use plan_num::{Ledger, Steps};
use std::alloc::Global;
use tables::{Refusal, StageFault};

/// Searches a timetable of a problem, with so many entries at most. Each entry takes a step.
pub(crate) fn search_times<L: Ledger>(
    alloc: Global,
    pesp: &Pesp,
    budget: u64,
    steps: &mut Steps<L>,
) -> Result<FoundTimes, StageFault>
    ensures found { SearchGives (result_within budget (listing pesp.now)) result }
    ensures steps { TakesSteps (entries_listed budget (listing pesp.now)) steps.old steps.new
        result }
{
    match pesp::search_times(alloc, pesp, budget, steps)? {
        SearchEnd::Found(found) => Ok(found),
        SearchEnd::NoSolution => Err(StageFault::Refused(Refusal::NoSolution)),
        SearchEnd::Spent => Err(StageFault::Refused(Refusal::Spent { entries: budget })),
    }
}
