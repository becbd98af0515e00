// The stage that searches a line concept of least cost.
ghost use Rattle.std.specs.Prelude.{◌≡◌, [], IfOk};
ghost use Rattle.giv_files.specs.declared.stage.Stage.TheVariants as stages;
ghost use Rattle.giv_files.specs.Settings.{Fits};
ghost use Rattle.giv_files.specs.StageCalls.{StageGives, TakesSteps};
ghost use Rattle.line_search.specs.ConceptStage.{budget_of, concept_stage, concept_work};
ghost use Rattle.line_search.specs.GivenProblems.{problem_faults, problem_of};
ghost use Rattle.line_search.specs.RightConcepts.{ConceptFilesAreRight, IsWhole, SaysNone};
ghost use Rattle.line_concepts.specs.RightSearches.{IsEnough, ListingIsWhole, SearchIsRight};

use crate::found::search_made;
use crate::given::read_problem;
use giv_files::{Bundle, Key, Made};
use line_concepts::search_concept;
use plan_num::{Ledger, Steps};
use std::alloc::Global;
use tables::StageFault;

/// Searches a line concept of least cost over the inputs of the stage by branch and bound, with at
/// most as many entries as the budget allows. Where the whole search fits into it, the concept is
/// marked by the tree that certifies its cost.
pub fn make_concept<L: Ledger>(
    alloc: Global,
    bundle: &Bundle,
    steps: &mut Steps<L>,
) -> Result<Made, StageFault>
    requires stage { bundle.now.stage ≡ stages.Concept }
    requires fits { Fits bundle.now }
    ensures made { StageGives (concept_stage bundle.now) result }
    ensures right { problem_faults bundle.now ≡ [] → SearchIsRight (problem_of bundle.now) }
    ensures listed { ListingIsWhole (problem_of bundle.now) }
    ensures none { SaysNone bundle.now result }
    ensures files { IfOk result (λ made. ConceptFilesAreRight bundle.now made.files) }
    ensures whole { IsEnough (problem_of bundle.now) (budget_of bundle.now) → IsWhole result }
    ensures steps { TakesSteps (concept_work bundle.now) steps.old steps.new result }
{
    searched_concept(alloc, bundle, steps)
}

// What the stage gives, and in how many steps.
fn searched_concept<L: Ledger>(
    alloc: Global,
    bundle: &Bundle,
    steps: &mut Steps<L>,
) -> Result<Made, StageFault>
    requires stage { bundle.now.stage ≡ stages.Concept }
    requires fits { Fits bundle.now }
    ensures made { StageGives (concept_stage bundle.now) result }
    ensures steps { TakesSteps (concept_work bundle.now) steps.old steps.new result }
{
    steps.tick();
    let problem = read_problem(alloc, bundle)?;
    let budget = bundle.settings().amount(Key::ConceptBudget);
    let found = search_concept(alloc, &problem, budget, steps)?;
    search_made(alloc, &problem, found)
}
