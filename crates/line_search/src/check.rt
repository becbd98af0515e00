// The test of a line concept.
ghost use Rattle.std.specs.Prelude.{◌≡◌, IfOk, IfNone, option_copied};
ghost use Rattle.giv_files.specs.declared.stage.Stage.TheVariants as stages;
ghost use Rattle.tables.specs.Inputs.{UnlessFault};
ghost use Rattle.giv_files.specs.Settings.{Fits};
ghost use Rattle.line_search.specs.GivenProblems.{problem_faults, problem_of};
ghost use Rattle.line_search.specs.Judged.{Passes, first_broken};

use crate::fault::ConceptFault;
use crate::given::read_problem;
use crate::judge::first_fault;
use giv_files::Bundle;
use std::alloc::Global;
use tables::StageFault;

/// The first rule that the text of a line concept breaks, or that the text of a tree beside it
/// does, over the inputs of the search; none where the concept passes. Refused is only what these
/// inputs are refused for.
pub fn check_concept(
    alloc: Global,
    bundle: &Bundle,
    concept: &[u8],
    tree: Option<&[u8]>,
) -> Result<Option<ConceptFault>, StageFault>
    requires stage { bundle.now.stage ≡ stages.Concept }
    requires fits { Fits bundle.now }
    ensures first { UnlessFault (problem_faults bundle.now)
        (λ answer. answer
        ≡ first_broken (problem_of bundle.now) concept.now (option_copied tree.entry)) result }
    ensures passes { IfOk result (λ answer. IfNone answer
        (Passes (problem_of bundle.now) concept.now (option_copied tree.entry))) }
{
    let problem = read_problem(alloc, bundle)?;
    Ok(first_fault(alloc, &problem, concept, tree)?)
}
