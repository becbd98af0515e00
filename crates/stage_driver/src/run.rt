// A run of the planning stages over the files of a dataset.
ghost use Rattle.stage_chain.specs.RunSays.{seen_files};
ghost use Rattle.plan_files.specs.Folder.{Folder};
ghost use Rattle.stage_driver.specs.PlanningChain.{ChainLaws, RunSays};
ghost use Rattle.stage_driver.specs.SolvedEnds.{EndsAsSolved, EndsAsSolvedOver};

use crate::planning::Planning;
use plan_files::Files;
use plan_num::{Ledger, Steps};
use stage_chain::{ChainFault, Mode, Outcome};
use std::alloc::Global;

/// Runs the planning stages over the files of a dataset: a stage that was given the same
/// before is taken from what is kept, and any other one is made. The folder then has the made files
/// that were made and no others of these stages, and the entry of each of them. Where what is kept
/// is honest, these are the files that its hand files alone determine. A fresh run first removes
/// what is kept. Every other file is as before.
#[tactic(auto, using(crate::proofs::Planned::chain_laws, crate::proofs::SolvedEnds::ends_as_solved, crate::proofs::SolvedEnds::ends_as_solved_over))]
pub fn run_chain<F: Files, L: Ledger>(
    alloc: Global,
    files: &mut F,
    mode: Mode,
    steps: &mut Steps<L>,
) -> Result<Outcome, ChainFault>
    ensures says { RunSays mode
        (seen_files F.contents F.writes F.faults files.old steps.old)
        (seen_files F.contents F.writes F.faults files.new steps.new) result }
    ensures laws { ChainLaws }
    ensures ends { (hand : Folder) → EndsAsSolved hand }
    ensures ends_over { (folder : Folder) → EndsAsSolvedOver folder }
{
    stage_chain::run_chain::<Planning, F, L>(alloc, files, mode, steps)
}
