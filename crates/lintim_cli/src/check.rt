// The command that judges the files of a dataset.
ghost use Rattle.std.specs.Prelude.{◌≡◌, ◌<◌, ◌⊎◌, IfSome, Some};
ghost use Rattle.plan_files.specs.Counts.{Rose};
ghost use Rattle.stage_driver.specs.BestPlans.{PlansAreBest};
ghost use Rattle.stage_driver.specs.FeasiblePlans.{PlansAreFeasible};
ghost use Rattle.stage_driver.specs.PlanningChain.{PassesIn};
ghost use Rattle.stage_driver.specs.PlansThere.{is_run_in};
ghost use Rattle.command_line.specs.declared.command.Command.TheVariants as commands;
ghost use Rattle.lintim_cli.specs.Answers.{AnswersTo, status_of_check};
ghost use Rattle.lintim_cli.specs.Top.{CheckTells, FileBroke};

use command_line::{Status, tell, tell_fault};
use plan_files::{Files, Sink};
use stage_driver::{ChainFault, CheckEnd, check_chain};
use std::alloc::Global;

// Judges the files of a dataset, and reports.
pub(crate) fn check<F: Files, K: Sink>(alloc: Global, files: &mut F, out: &mut K) -> Status
    ensures answers { AnswersTo (Some commands.Check) result }
    ensures tells { IfSome (F.contents files.old) (λ folder.
        CheckTells folder (K.written out.old) (K.written out.new) result) }
    ensures passes { IfSome (F.contents files.old) (λ folder.
        result ≡ Status.Done → PassesIn folder) }
    ensures feasible { IfSome (F.contents files.old) (λ folder.
        result ≡ Status.Done → PlansAreFeasible (is_run_in folder) folder) }
    ensures best { IfSome (F.contents files.old) (λ folder.
        result ≡ Status.Done → PlansAreBest (is_run_in folder) folder) }
    ensures contents { F.contents files.new ≡ F.contents files.old }
    ensures writes { F.writes files.new ≡ F.writes files.old }
    ensures file_fault { result ≡ Status.FileFault →
        FileBroke (F.faults files.old) (F.faults files.new)
        (K.written out.old) (K.written out.new) (K.faults out.old) (K.faults out.new) }
    ensures file_fault_comes { F.faults files.old < F.faults files.new →
        (result ≡ Status.FileFault) ⊎ (result ≡ Status.NoMemory) }
    ensures sink_fault { result ≡ Status.SinkFault → Rose (K.faults out.old) (K.faults out.new) }
    ensures sink_fault_comes { K.faults out.old < K.faults out.new →
        (result ≡ Status.SinkFault) ⊎ (result ≡ Status.FileFault) }
    ensures no_memory { result ≡ Status.NoMemory → K.written out.new ≡ K.written out.old }
{
    match check_chain(alloc, files) {
        Ok(outcome) => tell(out, outcome.report.as_bytes(), status_of_check(outcome.end)),
        Err(ChainFault::NoMemory) => Status::NoMemory,
        Err(ChainFault::FileFault) => tell_fault(out),
    }
}

// The answer to a check.
fn status_of_check(end: CheckEnd) -> Status
    ensures { result ≡ status_of_check end }
{
    match end {
        CheckEnd::Passed => Status::Done,
        CheckEnd::BadInput => Status::BadInput,
        CheckEnd::Failed { .. } => Status::Uncertified,
    }
}
