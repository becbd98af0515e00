// The commands that run the planning stages.
ghost use Rattle.std.specs.Prelude.{IfSome, Some};
ghost use Rattle.stage_chain.specs.RunSays.{seen_files};
ghost use Rattle.stage_driver.specs.PlanningChain.{StaysSafe, Trusts};
ghost use Rattle.command_line.specs.declared.command.Command.TheVariants as commands;
ghost use Rattle.lintim_cli.specs.Answers.{AnswersTo};
ghost use Rattle.lintim_cli.specs.Says.{SaysAlways};
ghost use Rattle.lintim_cli.specs.Top.{Headline, Leaves, seen};

use command_line::{Mode, Status, tell, tell_fault};
use plan_files::{Files, Sink};
use plan_num::{Ledger, Steps};
use stage_driver::{ChainFault, run_chain};
use std::alloc::Global;

// Runs the planning stages over a dataset, and reports.
pub(crate) fn run<F: Files, K: Sink, L: Ledger>(
    alloc: Global,
    mode: Mode,
    files: &mut F,
    out: &mut K,
    steps: &mut Steps<L>,
) -> Status
    ensures answers { AnswersTo (Some (commands.Run mode)) result }
    ensures leaves { IfSome (F.contents files.old) (λ folder.
        Leaves mode folder
        (seen (seen_files F.contents F.writes F.faults files.old steps.old)
        (K.written out.old) (K.faults out.old))
        (seen (seen_files F.contents F.writes F.faults files.new steps.new)
        (K.written out.new) (K.faults out.new)) result) }
    ensures headline { IfSome (F.contents files.old) (λ folder. Trusts mode folder →
        Headline folder (F.contents files.new) (K.written out.old) (K.written out.new) result) }
    ensures safe { IfSome (F.contents files.old) (StaysSafe mode
        (seen_files F.contents F.writes F.faults files.old steps.old)
        (seen_files F.contents F.writes F.faults files.new steps.new)) }
    ensures always { SaysAlways
        (seen (seen_files F.contents F.writes F.faults files.old steps.old)
        (K.written out.old) (K.faults out.old))
        (seen (seen_files F.contents F.writes F.faults files.new steps.new)
        (K.written out.new) (K.faults out.new)) result }
{
    match run_chain(alloc, files, mode, steps) {
        Ok(outcome) => tell(out, outcome.report.as_bytes(), Status::from(outcome.end)),
        Err(ChainFault::NoMemory) => Status::NoMemory,
        Err(ChainFault::FileFault) => tell_fault(out),
    }
}
