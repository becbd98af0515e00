// The command that runs the planning stages over a dataset made from a number.
ghost use Rattle.std.specs.Prelude.{◌≡◌, ◌≤◌, ◌<◌, ◌⊎◌, Some};
ghost use Rattle.plan_files.specs.Counts.{Rose};
ghost use Rattle.command_line.specs.declared.command.Command.TheVariants as commands;
ghost use Rattle.lintim_cli.specs.Answers.{AnswersTo};
ghost use Rattle.lintim_cli.specs.Top.{DemoTells};

use crate::run::run;
use command_line::{Mode, Status};
use demo_dataset::demo_files;
use plan_files::Sink;
use plan_num::{Ledger, Steps};
use std::alloc::Global;

// Makes the demo dataset of a number in memory, runs the planning stages over it, and reports.
pub(crate) fn demo<K: Sink, L: Ledger>(
    alloc: Global,
    number: u8,
    out: &mut K,
    steps: &mut Steps<L>,
) -> Status
    requires some { 1 ≤ number }
    requires few { number ≤ 8 }
    ensures answers { AnswersTo (Some (commands.Demo number)) result }
    ensures tells { DemoTells number
        (K.written out.old) (K.written out.new) steps.old steps.new result }
    ensures sink_fault { result ≡ Status.SinkFault → Rose (K.faults out.old) (K.faults out.new) }
    ensures sink_fault_comes { K.faults out.old < K.faults out.new →
        (result ≡ Status.SinkFault) ⊎ (result ≡ Status.FileFault) }
    ensures no_memory { result ≡ Status.NoMemory → K.written out.new ≡ K.written out.old }
    ensures no_less_steps { steps.old ≤ steps.new }
{
    match demo_files(alloc, number) {
        Ok(mut files) => run(alloc, Mode::Make, &mut files, out, steps),
        Err(_refused) => Status::NoMemory,
    }
}
