// The commands that answer a question beside the stages.
ghost use Rattle.std.specs.Prelude.{◌≡◌, ◌≤◌, ◌<◌, ◌⊎◌, IfSome, Some};
ghost use Rattle.plan_files.specs.Counts.{Rose};
ghost use Rattle.command_line.specs.FormWords.{IsInRange};
ghost use Rattle.plan_queries.specs.Queries.{TakesNone};
ghost use Rattle.command_line.specs.declared.command.Command.TheVariants as commands;
ghost use Rattle.lintim_cli.specs.Answers.{AnswersTo};
ghost use Rattle.lintim_cli.specs.Top.{FileBroke, FormProves, FormTells};

use command_line::{Form, Status, tell, tell_fault};
use plan_files::{Files, Sink};
use plan_num::{Ledger, Steps};
use plan_queries::ask;
use stage_driver::ChainFault;
use std::alloc::Global;

// Answers a question over a dataset, and reports.
pub(crate) fn question<F: Files, K: Sink, L: Ledger>(
    alloc: Global,
    form: &Form,
    files: &mut F,
    out: &mut K,
    steps: &mut Steps<L>,
) -> Status
    requires { IsInRange form.now }
    ensures answers { AnswersTo (Some (commands.Ask form.now)) result }
    ensures tells { IfSome (F.contents files.old) (λ folder. FormTells form.now folder
        (K.written out.old) (K.written out.new) steps.old steps.new result) }
    ensures proves { IfSome (F.contents files.old) (λ folder. FormProves form.now folder
        (K.written out.old) (K.written out.new) result) }
    ensures contents { F.contents files.new ≡ F.contents files.old }
    ensures writes { F.writes files.new ≡ F.writes files.old }
    ensures file_fault { result ≡ Status.FileFault →
        FileBroke (F.faults files.old) (F.faults files.new)
        (K.written out.old) (K.written out.new) (K.faults out.old) (K.faults out.new) }
    ensures file_fault_comes { F.faults files.old < F.faults files.new →
        (result ≡ Status.FileFault) ⊎ (result ≡ Status.NoMemory) }
    ensures sink_fault { result ≡ Status.SinkFault → Rose (K.faults out.old) (K.faults out.new) }
    ensures sink_fault_comes { K.faults out.old < K.faults out.new →
        (result ≡ Status.SinkFault) ⊎ (result ≡ Status.FileFault) }
    ensures no_memory { result ≡ Status.NoMemory → K.written out.new ≡ K.written out.old }
    ensures quiet { TakesNone form.now → steps.new ≡ steps.old }
    ensures no_less_steps { steps.old ≤ steps.new }
{
    match ask(alloc, form, files, steps) {
        Ok(answer) => tell(out, answer.report.as_bytes(), Status::from(answer.end)),
        Err(ChainFault::NoMemory) => Status::NoMemory,
        Err(ChainFault::FileFault) => tell_fault(out),
    }
}
