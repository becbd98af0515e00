// The command that tells what is kept of a dataset.
ghost use Rattle.std.specs.Prelude.{◌≡◌, ◌<◌, ◌⊎◌, IfSome, Some};
ghost use Rattle.plan_files.specs.Counts.{Rose};
ghost use Rattle.command_line.specs.declared.command.Command.TheVariants as commands;
ghost use Rattle.lintim_cli.specs.Answers.{AnswersTo, status_of_states};
ghost use Rattle.lintim_cli.specs.Top.{FileBroke, StatusTells};

use command_line::{Status, tell, tell_fault};
use plan_files::{Files, Sink};
use stage_driver::{ChainFault, StatesEnd, stage_states};
use std::alloc::Global;

// Tells of each stage what is kept of it, and whether its files stand as they were made.
pub(crate) fn status<F: Files, K: Sink>(alloc: Global, files: &mut F, out: &mut K) -> Status
    ensures answers { AnswersTo (Some commands.Status) result }
    ensures tells { IfSome (F.contents files.old) (λ folder.
        StatusTells folder (K.written out.old) (K.written out.new) result) }
    ensures contents { F.contents files.new ≡ F.contents files.old }
    ensures writes { F.writes files.new ≡ F.writes files.old }
    ensures file_fault { result ≡ Status.FileFault →
        FileBroke (F.faults files.old) (F.faults files.new)
        (K.written out.old) (K.written out.new) (K.faults out.old) (K.faults out.new) }
    ensures file_fault_comes { F.faults files.old < F.faults files.new →
        (result ≡ Status.FileFault) ⊎ (result ≡ Status.NoMemory) }
    ensures sink_fault { result ≡ Status.SinkFault → Rose (K.faults out.old) (K.faults out.new) }
    ensures sink_fault_comes { K.faults out.old < K.faults out.new →
        (result ≡ Status.SinkFault) ⊎ (result ≡ Status.FileFault) }
    ensures no_memory { result ≡ Status.NoMemory → K.written out.new ≡ K.written out.old }
{
    match stage_states(alloc, files) {
        Ok(outcome) => tell(
            out,
            outcome.report.as_bytes(),
            status_of_states(outcome.end),
        ),
        Err(ChainFault::NoMemory) => Status::NoMemory,
        Err(ChainFault::FileFault) => tell_fault(out),
    }
}

// The answer where the states of stages are asked for.
fn status_of_states(end: StatesEnd) -> Status
    ensures { result ≡ status_of_states end }
{
    match end {
        StatesEnd::Told => Status::Done,
        StatesEnd::BadInput => Status::BadInput,
    }
}
