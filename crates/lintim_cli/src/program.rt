// The program over the folder where it is started, and the standard output.
ghost use Rattle.std.specs.Prelude.{◌≡◌, ◌⊎◌, ℕ, IfSome, Some};
ghost use Rattle.command_line.specs.declared.mode.Mode.{Mode};
ghost use Rattle.command_line.specs.declared.command.Command.TheVariants as commands;
ghost use Rattle.command_line.specs.CommandWords.{command_of};
ghost use Rattle.command_line.specs.Statuses.{number_of};
ghost use Rattle.stage_chain.specs.RunSays.{seen_files};
ghost use Rattle.stage_driver.specs.PlanningChain.{Trusts};
ghost use Rattle.lintim_cli.specs.Answers.{AnswersTo};
ghost use Rattle.lintim_cli.specs.CommandLine.{IsNumberOfStatus, words_after_name};
ghost use Rattle.lintim_cli.specs.Says.{Says, SaysAlways};
ghost use Rattle.lintim_cli.specs.Top.{Headline, seen};

use crate::top::lintim;
use crate::words::words_of;
use command_line::Status;
use plan_files::{Failure, Files, FolderFiles, Sink, StdSink};
use plan_num::{NoMemory, Silent, Steps};
use std::alloc::Global;
use std::env::Args;
use std::rt::Env;
use std::{env, io, rt};

/// Runs the words of the command line over the dataset in the folder where the program was started,
/// and gives its exit status.
pub fn run_program<R: AllocGlobal + Env + Eprint + rt::Files + Print>(rt: &R) -> u8
    ensures { IsNumberOfStatus result }
{
    let alloc = rt.alloc();
    let mut files = FolderFiles::here(rt, alloc);
    let mut out = StdSink::new(rt);
    let ended = run_line(alloc, env::args(rt), &mut files, &mut out);
    explain(rt, ended.status, files.failure());
    ended.number
}

// How a command line was answered, and the exit status that belongs to that.
#[derive(Clone, Copy)]
struct Ended {
    status: Status,
    number: u8,
}

// All that the program does over a folder and an output, by its command line. The words are those
// after the program's name; the exit status is the number of the answer; and what the answer, the
// report and the folder are is said as of the top call. Where memory is refused while the words are
// taken, nothing is called or written.
fn run_line<F: Files, K: Sink>(
    alloc: Global,
    line: io::Result<Args>,
    files: &mut F,
    out: &mut K,
) -> Ended
    ensures number { result.number ≡ number_of result.status }
    ensures answers { AnswersTo (command_of (words_after_name line)) result.status }
    ensures headline { (mode : Mode) → command_of (words_after_name line) ≡ Some (commands.Run mode) →
        IfSome (F.contents files.old) (λ folder. Trusts mode folder → Headline folder
        (F.contents files.new) (K.written out.old) (K.written out.new) result.status) }
    ensures says { ((result.status ≡ Status.NoMemory) × (files.new ≡ files.old) × (out.new ≡ out.old))
        ⊎ ((steps : ℕ) × Says
        (seen (seen_files F.contents F.writes F.faults files.old 0)
        (K.written out.old) (K.faults out.old))
        (seen (seen_files F.contents F.writes F.faults files.new steps)
        (K.written out.new) (K.faults out.new)) result.status (command_of (words_after_name line))) }
    ensures always { ((result.status ≡ Status.NoMemory) × (files.new ≡ files.old) × (out.new ≡ out.old))
        ⊎ ((steps : ℕ) × SaysAlways
        (seen (seen_files F.contents F.writes F.faults files.old 0)
        (K.written out.old) (K.faults out.old))
        (seen (seen_files F.contents F.writes F.faults files.new steps)
        (K.written out.new) (K.faults out.new)) result.status) }
{
    let status = answer(alloc, line, files, out);
    Ended {
        status,
        number: status.number(),
    }
}

// The answer to the words of the command line.
fn answer<F: Files, K: Sink>(
    alloc: Global,
    line: io::Result<Args>,
    files: &mut F,
    out: &mut K,
) -> Status
    ensures answers { AnswersTo (command_of (words_after_name line)) result }
    ensures headline { (mode : Mode) → command_of (words_after_name line) ≡ Some (commands.Run mode) →
        IfSome (F.contents files.old) (λ folder. Trusts mode folder →
        Headline folder (F.contents files.new) (K.written out.old) (K.written out.new) result) }
    ensures says { ((result ≡ Status.NoMemory) × (files.new ≡ files.old) × (out.new ≡ out.old))
        ⊎ ((steps : ℕ) × Says
        (seen (seen_files F.contents F.writes F.faults files.old 0)
        (K.written out.old) (K.faults out.old))
        (seen (seen_files F.contents F.writes F.faults files.new steps)
        (K.written out.new) (K.faults out.new)) result (command_of (words_after_name line))) }
    ensures always { ((result ≡ Status.NoMemory) × (files.new ≡ files.old) × (out.new ≡ out.old))
        ⊎ ((steps : ℕ) × SaysAlways
        (seen (seen_files F.contents F.writes F.faults files.old 0)
        (K.written out.old) (K.faults out.old))
        (seen (seen_files F.contents F.writes F.faults files.new steps)
        (K.written out.new) (K.faults out.new)) result) }
{
    let mut steps = Steps::new(Silent);
    match words_of(alloc, line) {
        Ok(words) => lintim(alloc, &words, files, out, &mut steps),
        Err(NoMemory) => Status::NoMemory,
    }
}

// One line on the standard error, for a reader, where the report tells less or is not there. Where
// that output takes nothing, the exit status says it alone.
fn explain<R: Eprint>(rt: &R, status: Status, failure: Option<&Failure>) {
    let _told = match (status, failure) {
        (Status::FileFault, Some(failure)) => {
            eprintln!(rt; "lintim: a file could not be read or written: {failure}")
        }
        (Status::FileFault, None) => eprintln!(rt; "lintim: a file could not be read or written"),
        (Status::SinkFault, _) => eprintln!(rt; "lintim: the report could not be written"),
        (Status::NoMemory, _) => eprintln!(rt; "lintim: out of memory"),
        _ => Ok(()),
    };
}
