// The top call.
ghost use Rattle.std.specs.Prelude.{◌≡◌, ◌⊎◌, IfSome, None};
ghost use Rattle.command_line.specs.declared.mode.Mode.{Mode};
ghost use Rattle.stage_chain.specs.RunSays.{seen_files};
ghost use Rattle.stage_driver.specs.PlanningChain.{Trusts};
ghost use Rattle.command_line.specs.declared.command.Command.TheVariants as commands;
ghost use Rattle.lintim_cli.specs.Answers.{AnswersTo};
ghost use Rattle.lintim_cli.specs.Says.{CallsNothing, Laws, Says, SaysAlways};
ghost use Rattle.command_line.specs.CommandWords.{Asks, command_of};
ghost use Rattle.lintim_cli.specs.Top.{Headline, seen};

use crate::check::check;
use crate::demo::demo;
use crate::question::question;
use crate::run::run;
use crate::status::status;
use command_line::{Command, Status, command_of, tell};
use plan_files::{Files, Sink};
use plan_num::{Ledger, Steps};
use std::alloc::Global;

/// Runs a command line over a dataset, and reports.
///
/// `make` runs the planning stages over the files that people write, puts the files that the stages
/// make and removes others of theirs. A stage that was given the same before is taken from the
/// folder `keep`. `fresh` first removes what is kept there, and then does the same. `check` judges
/// the files that stand there, whoever made them, and changes none. `status` tells of each stage
/// whether its files are those that are kept, and changes none. `demo` with a number from 1 to 8 runs
/// the stages over a dataset in memory that is made from the number. `waits` chooses waiting
/// decisions, `check-waits` judges one that was saved, `journey` tells the journey that arrives first,
/// and `pool` makes lines between terminals; these change no file. Each writes its report by one call.
#[tactic(auto)]
pub fn lintim<F: Files, K: Sink, L: Ledger>(
    alloc: Global,
    words: &[String],
    files: &mut F,
    out: &mut K,
    steps: &mut Steps<L>,
) -> Status
    ensures answers { AnswersTo (command_of words.now) result }

    // Whatever edits and runs went before: a run that meets no fault, over an honest keep or a fresh
    // one over any, leaves the made files, the report and the answer which the hand files alone
    // determine. Each made file, read again, satisfies its model over the files from which it was
    // made. The plans there are feasible; a concept with a tree beside it and a vehicle schedule
    // with potentials beside it cost no more than any feasible one; no event of a disposition can
    // be earlier; and where no schedule is pinned, the one there has potentials.
    ensures headline { (mode : Mode) → Asks (commands.Run mode) words.now →
        IfSome (F.contents files.old) (λ folder. Trusts mode folder →
        Headline folder (F.contents files.new) (K.written out.old) (K.written out.new) result) }

    // What the command says, leaves and means.
    ensures says { Says
        (seen (seen_files F.contents F.writes F.faults files.old steps.old)
        (K.written out.old) (K.faults out.old))
        (seen (seen_files F.contents F.writes F.faults files.new steps.new)
        (K.written out.new) (K.faults out.new)) result (command_of words.now) }

    // What holds whatever the words are.
    ensures always { SaysAlways
        (seen (seen_files F.contents F.writes F.faults files.old steps.old)
        (K.written out.old) (K.faults out.old))
        (seen (seen_files F.contents F.writes F.faults files.new steps.new)
        (K.written out.new) (K.faults out.new)) result }

    // What holds over all folders.
    ensures laws { Laws }

    // Other words and a demo do not touch the files, and other words take no step.
    ensures calls_nothing { CallsNothing (command_of words.now) → files.new ≡ files.old }
    ensures no_steps { (command_of words.now ≡ None) ⊎ Asks commands.Check words.now
        ⊎ Asks commands.Status words.now → steps.new ≡ steps.old }
{
    match command_of(words) {
        Some(Command::Run(mode)) => run(alloc, mode, files, out, steps),
        Some(Command::Check) => check(alloc, files, out),
        Some(Command::Status) => status(alloc, files, out),
        Some(Command::Demo(number)) => demo(alloc, number, out, steps),
        Some(Command::Ask(form)) => question(alloc, &form, files, out, steps),
        None => tell(
            out,
            b"usage: lintim make | fresh | check | status | demo N | waits P B | check-waits P | \
              journey A B T planned | journey A B T disposed | pool S1 S2 ..\n",
            Status::Usage,
        ),
    }
}
