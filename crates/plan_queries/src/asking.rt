// Questions about a folder.
ghost use Rattle.std.specs.Prelude.{◌≡◌, ◌≤◌, IfOk, IfSome};
ghost use Rattle.plan_files.specs.Reads.{OnlyReads};
ghost use Rattle.stage_chain.specs.Ends.{has_failed, is_broken};
ghost use Rattle.command_line.specs.FormWords.{IsInRange};
ghost use Rattle.command_line.specs.declared.ends.QueryEnd.TheVariants as ends;
ghost use Rattle.plan_queries.specs.Queries.{AnswersIn, AnswersRight, EndsAs, IsRightIn, IsTold};
ghost use Rattle.plan_queries.specs.Queries.{TakesNone, TakesSteps, TakesUpTo, Tells, steps_of};

use crate::answer::Answer;
use crate::check::check;
use crate::journey::journey;
use crate::pool::pool;
use crate::waits::waits;
use command_line::{Form, QueryEnd};
use plan_files::Files;
use plan_num::{Ledger, Steps};
use stage_chain::{ChainEnd, ChainFault, cause_line};
use std::alloc::Global;

/// The answer of a question over the files of a dataset. It changes no file.
///
/// A file that is missing or too long is bad input, files in the order in which the question takes
/// them, and after them a row that is refused or a table with too many rows.
pub fn ask<F: Files, L: Ledger>(
    alloc: Global,
    form: &Form,
    files: &mut F,
    steps: &mut Steps<L>,
) -> Result<Answer, ChainFault>
    requires { IsInRange form.now }
    ensures answers { IfSome (F.contents files.old) (λ folder.
        IfOk result (AnswersIn form.now folder)) }
    ensures right { IfSome (F.contents files.old) (λ folder. IfOk result (λ answer.
        answer.end ≡ ends.Done → IsRightIn form.now folder answer.report)) }
    ensures ends { IfOk result (λ answer. EndsAs form.now answer.end) }
    ensures steps { IfSome (F.contents files.old) (λ folder.
        TakesSteps (steps_of form.now folder) steps.old steps.new result) }
    ensures quiet { TakesNone form.now → steps.new ≡ steps.old }
    ensures no_less { steps.old ≤ steps.new }
    ensures only_reads { OnlyReads F.contents F.writes F.faults files.old files.new
        (has_failed result) }
{
    match told(alloc, form, files, steps) {
        Ok(answer) => Ok(answer),
        Err(ChainEnd::Stopped(cause)) => Ok(Answer {
            end: QueryEnd::BadInput,
            report: cause_line(alloc, &cause)?,
        }),
        Err(ChainEnd::FileFault) => Err(ChainFault::FileFault),
        Err(ChainEnd::NoMemory) => Err(ChainFault::NoMemory),
    }
}

// What is told of a question, or why it has no answer.
fn told<F: Files, L: Ledger>(
    alloc: Global,
    form: &Form,
    files: &mut F,
    steps: &mut Steps<L>,
) -> Result<Answer, ChainEnd>
    requires { IsInRange form.now }
    ensures tells { IfSome (F.contents files.old) (λ folder.
        Tells (IsTold form.now folder) result) }
    ensures right { IfSome (F.contents files.old) (λ folder.
        AnswersRight (IsRightIn form.now folder) result) }
    ensures ends { IfOk result (λ answer. EndsAs form.now answer.end) }
    ensures steps { IfSome (F.contents files.old) (λ folder.
        TakesUpTo (steps_of form.now folder) steps.old steps.new result) }
    ensures quiet { TakesNone form.now → steps.new ≡ steps.old }
    ensures no_less { steps.old ≤ steps.new }
    ensures only_reads { OnlyReads F.contents F.writes F.faults files.old files.new
        (is_broken result) }
{
    match form {
        Form::Waits { penalty, budget } => waits(alloc, files, *penalty, *budget, steps),
        Form::CheckWaits { penalty } => check(alloc, files, *penalty),
        Form::Journey {
            from,
            to,
            start,
            disposed,
        } => journey(alloc, files, *from, *to, *start, *disposed),
        Form::Pool(terminals) => pool(alloc, files, terminals.as_slice()),
    }
}
