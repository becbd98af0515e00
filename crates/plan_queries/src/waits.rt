// Waiting decisions over a folder.
ghost use Rattle.std.specs.Prelude.{◌≡◌, ◌≤◌, false, IfOk, IfSome};
ghost use Rattle.giv_files.specs.declared.stage.Stage.TheVariants as stages;
ghost use Rattle.giv_files.specs.Settings.{Fits};
ghost use Rattle.plan_files.specs.Reads.{OnlyReads};
ghost use Rattle.stage_chain.specs.Ends.{is_broken, Gives};
ghost use Rattle.wait_choice.specs.ChoiceStage.{waits_work};
ghost use Rattle.command_line.specs.declared.form.Form.TheVariants as forms;
ghost use Rattle.plan_queries.specs.Queries.{AnswersRight, EndsAs, IsRightIn, TakesUpTo};
ghost use Rattle.plan_queries.specs.Queries.{WaitsAreRight, spent_line, waits_over, waits_steps};
ghost use Rattle.plan_queries.specs.Queries.{waits_told};

use crate::answer::Answer;
use crate::fault::end_of_fault;
use command_line::QueryEnd;
use giv_files::{Bundle, Stage};
use plan_files::Files;
use plan_num::{Ledger, NoMemory, Steps, Text};
use stage_chain::{ChainEnd, standing_bundle};
use std::alloc::Global;
use tables::{Refusal, StageFault};
use wait_choice::{choose_waits, print_waits};

/// The waiting decision of least cost at a penalty for each missed change, within a budget.
pub(crate) fn waits<F: Files, L: Ledger>(
    alloc: Global,
    files: &mut F,
    penalty: u32,
    budget: u32,
    steps: &mut Steps<L>,
) -> Result<Answer, ChainEnd>
    requires penalty { penalty ≤ 1000000 }
    requires some { 1 ≤ budget }
    requires budget { budget ≤ 20000 }
    ensures tells { IfSome (F.contents files.old) (λ folder.
        Gives (waits_told penalty budget folder) result) }
    ensures right { IfSome (F.contents files.old) (λ folder.
        AnswersRight (IsRightIn (forms.Waits penalty budget) folder) result) }
    ensures ends { IfOk result (λ answer. EndsAs (forms.Waits penalty budget) answer.end) }
    ensures steps { IfSome (F.contents files.old) (λ folder.
        TakesUpTo (waits_steps penalty budget folder) steps.old steps.new result) }
    ensures no_less { steps.old ≤ steps.new }
    ensures only_reads { OnlyReads F.contents F.writes F.faults files.old files.new
        (is_broken result) }
{
    let bundle = standing_bundle(alloc, files, Stage::Disposition)?;
    over(alloc, &bundle, penalty, budget, steps)
}

// The same over what the stage of dispositions is given.
fn over<L: Ledger>(
    alloc: Global,
    bundle: &Bundle,
    penalty: u32,
    budget: u32,
    steps: &mut Steps<L>,
) -> Result<Answer, ChainEnd>
    requires stage { bundle.now.stage ≡ stages.Disposition }
    requires fits { Fits bundle.now }
    requires penalty { penalty ≤ 1000000 }
    requires some { 1 ≤ budget }
    requires budget { budget ≤ 20000 }
    ensures tells { Gives (waits_over penalty budget bundle.now) result }
    ensures right { AnswersRight (WaitsAreRight penalty bundle.now) result }
    ensures ends { IfOk result (λ answer. EndsAs (forms.Waits penalty budget) answer.end) }
    ensures steps { TakesUpTo (waits_work bundle.now penalty budget)
        steps.old steps.new result }
    ensures no_less { steps.old ≤ steps.new }
    ensures fault_free { is_broken result ≡ false }
{
    match choose_waits(alloc, bundle, penalty, budget, steps) {
        Ok(waits) => match print_waits(alloc, bundle, &waits) {
            Ok(report) => Ok(Answer {
                end: QueryEnd::Done,
                report,
            }),
            Err(fault) => Err(end_of_fault(Stage::Disposition, fault)),
        },
        Err(StageFault::Refused(Refusal::Spent { entries })) => Ok(Answer {
            end: QueryEnd::Spent,
            report: spent_line(alloc, entries)?,
        }),
        Err(fault) => Err(end_of_fault(Stage::Disposition, fault)),
    }
}

// The line of a budget that was spent.
fn spent_line(alloc: Global, entries: u64) -> Result<Text, NoMemory>
    ensures { IfOk result (λ line. line ≡ spent_line entries) }
{
    let line = format!(in alloc; "spent: waits after {entries} entries\n")?;
    Ok(Text::copy(alloc, line.as_bytes())?)
}
