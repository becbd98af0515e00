// Waiting decisions that were saved, over a folder.
ghost use Rattle.std.specs.Prelude.{◌≡◌, false, IfOk, IfSome, Ok};
ghost use Rattle.giv_files.specs.declared.stage.Stage.TheVariants as stages;
ghost use Rattle.giv_files.specs.Settings.{Fits};
ghost use Rattle.plan_files.specs.Reads.{OnlyReads};
ghost use Rattle.config_keys.specs.Items.{look_in};
ghost use Rattle.stage_chain.specs.Ends.{is_broken, Gives};
ghost use Rattle.command_line.specs.declared.ends.QueryEnd.TheVariants as ends;
ghost use Rattle.command_line.specs.declared.form.Form.TheVariants as forms;
ghost use Rattle.plan_queries.specs.Queries.{AnswersRight, EndsAs, IsRightIn, SavedIsRight};
ghost use Rattle.plan_queries.specs.Queries.{SavedRightOver, broken_line, check_told, judged_over};
ghost use Rattle.plan_queries.specs.Queries.{rule_word, saved_over, waits_name};

use crate::answer::Answer;
use crate::fault::end_of_fault;
use command_line::QueryEnd;
use config_keys::FILE_LIMIT;
use giv_files::{Bundle, Stage};
use plan_files::{Files, Got};
use plan_num::{NoMemory, Text};
use stage_chain::{ChainEnd, missing_line, standing_bundle, too_long_line};
use std::alloc::Global;
use wait_choice::{WaitRule, check_waits};

// The file of a waiting decision that was saved.
const WAITS_NAME: &str = "waiting/Waits.cert";

/// Judges the waiting decision that was saved, at a penalty for each missed change.
pub(crate) fn check<F: Files>(
    alloc: Global,
    files: &mut F,
    penalty: u32,
) -> Result<Answer, ChainEnd>
    ensures tells { IfSome (F.contents files.old) (λ folder.
        Gives (check_told penalty folder) result) }
    ensures right { IfSome (F.contents files.old) (λ folder.
        AnswersRight (IsRightIn (forms.CheckWaits penalty) folder) result) }
    ensures ends { IfOk result (λ answer. EndsAs (forms.CheckWaits penalty) answer.end) }
    ensures only_reads { OnlyReads F.contents F.writes F.faults files.old files.new
        (is_broken result) }
{
    let bundle = standing_bundle(alloc, files, Stage::Disposition)?;
    saved(alloc, files, &bundle, penalty)
}

// The same over what the stage of dispositions is given.
fn saved<F: Files>(
    alloc: Global,
    files: &mut F,
    bundle: &Bundle,
    penalty: u32,
) -> Result<Answer, ChainEnd>
    requires stage { bundle.now.stage ≡ stages.Disposition }
    requires fits { Fits bundle.now }
    ensures tells { IfSome (F.contents files.old) (λ folder.
        Gives (saved_over penalty bundle.now (look_in folder waits_name)) result) }
    ensures right { IfSome (F.contents files.old) (λ folder. AnswersRight
        (λ _. SavedRightOver penalty (look_in folder waits_name) (Ok bundle.now)) result) }
    ensures ends { IfOk result (λ answer. EndsAs (forms.CheckWaits penalty) answer.end) }
    ensures only_reads { OnlyReads F.contents F.writes F.faults files.old files.new
        (is_broken result) }
{
    match files.get(alloc, WAITS_NAME, FILE_LIMIT)? {
        Got::Bytes(text) => judged(alloc, bundle, penalty, &text),
        Got::Absent => Ok(bad_input(missing_line(alloc, WAITS_NAME)?)),
        Got::TooLong => Ok(bad_input(too_long_line(alloc, WAITS_NAME)?)),
    }
}

// The text of such a decision.
fn judged(alloc: Global, bundle: &Bundle, penalty: u32, text: &Text) -> Result<Answer, ChainEnd>
    requires stage { bundle.now.stage ≡ stages.Disposition }
    requires fits { Fits bundle.now }
    ensures tells { Gives (judged_over penalty bundle.now text.now) result }
    ensures right { AnswersRight (λ _. SavedIsRight penalty bundle.now text.now) result }
    ensures ends { IfOk result (λ answer. EndsAs (forms.CheckWaits penalty) answer.end) }
    ensures fault_free { is_broken result ≡ false }
{
    match check_waits(alloc, bundle, penalty, text.as_bytes()) {
        Ok(None) => Ok(Answer {
            end: QueryEnd::Done,
            report: Text::copy(alloc, b"checked\n")?,
        }),
        Ok(Some(rule)) => Ok(Answer {
            end: QueryEnd::Uncertified,
            report: broken_line(alloc, rule)?,
        }),
        Err(fault) => Err(end_of_fault(Stage::Disposition, fault)),
    }
}

// The answer where a file is not there, or too long.
fn bad_input(report: Text) -> Answer
    ensures end { result.end ≡ ends.BadInput }
    ensures report { result.report ≡ report }
{
    Answer {
        end: QueryEnd::BadInput,
        report,
    }
}

// The line of a decision that breaks a rule.
fn broken_line(alloc: Global, rule: WaitRule) -> Result<Text, NoMemory>
    ensures { IfOk result (λ line. line ≡ broken_line rule) }
{
    let word = rule_word(rule);
    let line = format!(in alloc; "uncertified: waits: {word}\n")?;
    Ok(Text::copy(alloc, line.as_bytes())?)
}

// The word of a rule.
fn rule_word(rule: WaitRule) -> &'static str
    ensures { result.now ≡ rule_word rule }
{
    match rule {
        WaitRule::Row => "row",
        WaitRule::Shape => "shape",
        WaitRule::Cost => "cost",
        WaitRule::Tree => "tree",
        WaitRule::Leaf => "leaf",
    }
}
