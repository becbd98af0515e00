// The lines of a report.
ghost use Rattle.std.specs.Prelude.{◌≡◌, ◌++◌, OnOk, IfOk};
ghost use Rattle.std.specs.Option.{option_copied};
ghost use Rattle.stage_chain.specs.Reports.{row_text, missing_text, too_long_text, config_text};
ghost use Rattle.stage_chain.specs.Reports.{refusal_text, cause_text, last_line, end_of};
ghost use Rattle.stage_chain.specs.Reports.{end_of_refusal};
ghost use Rattle.stage_chain.specs.declared.cause.Cause.TheVariants as causes;
ghost use Rattle.stage_chain.specs.declared.state.StatesEnd.TheVariants as states_ends;
ghost use Rattle.stage_chain.specs.Checks.{broken_text, check_end, check_report};
ghost use Rattle.stage_chain.specs.Reports.{line_of};
ghost use Rattle.stage_chain.specs.States.{state_line};

use crate::cause::Cause;
use crate::checked::{CheckEnd, CheckOutcome};
use crate::finding::Finding;
use crate::outcome::Outcome;
use crate::rule::Rule;
use crate::state::{StageState, StatesEnd, StatesOutcome};
use command_line::RunEnd;
use config_keys::ConfigFault;
use giv_files::Stage;
use plan_num::{NoMemory, Text};
use std::alloc::Global;
use tables::Refusal;

/// The outcome of a run, whose last line is put behind the lines of its stages.
#[tactic(auto, using(std::proofs::lemmas::List::append_assoc))]
pub(crate) fn outcome(
    alloc: Global,
    lines: Vec<u8>,
    cause: Option<Cause>,
) -> Result<Outcome, NoMemory>
    ensures report { IfOk result (λ outcome. outcome.report ≡ lines.items ++ last_line cause) }
    ensures end { IfOk result (λ outcome. outcome.end ≡ end_of cause) }
{
    let mut report = lines;
    match &cause {
        None => report.extend_from_slice(b"done")?,
        Some(cause) => push_cause(alloc, &mut report, cause)?,
    }
    report.push(b'\n')?;
    Ok(Outcome {
        end: end_of(cause.as_ref()),
        report: Text::from_vec(report),
    })
}

/// The outcome of a check, by what it found.
#[tactic(auto, using(std::proofs::lemmas::List::append_assoc), unfolding(crate::specs::Checks::finding_text))]
pub(crate) fn check_outcome(
    alloc: Global,
    finding: Option<Finding>,
) -> Result<CheckOutcome, NoMemory>
    ensures end { IfOk result (λ outcome. outcome.end ≡ check_end finding) }
    ensures report { IfOk result (λ outcome. outcome.report ≡ check_report finding) }
{
    let mut report = Vec::new(alloc);
    let end = match &finding {
        None => {
            report.extend_from_slice(b"checked")?;
            CheckEnd::Passed
        }
        Some(Finding::BadInput(cause)) => {
            push_cause(alloc, &mut report, cause)?;
            CheckEnd::BadInput
        }
        Some(Finding::Broken(stage, rule)) => {
            push_broken(alloc, &mut report, *stage, *rule)?;
            CheckEnd::Failed {
                stage: *stage,
                rule: *rule,
            }
        }
    };
    report.push(b'\n')?;
    Ok(CheckOutcome {
        end,
        report: Text::from_vec(report),
    })
}

/// What is told of the states where the settings are refused.
pub(crate) fn refused_states(alloc: Global, reason: ConfigFault) -> Result<StatesOutcome, NoMemory>
    ensures end { IfOk result (λ outcome. outcome.end ≡ states_ends.BadInput) }
    ensures report { IfOk result (λ outcome.
        outcome.report ≡ line_of (cause_text (causes.BadConfig reason))) }
{
    let mut report = Vec::new(alloc);
    push_cause(alloc, &mut report, &Cause::BadConfig(reason))?;
    report.push(b'\n')?;
    Ok(StatesOutcome {
        end: StatesEnd::BadInput,
        report: Text::from_vec(report),
    })
}

/// The line of the state of a stage.
#[tactic(auto, using(std::proofs::lemmas::List::append_assoc))]
pub(crate) fn push_state(
    alloc: Global,
    report: &mut Vec<u8>,
    stage: Stage,
    state: StageState,
) -> Result<(), NoMemory>
    ensures { OnOk result (report.new.items ≡ report.old.items ++ state_line stage state) }
{
    let stage = stage.name();
    let state = state.name();
    let text = format!(in alloc; "{stage}: {state}\n")?;
    report.extend_from_slice(text.as_bytes())?;
    Ok(())
}

// The files of a stage break a rule.
#[tactic(auto, using(std::proofs::lemmas::List::append_assoc))]
fn push_broken(
    alloc: Global,
    report: &mut Vec<u8>,
    stage: Stage,
    rule: Rule,
) -> Result<(), NoMemory>
    ensures { OnOk result (report.new.items ≡ report.old.items ++ broken_text stage rule) }
{
    let stage = stage.name();
    let rule = rule.name();
    let text = format!(in alloc; "uncertified: {stage}: {rule}")?;
    report.extend_from_slice(text.as_bytes())?;
    Ok(())
}

// How a run ends.
fn end_of(cause: Option<&Cause>) -> RunEnd
    ensures { result ≡ end_of (option_copied cause.entry) }
{
    match cause {
        None => RunEnd::Done,
        Some(Cause::Refused(_, refusal)) => end_of_refusal(refusal),
        Some(Cause::BadConfig(_) | Cause::Missing(_) | Cause::TooLong(_)) => RunEnd::BadInput,
    }
}

// How a run ends by what a stage refuses.
fn end_of_refusal(refusal: &Refusal) -> RunEnd
    ensures { result ≡ end_of_refusal refusal.now }
{
    match refusal {
        Refusal::BadRow { .. } | Refusal::TooMany { .. } => RunEnd::BadInput,
        Refusal::NoSolution => RunEnd::NoSolution,
        Refusal::Spent { .. } => RunEnd::Spent,
    }
}

/// Why a chain ends early.
#[tactic(auto, unfolding(crate::specs::Reports::cause_text))]
pub(crate) fn push_cause(alloc: Global, report: &mut Vec<u8>, cause: &Cause) -> Result<(), NoMemory>
    ensures { OnOk result (report.new.items ≡ report.old.items ++ cause_text cause.now) }
{
    match cause {
        Cause::BadConfig(fault) => push_config(alloc, report, fault),
        Cause::Missing(file) => push_missing(report, file.name().as_bytes()),
        Cause::TooLong(file) => push_too_long(report, file.name().as_bytes()),
        Cause::Refused(stage, refusal) => push_refusal(alloc, report, *stage, refusal),
    }
}

// Why settings are refused.
#[tactic(auto, using(std::proofs::lemmas::List::append_assoc))]
fn push_config(alloc: Global, report: &mut Vec<u8>, fault: &ConfigFault) -> Result<(), NoMemory>
    ensures { OnOk result (report.new.items ≡ report.old.items ++ config_text fault.now) }
{
    match fault {
        ConfigFault::BadRow { name, row, why } => {
            let why = format!(in alloc; "{why}")?;
            push_row(alloc, report, name.as_bytes(), *row, why.as_str())
        }
        ConfigFault::MissingInclude { name } => push_missing(report, name.as_bytes()),
        ConfigFault::IncludeOutside { name, row } => push_row(
            alloc,
            report,
            name.as_bytes(),
            *row,
            "include outside the dataset",
        ),
        ConfigFault::TooDeep { name, row } => {
            push_row(alloc, report, name.as_bytes(), *row, "includes too deep")
        }
        ConfigFault::TooManyIncludes { name, row } => {
            push_row(alloc, report, name.as_bytes(), *row, "too many includes")
        }
        ConfigFault::TooLong { name } => push_too_long(report, name.as_bytes()),
        ConfigFault::BadValue { key } => {
            report.extend_from_slice(b"refused: value of ")?;
            report.extend_from_slice(key.name().as_bytes())?;
            Ok(())
        }
    }
}

// What a stage refuses.
#[tactic(auto, using(std::proofs::lemmas::List::append_assoc))]
fn push_refusal(
    alloc: Global,
    report: &mut Vec<u8>,
    stage: Stage,
    refusal: &Refusal,
) -> Result<(), NoMemory>
    ensures { OnOk result (report.new.items ≡ report.old.items ++ refusal_text stage refusal.now) }
{
    match refusal {
        Refusal::BadRow { file, row, why } => {
            let why = format!(in alloc; "{why}")?;
            push_row(alloc, report, file.name().as_bytes(), *row, why.as_str())
        }
        Refusal::TooMany { what, count } => {
            let text = format!(in alloc; "refused: too many {what}: {count}")?;
            report.extend_from_slice(text.as_bytes())?;
            Ok(())
        }
        Refusal::NoSolution => {
            report.extend_from_slice(b"no solution: ")?;
            report.extend_from_slice(stage.name().as_bytes())?;
            Ok(())
        }
        Refusal::Spent { entries } => {
            let name = stage.name();
            let text = format!(in alloc; "spent: {name} after {entries} entries")?;
            report.extend_from_slice(text.as_bytes())?;
            Ok(())
        }
    }
}

// A row of a file is refused.
#[tactic(auto, using(std::proofs::lemmas::List::append_assoc))]
fn push_row(
    alloc: Global,
    report: &mut Vec<u8>,
    name: &[u8],
    row: u64,
    why: &str,
) -> Result<(), NoMemory>
    ensures { OnOk result (report.new.items ≡ report.old.items ++ row_text name.now row why.now) }
{
    let tail = format!(in alloc; " row {row}: {why}")?;
    report.extend_from_slice(b"refused: ")?;
    report.extend_from_slice(name)?;
    report.extend_from_slice(tail.as_bytes())?;
    Ok(())
}

/// A file is not there.
pub(crate) fn push_missing(report: &mut Vec<u8>, name: &[u8]) -> Result<(), NoMemory>
    ensures { OnOk result (report.new.items ≡ report.old.items ++ missing_text name.now) }
{
    report.extend_from_slice(b"refused: ")?;
    report.extend_from_slice(name)?;
    report.extend_from_slice(b" is missing")?;
    Ok(())
}

/// A file is too long.
pub(crate) fn push_too_long(report: &mut Vec<u8>, name: &[u8]) -> Result<(), NoMemory>
    ensures { OnOk result (report.new.items ≡ report.old.items ++ too_long_text name.now) }
{
    report.extend_from_slice(b"refused: ")?;
    report.extend_from_slice(name)?;
    report.extend_from_slice(b" is too long")?;
    Ok(())
}
