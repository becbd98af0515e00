// What calls tell, as the lines of a script without the marks of texts.
use crate::calls::called;
use giv_files::{Bundle, Made, Refusal, StageFault};
use plan_num::{Steps, Tally};
use script_files::Trouble;
use std::alloc::{AllocError, Global};

/// What the stage of a bundle gives.
pub(crate) fn outcome(alloc: Global, bundle: &Bundle) -> Result<Vec<u8>, Trouble> {
    let mut steps = Steps::new(Tally::new());
    let Some(outcome) = called(alloc, bundle, &mut steps) else {
        return Err(Trouble);
    };
    let mut told = steps_text(alloc, steps.ledger().seen())?;
    match outcome {
        Ok(made) => push_made(&mut told, &made)?,
        Err(fault) => told.extend_from_slice(refusal_text(alloc, fault)?.as_bytes())?,
    }
    Ok(told)
}

// How many steps were made, where they are more or fewer than one.
fn steps_text(alloc: Global, steps: u64) -> Result<Vec<u8>, AllocError> {
    if steps == 1 {
        return Ok(Vec::new(alloc));
    }
    let text = format!(in alloc; "steps {steps}\n")?;
    Vec::from_slice(alloc, text.as_bytes())
}

// The report, and each file with its name.
fn push_made(told: &mut Vec<u8>, made: &Made) -> Result<(), AllocError> {
    push_line(told, b"report ", made.report.as_bytes())?;
    for index in 0..made.files.len() {
        let file = made.files.get(index);
        push_line(told, b"file ", file.file.name().as_bytes())?;
        told.extend_from_slice(file.text.as_bytes())?;
    }
    Ok(())
}

fn push_line(told: &mut Vec<u8>, word: &[u8], line: &[u8]) -> Result<(), AllocError> {
    told.extend_from_slice(word)?;
    told.extend_from_slice(line)?;
    told.extend_from_slice(b"\n")
}

/// What a stage refuses.
pub(crate) fn refusal_text(alloc: Global, fault: StageFault) -> Result<String, Trouble> {
    match fault {
        StageFault::Refused(refusal) => Ok(line_of(alloc, refusal)?),
        StageFault::NoMemory => Err(Trouble),
    }
}

fn line_of(alloc: Global, refusal: Refusal) -> Result<String, AllocError> {
    match refusal {
        Refusal::BadRow { file, row, why } => {
            let name = file.name();
            format!(in alloc; "refused {name} row {row}: {why}\n")
        }
        Refusal::TooMany { what, count } => {
            format!(in alloc; "refused too many {what}: {count}\n")
        }
        Refusal::NoSolution => String::from_str(alloc, "no solution\n"),
        Refusal::Spent { entries } => format!(in alloc; "spent after {entries} entries\n"),
    }
}
