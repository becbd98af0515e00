// What is printed.
use crate::stop::Stop;
use pesp_judge::{BoundFault, BoundRule, Judged};
use pesp_texts::{CheckedBound, JudgedTimes, TextFault, row_number};
use std::alloc::Global;

/// How a run ended: what is printed, and the exit status.
#[derive(Drop)]
pub(crate) struct Ended {
    pub(crate) text: String,
    pub(crate) status: u8,
}

/// The line that tells how the program is called.
pub(crate) const USAGE: &str = "usage: pesp-judge check INSTANCE TIMES [PERIOD]\n       \
    pesp-judge bound INSTANCE CERTIFICATE [PERIOD]\n       \
    pesp-judge INSTANCE TIMES CERTIFICATE [PERIOD]\n";

/// What is said of times.
pub(crate) fn judged_line<'a>(
    alloc: Global,
    text: &[u8],
    name: &'a str,
    it: &JudgedTimes,
) -> Result<Ended, Stop<'a>> {
    match it.judged {
        Judged::Kept(cost) => {
            let count = it.instance.weighted.activities().len();
            let text = format!(in alloc; "kept: weighted slack {cost}, {count} activities\n")?;
            Ok(Ended { text, status: 0 })
        }
        Judged::Broken(index) => {
            let row = match row_number(alloc, text, index) {
                Ok(row) => row,
                Err(stop) => return Err(Stop::of_text(stop, name)),
            };
            Ok(Ended {
                text: broken_line(alloc, it, index, row)?,
                status: 9,
            })
        }
    }
}

// What is said of an activity that is not kept.
fn broken_line<'a>(
    alloc: Global,
    it: &JudgedTimes,
    index: usize,
    row: u64,
) -> Result<String, Stop<'a>> {
    let Some(activity) = it.instance.weighted.activities().get(index) else {
        return Ok(format!(in alloc; "broken: row {row}\n")?);
    };
    let activity = activity.activity;
    let from = name_of(it, activity.from);
    let to = name_of(it, activity.to);
    let minutes = it.minutes(&activity);
    let lower = activity.lower;
    let upper = activity.upper;
    Ok(format!(in alloc;
        "broken: row {row}: from {from} to {to} takes {minutes}, {lower} to {upper} allowed\n"
    )?)
}

// The name of an event.
fn name_of(it: &JudgedTimes, event: usize) -> i64 {
    match it.instance.names.get_index(event) {
        Some(name) => *name,
        None => 0,
    }
}

/// What is said of a certificate.
pub(crate) fn checked_line<'a>(alloc: Global, it: CheckedBound) -> Result<Ended, Stop<'a>> {
    let claim = it.claim;
    match it.fault {
        Some(fault) => Ok(Ended {
            text: fault_line(alloc, fault)?,
            status: 9,
        }),
        None if it.above_all => Ok(Ended {
            text: format!(in alloc; "there is no timetable\n")?,
            status: 0,
        }),
        None => Ok(Ended {
            text: format!(in alloc; "no timetable has less than {claim}\n")?,
            status: 0,
        }),
    }
}

// What is said of a certificate that proves nothing.
fn fault_line<'a>(alloc: Global, fault: BoundFault) -> Result<String, Stop<'a>> {
    let rule = rule_text(fault.rule);
    match fault.row {
        Some(row) => Ok(format!(in alloc; "uncertified: row {row}: {rule}\n")?),
        None => Ok(format!(in alloc; "uncertified: {rule}\n")?),
    }
}

// What a rule of certificates says.
fn rule_text(rule: BoundRule) -> &'static str {
    match rule {
        BoundRule::NoPart => "multipliers are parts of one",
        BoundRule::CycleNumber => "cycles are numbered from 1 in their order",
        BoundRule::NoActivity => "there is no activity of this number",
        BoundRule::NoSign => "a step goes along its activity (1) or against it (-1)",
        BoundRule::NotClosed => "steps lead from event to event and back to the first",
        BoundRule::NoCycle => "there is no cycle of this number",
        BoundRule::NoSplit => "there is no split of this number on the way",
        BoundRule::Negative => "a multiplier is at least 0",
        BoundRule::ShowsLess => "this leaf shows less than the claim",
        BoundRule::NotHere => "such a row does not stand here",
        BoundRule::NotWhole => "the tree is not whole",
        BoundRule::TooLarge => "a sum has more than 128 bits",
    }
}

/// How far times and a bound are apart.
pub(crate) fn apart_line<'a>(alloc: Global, cost: i128, claim: i64) -> Result<String, Stop<'a>> {
    let apart = cost.saturating_sub(i128::from(claim));
    if apart == 0 {
        Ok(format!(in alloc; "the times are best\n")?)
    } else {
        Ok(format!(in alloc; "apart: {apart}\n")?)
    }
}

/// What is said where nothing is judged.
pub(crate) fn stop_line<'a>(alloc: Global, stop: Stop<'a>) -> Result<Ended, Stop<'a>> {
    match stop {
        Stop::NoMemory => Err(Stop::NoMemory),
        Stop::FileFault => Ok(Ended {
            text: format!(in alloc; "file fault\n")?,
            status: 6,
        }),
        Stop::Missing(name) => Ok(Ended {
            text: format!(in alloc; "refused: {name} is missing\n")?,
            status: 3,
        }),
        Stop::TooLong(name) => Ok(Ended {
            text: format!(in alloc; "refused: {name} has more than 64 MiB\n")?,
            status: 3,
        }),
        Stop::Refused(name, fault) => Ok(Ended {
            text: refused_line(alloc, name, fault)?,
            status: 3,
        }),
    }
}

// What is said of a text that is refused.
fn refused_line<'a>(alloc: Global, name: &str, fault: TextFault) -> Result<String, Stop<'a>> {
    let rule = fault.rule;
    match fault.row {
        Some(row) => Ok(format!(in alloc; "refused: {name} row {row}: {rule}\n")?),
        None => Ok(format!(in alloc; "refused: {name}: {rule}\n")?),
    }
}
