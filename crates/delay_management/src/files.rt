// The files of a disposition, and its line in the report.
ghost use Rattle.std.specs.Prelude.{◌≡◌, ◌+◌, ◌++◌, ◌≤◌, codes, decimal, length, All, IfOk};
ghost use Rattle.std.specs.Fmt.{signed_decimal};
ghost use Rattle.delay_management.specs.DispositionStage.{disposition_made, reason_cells, reason_place, reasons_text};
ghost use Rattle.delay_management.specs.DispositionStage.{time_rows, times_text};
ghost use Rattle.propagation.specs.Reasons.{named_activity};
ghost use Rattle.propagation.specs.declared.times.TheConstants.{LATEST};

use event_tables::{DisposedTime, disposed_times_text};
use giv_files::{Made, MadeFile, MadeList, Stage, count_text, report_line};
use itoa::Buffer;
use plan_num::{NoMemory, Text};
use propagation::{Propagation, Reason, delay_at, missed_at};
use std::alloc::Global;
use tables::{FileId, Table, columns, write_table};

/// What is made of times and of their reasons: two files, and the line of the report.
pub(crate) fn disposition_made(
    alloc: Global,
    problem: &Propagation,
    times: &[u64],
    reasons: &[Reason],
) -> Result<Made, NoMemory>
    requires each { length times.now ≡ length problem.now.events }
    requires small { All (λ time. time ≤ LATEST) times.now }
    requires few { length reasons.now ≤ 100000 }
    requires ids { All (λ reason. named_activity reason ≤ 500000) reasons.now }
    ensures { IfOk result (λ made. made ≡ disposition_made problem.now times.now reasons.now) }
{
    let delay = delay_at(problem.events(), times);
    let missed = missed_at(problem.changes(), times);
    let mut files = MadeList::new(alloc);
    files.push(MadeFile {
        file: FileId::Disposed,
        text: times_text(alloc, times)?,
    })?;
    files.push(MadeFile {
        file: FileId::Reasons,
        text: reasons_text(alloc, reasons)?,
    })?;
    Ok(Made {
        files,
        report: disposition_line(alloc, delay, missed)?,
    })
}

// The line of the report.
fn disposition_line(alloc: Global, delay: i128, missed: usize) -> Result<Text, NoMemory>
    ensures { IfOk result (λ text. text ≡ codes "disposition: delay " ++ signed_decimal delay
        ++ codes ", " ++ decimal missed ++ codes " missed, optimal") }
{
    report_line(
        alloc,
        Stage::Disposition,
        &[
            delay_text(alloc, delay)?,
            count_text(alloc, missed, "missed")?,
            Text::copy(alloc, b"optimal")?,
        ],
    )
}

// How late all arrivals are.
fn delay_text(alloc: Global, delay: i128) -> Result<Text, NoMemory>
    ensures { IfOk result (λ text. text ≡ codes "delay " ++ signed_decimal delay) }
{
    let mut buffer = Buffer::new();
    let mut text = Vec::from_slice(alloc, b"delay ")?;
    text.extend_from_slice(buffer.format(delay).as_bytes())?;
    Ok(Text::from_vec(text))
}

// The text of times.
fn times_text(alloc: Global, times: &[u64]) -> Result<Text, NoMemory>
    requires few { length times.now ≤ 100000 }
    requires small { All (λ time. time ≤ LATEST) times.now }
    ensures { IfOk result (λ text. text ≡ times_text times.now) }
{
    let rows = time_rows(alloc, times)?;
    disposed_times_text(alloc, &rows)
}

// The rows of times: the events are numbered from 1.
fn time_rows(alloc: Global, times: &[u64]) -> Result<Vec<DisposedTime>, NoMemory>
    requires { length times.now ≤ 100000 }
    ensures { IfOk result (λ rows. rows.items ≡ time_rows times.now) }
{
    let mut rows = Vec::with_capacity(alloc, times.len())?;
    for index in 0..times.len() {
        rows.push(DisposedTime {
            event: index as u32 + 1,
            time: times[index],
        })?;
    }
    Ok(rows)
}

// The text of reasons.
fn reasons_text(alloc: Global, reasons: &[Reason]) -> Result<Text, NoMemory>
    requires few { length reasons.now ≤ 100000 }
    requires ids { All (λ reason. named_activity reason ≤ 500000) reasons.now }
    ensures { IfOk result (λ text. text ≡ reasons_text reasons.now) }
{
    let mut table = Table::new(alloc);
    for index in 0..reasons.len() {
        table.push(0, &reason_cells(index as u32 + 1, reasons[index]))?;
    }
    write_table(
        alloc,
        b"# event-id; reason; activity-id",
        &table,
        &columns!(Reasons),
    )
}

// The cells of the reason of an event.
fn reason_cells(event: u32, reason: Reason) -> [i64; 3]
    ensures { result ≡ reason_cells (record { event = event; reason = reason }) }
{
    [
        i64::from(event),
        i64::from(reason_place(reason)),
        i64::from(named_activity(reason)),
    ]
}

// The place of the word of a reason, from 0.
fn reason_place(reason: Reason) -> u8
    ensures { result ≡ reason_place reason }
{
    match reason {
        Reason::Source => 0,
        Reason::Activity { .. } => 1,
        Reason::Turn => 2,
    }
}

// The id of the activity of a reason, or 0 where it is none.
fn named_activity(reason: Reason) -> u32
    ensures { result ≡ named_activity reason }
{
    match reason {
        Reason::Activity { id } => id,
        _ => 0,
    }
}
