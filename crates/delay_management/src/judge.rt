// The rules of a disposition from any hand, in their order.
ghost use Rattle.std.specs.Prelude.{◌≡◌, ◌≤◌, ◌++◌, List, length, slice_get, if◌then◌else◌, None, Some, All, IfOk};
ghost use Rattle.std.specs.Prelude.{IfSome};
ghost use Rattle.tables.specs.Columns.{disposed_columns, reasons_columns};
ghost use Rattle.tables.specs.Reading.{table_of};
ghost use Rattle.tables.specs.Writing.{InColumns};
ghost use Rattle.event_tables.specs.Cells.{disposed_time};
ghost use Rattle.tables.specs.RowsOfTables.{records_by};
ghost use Rattle.propagation.specs.declared.step.Activity.{Activity};
ghost use Rattle.delay_management.specs.Judged.{broken_reasons, broken_rows, broken_times, first_broken_rule, is_table};
ghost use Rattle.delay_management.specs.Judged.{reason_faults, reason_row};
ghost use Rattle.propagation.specs.Problems.{Joins};
ghost use Rattle.propagation.specs.Waiting.{chosen_changes};
ghost use Rattle.propagation.specs.declared.times.TheConstants.{LATEST};

use crate::fault::ReasonFault;
use crate::rows::{are_all_reasons, are_all_times, reasons_of, times_of};
use plan_num::NoMemory;
use propagation::{Activity, Propagation, first_early, first_wrong, kept_activities};
use std::alloc::Global;
use tables::{ReadFault, Table, columns, read_table};

/// The first rule that the texts of times and of reasons break, where some changes are kept.
pub(crate) fn first_fault(
    alloc: Global,
    problem: &Propagation,
    kept: &[bool],
    times: &[u8],
    reasons: &[u8],
) -> Result<Option<ReasonFault>, NoMemory>
    ensures { IfOk result (λ answer. answer ≡ first_broken_rule problem.now
        (chosen_changes problem.now kept.now) times.now reasons.now) }
{
    match time_table(alloc, times)? {
        None => Ok(Some(ReasonFault::TimesRow)),
        Some(table) => rows_fault(alloc, problem, kept, &table, reasons),
    }
}

// The table that a text of times is, where it is one.
fn time_table(alloc: Global, text: &[u8]) -> Result<Option<Table<2>>, NoMemory>
    ensures read { IfOk result (λ read. read ≡ (if is_table disposed_columns text.now
        then Some (table_of disposed_columns text.now) else None)) }
    ensures cells { IfOk result (λ read. IfSome read
        (λ table. All (λ row. InColumns disposed_columns row.cells) table)) }
{
    match read_table(alloc, text, &columns!(Disposed)) {
        Ok(table) => Ok(Some(table)),
        Err(ReadFault::Row(_)) => Ok(None),
        Err(ReadFault::NoMemory) => Err(NoMemory),
    }
}

// The table that a text of reasons is, where it is one.
fn reason_table(alloc: Global, text: &[u8]) -> Result<Option<Table<3>>, NoMemory>
    ensures read { IfOk result (λ read. read ≡ (if is_table reasons_columns text.now
        then Some (table_of reasons_columns text.now) else None)) }
    ensures cells { IfOk result (λ read. IfSome read
        (λ table. All (λ row. InColumns reasons_columns row.cells) table)) }
{
    match read_table(alloc, text, &columns!(Reasons)) {
        Ok(table) => Ok(Some(table)),
        Err(ReadFault::Row(_)) => Ok(None),
        Err(ReadFault::NoMemory) => Err(NoMemory),
    }
}

// The first rule that rows of times break, with a text of reasons.
fn rows_fault(
    alloc: Global,
    problem: &Propagation,
    kept: &[bool],
    table: &Table<2>,
    reasons: &[u8],
) -> Result<Option<ReasonFault>, NoMemory>
    requires { All (λ row. InColumns disposed_columns row.cells) table.now }
    ensures { IfOk result (λ answer. answer ≡ slice_get (broken_rows problem.now
        (chosen_changes problem.now kept.now) (records_by disposed_time table.now) reasons.now) 0) }
{
    if !are_all_times(table, problem.events().len()) {
        return Ok(Some(ReasonFault::Events));
    }
    let times = times_of(alloc, table)?;
    times_fault(alloc, problem, kept, &times, reasons)
}

// The first rule that times break, with a text of reasons.
fn times_fault(
    alloc: Global,
    problem: &Propagation,
    kept: &[bool],
    times: &[u64],
    reasons: &[u8],
) -> Result<Option<ReasonFault>, NoMemory>
    requires each { length times.now ≡ length problem.now.events }
    requires small { All (λ time. time ≤ LATEST) times.now }
    ensures { IfOk result (λ answer. answer ≡ slice_get (broken_times problem.now
        (chosen_changes problem.now kept.now) times.now reasons.now) 0) }
{
    let activities = kept_activities(alloc, problem, kept)?;
    let (earliest, turns) = (problem.earliest(), problem.turns());
    match first_early(alloc, earliest, &activities, turns, times)? {
        Some(event) => Ok(Some(ReasonFault::Early { event })),
        None => reasons_fault(alloc, problem, &activities, times, reasons),
    }
}

// The first rule that a text of reasons breaks for times.
fn reasons_fault(
    alloc: Global,
    problem: &Propagation,
    activities: &[Activity],
    times: &[u64],
    text: &[u8],
) -> Result<Option<ReasonFault>, NoMemory>
    requires each { length times.now ≡ length problem.now.events }
    requires small { All (λ time. time ≤ LATEST) times.now }
    requires ends { All (λ activity. Joins (length times.now) activity.step) activities.now }
    ensures { IfOk result (λ answer. (kept : List Activity)
        → activities.now ≡ problem.now.rides ++ kept
        → answer ≡ slice_get (reason_faults problem.now kept times.now text.now) 0) }
{
    match reason_table(alloc, text)? {
        None => Ok(Some(ReasonFault::ReasonsRow)),
        Some(table) => reason_rows_fault(alloc, problem, activities, times, &table),
    }
}

// The first rule that rows of reasons break for times.
fn reason_rows_fault(
    alloc: Global,
    problem: &Propagation,
    activities: &[Activity],
    times: &[u64],
    table: &Table<3>,
) -> Result<Option<ReasonFault>, NoMemory>
    requires each { length times.now ≡ length problem.now.events }
    requires small { All (λ time. time ≤ LATEST) times.now }
    requires ends { All (λ activity. Joins (length times.now) activity.step) activities.now }
    requires cells { All (λ row. InColumns reasons_columns row.cells) table.now }
    ensures { IfOk result (λ answer. (kept : List Activity)
        → activities.now ≡ problem.now.rides ++ kept → answer ≡ slice_get (broken_reasons problem.now
        kept times.now (records_by reason_row table.now)) 0) }
{
    if !are_all_reasons(table, times.len()) {
        return Ok(Some(ReasonFault::ReasonsRow));
    }
    let reasons = reasons_of(alloc, table)?;
    let (earliest, turns) = (problem.earliest(), problem.turns());
    match first_wrong(alloc, earliest, activities, turns, times, &reasons)? {
        Some(event) => Ok(Some(ReasonFault::Reason { event })),
        None => Ok(None),
    }
}
