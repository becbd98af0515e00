// The text of a waiting decision.
ghost use Rattle.std.specs.Prelude.{ℕ, ◌≡◌, ◌<◌, ◌++◌, [], get_or, length, map, zip, unsigned_abs, None, All, IfOk};
ghost use Rattle.std.specs.Prelude.{OnOk};
ghost use Rattle.giv_files.specs.declared.stage.Stage.TheVariants as stages;
ghost use Rattle.tables.specs.Inputs.{UnlessFault};
ghost use Rattle.giv_files.specs.Settings.{Fits};
ghost use Rattle.tables.specs.RowsOfTables.{ReadsAs};
ghost use Rattle.delay_management.specs.DispositionStage.{disposition_faults, problem_in};
ghost use Rattle.std.specs.List.Sorted.{IsStrictlyIncreasing};
ghost use Rattle.propagation.specs.declared.step.Activity.{Activity};
ghost use Rattle.propagation.specs.Problems.{IsForward};
ghost use Rattle.wait_choice.specs.declared.row.WaitRow.TheVariants as rows;
ghost use Rattle.wait_choice.specs.Judged.{first_broken_rule};
ghost use Rattle.wait_choice.specs.PrintedRows.{RowFits};
ghost use Rattle.waiting_decisions.specs.RightChoices.{IsRight, IsOver, IsWritable, NamesChange};
ghost use Rattle.wait_choice.specs.WaitTexts.{choice_row, node_row, wait_row, waits_columns, waits_rows, waits_text};

use crate::ids::id_at;
use crate::row::WaitRow;
use crate::text::rows_text;
use delay_management::problem_of_bundle;
use giv_files::Bundle;
use plan_num::{NoMemory, Text};
use propagation::Propagation;
use std::alloc::Global;
use tables::StageFault;
use waiting_decisions::{Kept, WaitNode, WaitTree, Waits};

/// The text of a waiting decision over the inputs of the stage of dispositions.
pub fn print_waits(alloc: Global, bundle: &Bundle, waits: &Waits) -> Result<Text, StageFault>
    requires stage { bundle.now.stage ≡ stages.Disposition }
    requires fits { Fits bundle.now }
    requires over { disposition_faults bundle.now ≡ [] → IsOver (problem_in bundle.now) waits.now }
    requires writable { IsWritable waits.now.cost }
    ensures text { UnlessFault (disposition_faults bundle.now)
        (λ text. text ≡ waits_text (problem_in bundle.now) waits.now) result }
    ensures back { UnlessFault (disposition_faults bundle.now)
        (ReadsAs waits_columns wait_row (waits_rows (problem_in bundle.now) waits.now)) result }
    ensures passes { UnlessFault (disposition_faults bundle.now)
        (λ text. (penalty : ℕ) → IsRight (problem_in bundle.now) penalty waits.now
        → first_broken_rule (problem_in bundle.now) penalty text ≡ None) result }
{
    let problem = problem_of_bundle(alloc, bundle)?;
    Ok(printed(alloc, &problem, waits)?)
}

// The text of a waiting decision over a day.
fn printed(alloc: Global, problem: &Propagation, waits: &Waits) -> Result<Text, NoMemory>
    requires over { IsOver problem.now waits.now }
    requires writable { IsWritable waits.now.cost }
    ensures text { IfOk result (λ text. text ≡ waits_text problem.now waits.now) }
    ensures back { IfOk result (ReadsAs waits_columns wait_row (waits_rows problem.now waits.now)) }
    ensures passes { IfOk result (λ text. (penalty : ℕ) → IsRight problem.now penalty waits.now
        → first_broken_rule problem.now penalty text ≡ None) }
{
    let rows = waits_rows(alloc, problem, waits)?;
    rows_text(alloc, &rows)
}

// The rows of a waiting decision.
fn waits_rows(alloc: Global, problem: &Propagation, waits: &Waits) -> Result<Vec<WaitRow>, NoMemory>
    requires over { IsOver problem.now waits.now }
    requires writable { IsWritable waits.now.cost }
    ensures rows { IfOk result (λ rows. rows.items ≡ waits_rows problem.now waits.now) }
    ensures fit { IfOk result (λ rows. All RowFits rows.items) }
    ensures forward { IsForward problem.now }
    ensures rise { IsStrictlyIncreasing (map (λ change. change.id) problem.now.changes) }
{
    let mut rows = Vec::with_capacity(alloc, problem.change_count() + 1)?;
    rows.push(cost_row(waits.cost))?;
    push_choices(&mut rows, problem, &waits.kept)?;
    if let Some(tree) = &waits.tree {
        push_nodes(&mut rows, problem, tree)?;
    }
    Ok(rows)
}

// The row of a cost.
fn cost_row(cost: i128) -> WaitRow
    requires { IsWritable cost }
    ensures row { result ≡ rows.Cost (unsigned_abs cost) }
    ensures fits { RowFits result }
{
    WaitRow::Cost { cost: cost as u64 }
}

// The rows of what is decided of each change, behind others.
fn push_choices(rows: &mut Vec<WaitRow>, problem: &Propagation, kept: &Kept) -> Result<(), NoMemory>
    requires each { length kept.now ≡ length problem.now.changes }
    requires fit { All RowFits rows.old.items }
    ensures rows { OnOk result (rows.new.items ≡ rows.old.items
        ++ map (λ at. choice_row at.0 at.1) (zip kept.now problem.now.changes)) }
    ensures fit { OnOk result (All RowFits rows.new.items) }
{
    for change in 0..kept.len() {
        rows.push(choice_row(problem, change, kept.at(change)))?;
    }
    Ok(())
}

// The row of what is decided of a change.
fn choice_row(problem: &Propagation, change: usize, kept: bool) -> WaitRow
    requires { change < length problem.now.changes }
    ensures row { (d : Activity) → result
        ≡ choice_row kept (get_or problem.now.changes change d) }
    ensures fits { RowFits result }
{
    let id = id_at(problem, change);
    if kept {
        WaitRow::Keep { id }
    } else {
        WaitRow::Drop { id }
    }
}

// The rows of the nodes of a tree, behind others.
fn push_nodes(
    rows: &mut Vec<WaitRow>,
    problem: &Propagation,
    tree: &WaitTree,
) -> Result<(), NoMemory>
    requires names { All (NamesChange (length problem.now.changes)) tree.now }
    requires fit { All RowFits rows.old.items }
    ensures rows { OnOk result (rows.new.items
        ≡ rows.old.items ++ map (node_row problem.now.changes) tree.now) }
    ensures fit { OnOk result (All RowFits rows.new.items) }
{
    for index in 0..tree.len() {
        rows.push(node_row(problem, tree.node(index)))?;
    }
    Ok(())
}

// The row of a node.
fn node_row(problem: &Propagation, node: &WaitNode) -> WaitRow
    requires { NamesChange (length problem.now.changes) node.now }
    ensures row { result ≡ node_row problem.now.changes node.now }
    ensures fits { RowFits result }
{
    match node {
        WaitNode::Split { change } => WaitRow::Split {
            id: id_at(problem, *change),
        },
        WaitNode::Leaf => WaitRow::Leaf,
    }
}
