// Reading a tree.
ghost use Rattle.std.specs.Prelude.{◌≡◌, ◌+◌, ◌<◌, ℕ, List, [], All, IfOk, MatchResult, None};
ghost use Rattle.std.specs.Prelude.{length};
ghost use Rattle.std.specs.Prelude.{slice_index_or};
ghost use Rattle.tables.specs.declared.file_id.FileId.TheVariants as file;
ghost use Rattle.tables.specs.Columns.{tree_columns};
ghost use Rattle.tables.specs.Inputs.{cell_faults, or_else, records, table_row_faults};
ghost use Rattle.tables.specs.Reading.{table_of};
ghost use Rattle.tables.specs.Tables.{TableRow, no_row};
ghost use Rattle.tables.specs.Writing.{InColumns};
ghost use Rattle.branch_certificate.specs.ReadRows.{AreRising, IsFirst, IsInOrder, IsReadSoFar};
ghost use Rattle.branch_certificate.specs.ReadRows.{IsReadUpTo};
ghost use Rattle.branch_certificate.specs.TreeFiles.{TreeGives, tree_input, tree_of, read_faults};
ghost use Rattle.branch_certificate.specs.TreeTexts.{CanBeWritten};
ghost use Rattle.line_concepts.specs.Nodes.{NamesWhatIs};

use crate::problem_ids::ProblemIds;
use crate::read_fault::TreeReadFault;
use crate::read_so_far::ReadSoFar;
use crate::tree_row::TreeRow;
use line_concepts::Tree;
use line_cost_model::LineProblem;
use plan_num::NoMemory;
use std::alloc::Global;
use tables::{RowFault, RowWhy, Table, TextRow, columns, rows_of};

// A text that ends where a multiplier is due.
const ENDS_EARLY: TreeReadFault = TreeReadFault::Row(RowFault {
    row: 0,
    why: RowWhy::OrderGap,
});

/// Reads the text of a tree over a line problem, or refuses it by its first fault. It is read row
/// by row, with no table of it.
pub fn read_tree(alloc: Global, bytes: &[u8], problem: &LineProblem) -> Result<Tree, TreeReadFault>
    ensures read { TreeGives
        (read_faults problem.now bytes.now) (tree_of problem.now bytes.now) result }
    ensures names { IfOk result (λ tree. All (NamesWhatIs problem.now) tree) }
    ensures written { IfOk result (λ tree. All CanBeWritten tree) }
{
    let ids = ProblemIds::of(alloc, problem)?;
    let so_far = read_rows(alloc, &ids, bytes)?;
    if so_far.is_due() {
        return Err(ENDS_EARLY);
    }
    Ok(so_far.into_tree()?)
}

// What is read of the rows of a text. A rule that a row breaks comes after the cells of all rows.
fn read_rows(alloc: Global, ids: &ProblemIds, bytes: &[u8]) -> Result<ReadSoFar, TreeReadFault>
    requires { AreRising ids.now }
    ensures { MatchResult result
        (λ so_far. (cell_faults file.Tree tree_columns bytes.now ≡ [])
        × (table_row_faults (tree_input ids.now) (table_of tree_columns bytes.now) ≡ [])
        × IsReadSoFar ids.now (records (tree_input ids.now) (table_of tree_columns bytes.now)) so_far)
        (IsFirst (or_else (cell_faults file.Tree tree_columns bytes.now)
        (table_row_faults (tree_input ids.now) (table_of tree_columns bytes.now)))) }
{
    let mut rows = rows_of(alloc, bytes)?;
    let mut row = TextRow::new(alloc);
    let mut table = Table::new(alloc);
    let mut so_far = ReadSoFar::new(alloc);
    let mut fault = None;
    'rows: while rows.next_row(&mut row)? {
        table.clear();
        table.read_row(&row, &columns!(Tree))?;
        fault = take_row(alloc, ids, &table, &mut so_far, fault)?;
    }
    match fault {
        Some(first) => Err(TreeReadFault::Row(first)),
        None => Ok(so_far),
    }
}

// Takes the one row of a table, unless a row before it breaks a rule; tells the first that does.
fn take_row(
    alloc: Global,
    ids: &ProblemIds,
    table: &Table<4>,
    so_far: &mut ReadSoFar,
    fault: Option<RowFault>,
) -> Result<Option<RowFault>, NoMemory>
    requires rising { AreRising ids.now }
    requires one { 0 < length table.now }
    requires cells { All (λ row. InColumns tree_columns row.cells) table.now }
    requires order { fault ≡ None → IsInOrder so_far.old.bound }
    ensures { IfOk result (λ first. (all : List TableRow) (i : ℕ) → i < length all
        → slice_index_or all i no_row ≡ slice_index_or table.now 0 no_row
        → IsReadUpTo ids.now all i fault so_far.old
        → IsReadUpTo ids.now all (i + 1) first so_far.new) }
{
    if fault.is_some() {
        return Ok(fault);
    }
    let number = table.number(0);
    let row = TreeRow::read(table, 0);
    let said = match row.says(ids) {
        Ok(said) => said,
        Err(why) => return Ok(Some(RowFault { row: number, why })),
    };
    if so_far.take(alloc, said)? {
        return Ok(None);
    }
    let why = RowWhy::OrderGap;
    Ok(Some(RowFault { row: number, why }))
}
