// The rules of a line concept, in their order.
ghost use Rattle.std.specs.Prelude.{◌≡◌, ◌≤◌, length, map, option_copied, if◌then◌else◌};
ghost use Rattle.std.specs.Prelude.{None, Some, All, IfOk, IfNone, IfSome};
ghost use Rattle.tables.specs.Columns.{concept_columns};
ghost use Rattle.tables.specs.Reading.{faults, table_of};
ghost use Rattle.tables.specs.Writing.{InColumns};
ghost use Rattle.line_cost_model.specs.Concepts.{cost_of};
ghost use Rattle.line_search.specs.ConceptTables.{frequencies_in};
ghost use Rattle.line_search.specs.Judged.{Marks, Passes, first_broken, has_some, tree_rule};

use crate::concept_table::{has_row_count, have_same_cells, rows_of_concept};
use crate::fault::ConceptFault;
use crate::frequencies::line_frequencies;
use branch_certificate::{TreeReadFault, check_tree, read_tree};
use line_cost_model::LineProblem;
use plan_num::NoMemory;
use std::alloc::Global;
use tables::{ReadFault, Table, columns, read_table};

/// The first rule that the text of a line concept breaks, or that the text of a tree beside it
/// does.
pub(crate) fn first_fault(
    alloc: Global,
    problem: &LineProblem,
    concept: &[u8],
    tree: Option<&[u8]>,
) -> Result<Option<ConceptFault>, NoMemory>
    ensures first { IfOk result (λ answer. answer
        ≡ first_broken problem.now concept.now (option_copied tree.entry)) }
    ensures passes { IfOk result (λ answer. IfNone answer
        (Passes problem.now concept.now (option_copied tree.entry))) }
{
    let Some(table) = concept_rows(alloc, concept)? else {
        return Ok(Some(ConceptFault::Row));
    };
    if !has_row_count(problem, table.len()) {
        return Ok(Some(ConceptFault::Lines));
    }
    let frequencies = line_frequencies(alloc, problem, &table)?;
    if !have_same_cells(&table, &rows_of_concept(alloc, problem, &frequencies)?) {
        return Ok(Some(ConceptFault::Lines));
    }
    if !problem.is_feasible(&frequencies) {
        return Ok(Some(ConceptFault::Bounds));
    }
    match tree {
        Some(text) => tree_fault(alloc, problem, &frequencies, text),
        None => Ok(None),
    }
}

// The table that a text is, where it is one.
fn concept_rows(alloc: Global, text: &[u8]) -> Result<Option<Table<4>>, NoMemory>
    ensures read { IfOk result (λ read. read
        ≡ (if has_some (faults concept_columns text.now) then None
        else Some (table_of concept_columns text.now))) }
    ensures cells { IfOk result (λ read. IfSome read
        (λ table. All (λ row. InColumns concept_columns row.cells) table)) }
{
    match read_table(alloc, text, &columns!(Concept)) {
        Ok(table) => Ok(Some(table)),
        Err(ReadFault::Row(_)) => Ok(None),
        Err(ReadFault::NoMemory) => Err(NoMemory),
    }
}

/// The first rule that the text of a tree breaks which is to certify what a concept costs.
pub(crate) fn tree_fault(
    alloc: Global,
    problem: &LineProblem,
    frequencies: &[u32],
    text: &[u8],
) -> Result<Option<ConceptFault>, NoMemory>
    requires each { length frequencies.now ≡ length problem.now.lines }
    requires few { All (λ frequency. frequency ≤ 1000) frequencies.now }
    ensures first { IfOk result (λ answer. answer
        ≡ tree_rule problem.now (cost_of problem.now frequencies.now) (Some text.now)) }
    ensures marks { IfOk result (λ answer. IfNone answer
        (Marks problem.now frequencies.now text.now)) }
{
    let tree = match read_tree(alloc, text, problem) {
        Ok(tree) => tree,
        Err(TreeReadFault::Row(_)) => return Ok(Some(ConceptFault::Tree)),
        Err(TreeReadFault::NoMemory) => return Err(NoMemory),
    };
    let fault = check_tree(alloc, problem, problem.cost(frequencies), &tree)?;
    Ok(fault.map(ConceptFault::of_tree))
}
