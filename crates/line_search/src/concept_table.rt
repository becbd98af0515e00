// The table of a line concept.
ghost use Rattle.std.specs.Prelude.{◌≡◌, ◌<◌, ◌+◌, ◌∷◌, ◌++◌, [], length, slice_get};
ghost use Rattle.std.specs.Prelude.{nat_eq, option_map, Some, IfOk, OnOk};
ghost use Rattle.line_search.specs.ConceptTables.{concept_rows, line_rows, row_at, row_count};
ghost use Rattle.line_search.specs.Judged.{same_cells};

use line_cost_model::LineProblem;
use plan_num::NoMemory;
use std::alloc::Global;
use tables::Table;

/// The rows of the lines at some frequencies.
pub(crate) fn rows_of_concept(
    alloc: Global,
    problem: &LineProblem,
    frequencies: &[u32],
) -> Result<Table<4>, NoMemory>
    requires { length frequencies.now ≡ length problem.now.lines }
    ensures { IfOk result (λ table. table ≡ concept_rows problem.now frequencies.now) }
{
    let mut table = Table::new(alloc);
    for line in 0..problem.line_count() {
        push_rows(&mut table, problem, line, frequencies[line])?;
    }
    Ok(table)
}

// The rows of one line more at a frequency.
fn push_rows(
    table: &mut Table<4>,
    problem: &LineProblem,
    line: usize,
    frequency: u32,
) -> Result<(), NoMemory>
    requires { line < length problem.now.lines }
    ensures { OnOk result
        (option_map (λ at. table.old ++ line_rows problem.now at frequency)
        (slice_get problem.now.lines line) ≡ Some table.new) }
{
    let _lines = problem.line_count();
    let (id, _) = problem.line_row(line);
    for (place, edge) in problem.line_edges(line).iter().enumerate() {
        push_row(table, problem, id, place, *edge, frequency)?;
    }
    Ok(())
}

// One row more, of an edge at a place of the line of an id.
fn push_row(
    table: &mut Table<4>,
    problem: &LineProblem,
    id: i64,
    place: usize,
    edge: usize,
    frequency: u32,
) -> Result<(), NoMemory>
    requires place { place < 2000000000000000000 }
    requires edge { edge < length problem.now.edges }
    ensures { OnOk result (table.new ≡ table.old
        ++ row_at problem.now id frequency (place + 1, edge) ∷ []) }
{
    let (edge_id, _, _) = problem.edge_row(edge);
    table.push(0, &[id, place as i64 + 1, edge_id, i64::from(frequency)])
}

/// Whether a concept has so many rows.
pub(crate) fn has_row_count(problem: &LineProblem, count: usize) -> bool
    ensures { result ≡ nat_eq count (row_count problem.now.lines) }
{
    let mut left = count;
    for line in 0..problem.line_count() {
        let own = problem.line_edges(line).len();
        if left < own {
            return false;
        }
        left -= own;
    }
    left == 0
}

/// Whether two tables have the same cells.
pub(crate) fn have_same_cells(table: &Table<4>, other: &Table<4>) -> bool
    ensures { result ≡ same_cells table.now other.now }
{
    if table.len() != other.len() {
        return false;
    }
    for row in 0..table.len() {
        if table.row(row) != other.row(row) {
            return false;
        }
    }
    true
}
