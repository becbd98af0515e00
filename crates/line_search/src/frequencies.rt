// The frequencies that a table gives the lines.
ghost use Rattle.std.specs.Prelude.{◌≡◌, ◌<◌, ◌≤◌, length, slice_get, slice_index_or};
ghost use Rattle.std.specs.Prelude.{option_map, Some, All, IfOk};
ghost use Rattle.std.specs.Ordering.{int_eq};
ghost use Rattle.tables.specs.Columns.{concept_columns};
ghost use Rattle.tables.specs.Tables.{cell_at, no_row};
ghost use Rattle.tables.specs.Writing.{InColumns};
ghost use Rattle.line_search.specs.ConceptTables.{frequencies_in, frequency_in, frequency_of_row};

use line_cost_model::LineProblem;
use plan_num::NoMemory;
use std::alloc::Global;
use tables::Table;

/// The frequency of each line, which is that of its first row, and 0 where there is none.
pub(crate) fn line_frequencies(
    alloc: Global,
    problem: &LineProblem,
    table: &Table<4>,
) -> Result<Vec<u32>, NoMemory>
    requires { All (λ row. InColumns concept_columns row.cells) table.now }
    ensures read { IfOk result (λ all. all.items ≡ frequencies_in problem.now table.now) }
    ensures few { IfOk result (λ all. All (λ frequency. frequency ≤ 1000) all.items) }
{
    let mut frequencies = Vec::new(alloc);
    for line in 0..problem.line_count() {
        let (id, _) = problem.line_row(line);
        frequencies.push(line_frequency(table, id))?;
    }
    Ok(frequencies)
}

// The frequency of the line of an id.
fn line_frequency(table: &Table<4>, id: i64) -> u32
    requires { All (λ row. InColumns concept_columns row.cells) table.now }
    ensures read { result ≡ frequency_in table.now id }
    ensures few { result ≤ 1000 }
{
    for row in 0..table.len() {
        if is_of_line(table, row, id) {
            return row_frequency(table, row);
        }
    }
    0
}

// Whether a row is one of the line of an id.
fn is_of_line(table: &Table<4>, row: usize, id: i64) -> bool
    requires { row < length table.now }
    ensures { result ≡ int_eq id (cell_at table.now row 0) }
{
    table.cell(row, 0) == id
}

// The frequency of a row.
fn row_frequency(table: &Table<4>, row: usize) -> u32
    requires there { row < length table.now }
    requires cells { All (λ row. InColumns concept_columns row.cells) table.now }
    ensures read { result ≡ frequency_of_row (slice_index_or table.now row no_row) }
    ensures few { result ≤ 1000 }
{
    table.cell(row, 3) as u32
}
