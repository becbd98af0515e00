// Rows of a planner's concept, line by line, beside those of the pool.
ghost use Rattle.std.specs.Prelude.{◌≡◌, ◌<◌, length, map, take, slice_index_or, IfOk, OnOk};
ghost use Rattle.std.specs.Ordering.{int_eq};
ghost use lib.Pointwise.{pointwise};
ghost use Rattle.tables.specs.Tables.{no_row};
ghost use Rattle.line_search.specs.ConceptTables.{concept_rows};
ghost use Rattle.line_search.specs.PinnedConcepts.{by_lines, places_of};
ghost use Rattle.line_search.specs.PoolPlaces.{cells_of, grouped, placed, plain_rows};

use crate::concept_table::rows_of_concept;
use line_cost_model::LineProblem;
use plan_num::NoMemory;
use std::alloc::Global;
use tables::Table;

/// The id of a line, a place in it, and the id of the edge there.
#[derive(Clone, Copy)]
pub(crate) struct PlacedEdge {
    line: i64,
    order: i64,
    edge: i64,
}

/// Whether the rows of a table, line by line, have the lines, the places and the edges that the
/// rows of the pool have.
pub(crate) fn are_of_pool(
    alloc: Global,
    problem: &LineProblem,
    frequencies: &[u32],
    table: &Table<4>,
) -> Result<bool, NoMemory>
    requires { length frequencies.now ≡ length problem.now.lines }
    ensures { IfOk result (λ same. same
        ≡ pointwise (pointwise int_eq) (places_of (by_lines (plain_rows table.now)))
        (places_of (concept_rows problem.now frequencies.now))) }
{
    let rows = rows_by_line(alloc, table)?;
    let own = rows_of_concept(alloc, problem, frequencies)?;
    Ok(have_same_places(&rows, &own))
}

// The rows of a table, by the ids of their lines, rising; those of a line stay in their order.
fn rows_by_line(alloc: Global, table: &Table<4>) -> Result<Vec<PlacedEdge>, NoMemory>
    ensures { IfOk result
        (λ rows. map cells_of rows.items ≡ places_of (by_lines (plain_rows table.now))) }
{
    // A count tells how many cells a row has.
    let _ = table.len();
    let mut rows = placed_rows(alloc, table)?;
    sort_by_line(&mut rows)?;
    Ok(rows)
}

// Sorts rows by their lines, and keeps those of a line in their order.
fn sort_by_line(rows: &mut Vec<PlacedEdge>) -> Result<(), NoMemory>
    ensures { OnOk result (rows.new.items ≡ grouped (λ row. row.line) rows.old.items) }
{
    rows.sort_by_key(|row| row.line)?;
    Ok(())
}

// The rows of a table in their order.
fn placed_rows(alloc: Global, table: &Table<4>) -> Result<Vec<PlacedEdge>, NoMemory>
    ensures { IfOk result (λ rows. rows.items ≡ map placed table.now) }
{
    let mut rows = Vec::new(alloc);
    for row in 0..table.len() {
        rows.push(placed_at(table, row))?;
    }
    Ok(rows)
}

// The row of a table at an index.
fn placed_at(table: &Table<4>, row: usize) -> PlacedEdge
    requires { row < length table.now }
    ensures { result ≡ placed (slice_index_or table.now row no_row) }
{
    PlacedEdge {
        line: table.cell(row, 0),
        order: table.cell(row, 1),
        edge: table.cell(row, 2),
    }
}

// Whether rows have the lines, the places and the edges of a table.
fn have_same_places(rows: &[PlacedEdge], table: &Table<4>) -> bool
    ensures { result ≡ pointwise (pointwise int_eq) (map cells_of rows.now) (places_of table.now) }
{
    if rows.len() != table.len() {
        return false;
    }
    for row in 0..rows.len() {
        if !is_same_place(&rows[row], table, row) {
            return false;
        }
    }
    true
}

// Whether a row is that of a table at an index, but for its frequency.
fn is_same_place(at: &PlacedEdge, table: &Table<4>, row: usize) -> bool
    requires { row < length table.now }
    ensures { result ≡ pointwise int_eq (cells_of at.now)
        (take 3 (slice_index_or table.now row no_row).cells) }
{
    match table.row(row) {
        [line, order, edge, ..] => { at.line == *line && at.order == *order && at.edge == *edge }
        _ => false,
    }
}
