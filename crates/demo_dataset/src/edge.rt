// Edges of a square grid of stops.
ghost use Rattle.std.specs.Prelude.{◌≡◌, ◌≤◌, ◌<◌, ◌++◌, IfOk, OnOk};
ghost use Rattle.std.specs.List.{flat_map};
ghost use Rattle.demo_dataset.specs.Grid.{one_to, stop_id, edge_right, edge_down};
ghost use Rattle.demo_dataset.specs.Grid.{row_edges, column_edges, edges_of};

use plan_num::NoMemory;
use std::alloc::Global;

/// An edge by its id and the ids of its stops.
#[derive(Clone, Copy)]
pub(crate) struct Edge {
    pub(crate) id: u32,
    pub(crate) left: u32,
    pub(crate) right: u32,
}

/// The id of the stop in a row and a column, from 1 on, of a square of this size.
pub(crate) fn stop_id(size: u32, row: u32, column: u32) -> u32
    requires size { size ≤ 8 }
    requires first { 1 ≤ row }
    requires row { row ≤ 8 }
    requires column { column ≤ 8 }
    ensures { result ≡ stop_id size row column }
{
    (row - 1) * size + column
}

/// The edge from a stop to the next one in its row.
fn edge_right(size: u32, row: u32, column: u32) -> Edge
    requires some { 1 ≤ size }
    requires size { size ≤ 8 }
    requires first { 1 ≤ row }
    requires row { row ≤ size }
    requires column { column < size }
    ensures { result ≡ edge_right size row column }
{
    Edge {
        id: (row - 1) * (size - 1) + column,
        left: stop_id(size, row, column),
        right: stop_id(size, row, column + 1),
    }
}

/// The edge from a stop to the next one in its column.
fn edge_down(size: u32, column: u32, row: u32) -> Edge
    requires some { 1 ≤ size }
    requires size { size ≤ 8 }
    requires first { 1 ≤ column }
    requires column { column ≤ size }
    requires top { 1 ≤ row }
    requires row { row < size }
    ensures { result ≡ edge_down size column row }
{
    Edge {
        id: size * (size - 1) + (column - 1) * (size - 1) + row,
        left: stop_id(size, row, column),
        right: stop_id(size, row + 1, column),
    }
}

/// Appends the edges along a row.
pub(crate) fn push_row(edges: &mut Vec<Edge>, size: u32, row: u32) -> Result<(), NoMemory>
    requires size { size ≤ 8 }
    requires first { 1 ≤ row }
    requires row { row ≤ size }
    ensures { OnOk result (edges.new.items ≡ edges.old.items ++ row_edges size row) }
{
    for column in 1..size {
        edges.push(edge_right(size, row, column))?;
    }
    Ok(())
}

/// Appends the edges down a column.
pub(crate) fn push_column(edges: &mut Vec<Edge>, size: u32, column: u32) -> Result<(), NoMemory>
    requires size { size ≤ 8 }
    requires first { 1 ≤ column }
    requires column { column ≤ size }
    ensures { OnOk result (edges.new.items ≡ edges.old.items ++ column_edges size column) }
{
    for row in 1..size {
        edges.push(edge_down(size, column, row))?;
    }
    Ok(())
}

/// All edges, in the order of their ids.
pub(crate) fn all_edges(alloc: Global, size: u32) -> Result<Vec<Edge>, NoMemory>
    requires some { 1 ≤ size }
    requires few { size ≤ 8 }
    ensures { IfOk result (λ edges. edges.items ≡ edges_of size) }
{
    let mut edges = Vec::new(alloc);
    push_rows(&mut edges, size)?;
    push_columns(&mut edges, size)?;
    Ok(edges)
}

// Appends the edges along each row.
fn push_rows(edges: &mut Vec<Edge>, size: u32) -> Result<(), NoMemory>
    requires some { 1 ≤ size }
    requires few { size ≤ 8 }
    ensures { OnOk result (edges.new.items
        ≡ edges.old.items ++ flat_map (row_edges size) (one_to size)) }
{
    for row in 1..=size {
        push_row(edges, size, row)?;
    }
    Ok(())
}

// Appends the edges down each column.
fn push_columns(edges: &mut Vec<Edge>, size: u32) -> Result<(), NoMemory>
    requires some { 1 ≤ size }
    requires few { size ≤ 8 }
    ensures { OnOk result (edges.new.items
        ≡ edges.old.items ++ flat_map (column_edges size) (one_to size)) }
{
    for column in 1..=size {
        push_column(edges, size, column)?;
    }
    Ok(())
}
