// The texts of the files of a demo dataset.
ghost use Rattle.std.specs.Prelude.{◌≡◌, ◌≤◌, ◌++◌, ◌<◌, ◌^◌, ◌∷◌, [], ◌+◌, IfOk, OnOk};
ghost use Rattle.std.specs.List.{flat_map};
ghost use Rattle.demo_dataset.specs.Demo.{stop_text, stops_in};
ghost use Rattle.demo_dataset.specs.Grid.{one_to};
ghost use Rattle.demo_dataset.specs.Rows.{stop_row, edge_row, demand_row, demand_rows, customers};
ghost use Rattle.demo_dataset.specs.Rows.{pool_row, line_rows, walk_rows};

use crate::edge::{Edge, stop_id};
use crate::line::Line;
use plan_num::NoMemory;
use std::alloc::Global;

/// The text of all stops, row by row.
pub(crate) fn stop_text(alloc: Global, size: u32) -> Result<Vec<u8>, NoMemory>
    requires some { 1 ≤ size }
    requires few { size ≤ 8 }
    ensures { IfOk result (λ text. text.items ≡ stop_text size) }
{
    let mut text = Vec::new(alloc);
    push_rows(alloc, &mut text, size)?;
    Ok(text)
}

// Appends all stops.
fn push_rows(alloc: Global, text: &mut Vec<u8>, size: u32) -> Result<(), NoMemory>
    requires some { 1 ≤ size }
    requires few { size ≤ 8 }
    ensures { OnOk result (text.new.items
        ≡ text.old.items ++ flat_map (stops_in size) (one_to size)) }
{
    for row in 1..=size {
        push_stops(alloc, text, size, row)?;
    }
    Ok(())
}

// Appends the stops of one row.
fn push_stops(alloc: Global, text: &mut Vec<u8>, size: u32, row: u32) -> Result<(), NoMemory>
    requires some { 1 ≤ size }
    requires few { size ≤ 8 }
    requires first { 1 ≤ row }
    requires row { row ≤ size }
    ensures { OnOk result (text.new.items ≡ text.old.items ++ stops_in size row) }
{
    for column in 1..=size {
        push_stop(alloc, text, stop_id(size, row, column))?;
    }
    Ok(())
}

// Appends a stop.
fn push_stop(alloc: Global, text: &mut Vec<u8>, id: u32) -> Result<(), NoMemory>
    ensures { OnOk result (text.new.items ≡ text.old.items ++ stop_row id) }
{
    let row = format!(in alloc; "{id}; s; s; 0; 0\n")?;
    text.extend_from_slice(row.as_bytes())?;
    Ok(())
}

/// The text of edges.
pub(crate) fn edge_text(alloc: Global, edges: &[Edge]) -> Result<Vec<u8>, NoMemory>
    ensures { IfOk result (λ text. text.items ≡ flat_map edge_row edges.now) }
{
    let mut text = Vec::new(alloc);
    for edge in edges {
        push_edge(alloc, &mut text, *edge)?;
    }
    Ok(text)
}

// Appends an edge.
fn push_edge(alloc: Global, text: &mut Vec<u8>, edge: Edge) -> Result<(), NoMemory>
    ensures { OnOk result (text.new.items ≡ text.old.items ++ edge_row edge) }
{
    let Edge { id, left, right } = edge;
    let lower = 3 + id % 3;
    let upper = lower + 1;
    let row = format!(in alloc; "{id}; {left}; {right}; 1; {lower}; {upper}\n")?;
    text.extend_from_slice(row.as_bytes())?;
    Ok(())
}

/// The text of the demand between the ends of each edge.
pub(crate) fn demand_text(alloc: Global, edges: &[Edge]) -> Result<Vec<u8>, NoMemory>
    ensures { IfOk result (λ text. text.items ≡ flat_map demand_rows edges.now) }
{
    let mut text = Vec::new(alloc);
    for edge in edges {
        push_demand(alloc, &mut text, *edge)?;
    }
    Ok(text)
}

// Appends the demand from the left stop of an edge to its right one, and back.
fn push_demand(alloc: Global, text: &mut Vec<u8>, edge: Edge) -> Result<(), NoMemory>
    ensures { OnOk result (text.new.items ≡ text.old.items ++ demand_rows edge) }
{
    let count = customers(edge.id);
    push_journey(alloc, text, edge.left, edge.right, count)?;
    push_journey(alloc, text, edge.right, edge.left, count)
}

// The customers from one end of an edge to the other, by its id.
fn customers(id: u32) -> u64
    ensures { result ≡ customers id }
{
    30 + 37 * u64::from(id) % 41
}

// Appends the demand from a stop to another one.
fn push_journey(
    alloc: Global,
    text: &mut Vec<u8>,
    from: u32,
    to: u32,
    count: u64,
) -> Result<(), NoMemory>
    ensures { OnOk result (text.new.items ≡ text.old.items ++ demand_row from to count) }
{
    let row = format!(in alloc; "{from}; {to}; {count}\n")?;
    text.extend_from_slice(row.as_bytes())?;
    Ok(())
}

/// The text of lines.
pub(crate) fn pool_text(alloc: Global, lines: &[Line]) -> Result<Vec<u8>, NoMemory>
    ensures { IfOk result (λ text. text.items ≡ flat_map line_rows lines.now) }
{
    let mut text = Vec::new(alloc);
    for line in lines {
        push_line(alloc, &mut text, line)?;
    }
    Ok(text)
}

// Appends the edges of a line.
fn push_line(alloc: Global, text: &mut Vec<u8>, line: &Line) -> Result<(), NoMemory>
    ensures { OnOk result (text.new.items ≡ text.old.items ++ line_rows line.now) }
{
    push_walk(alloc, text, line.id, &line.edges)
}

// Appends the edges of a line by its id.
fn push_walk(alloc: Global, text: &mut Vec<u8>, line: u32, edges: &[Edge]) -> Result<(), NoMemory>
    ensures { OnOk result (text.new.items ≡ text.old.items ++ walk_rows line edges.now) }
{
    for (index, edge) in edges.iter().enumerate() {
        push_line_edge(alloc, text, line, index, *edge)?;
    }
    Ok(())
}

// Appends an edge of a line by its index, which is counted from 0.
fn push_line_edge(
    alloc: Global,
    text: &mut Vec<u8>,
    line: u32,
    index: usize,
    edge: Edge,
) -> Result<(), NoMemory>
    requires { index < 2 ^ 62 }
    ensures { OnOk result (text.new.items ≡ text.old.items
        ++ pool_row line (index + 1) edge.id) }
{
    let order = index + 1;
    let Edge { id, .. } = edge;
    let row = format!(in alloc; "{line}; {order}; {id}\n")?;
    text.extend_from_slice(row.as_bytes())?;
    Ok(())
}
