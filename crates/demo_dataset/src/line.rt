// Lines along the rows and columns of a square grid of stops.
ghost use Rattle.std.specs.Prelude.{◌≡◌, ◌≤◌, ◌++◌, ◌∷◌, [], map, IfOk, OnOk};
ghost use Rattle.demo_dataset.specs.Grid.{one_to, row_line, column_line};
ghost use Rattle.demo_dataset.specs.Grid.{right_first_line, down_first_line, lines_of};

use crate::edge::{Edge, push_column, push_row};
use plan_num::NoMemory;
use std::alloc::Global;
use std::marker::Model;

/// A line by its id and the edges that it runs over.
#[derive(Drop)]
pub(crate) struct Line {
    pub(crate) id: u32,
    pub(crate) edges: Vec<Edge>,
}

impl Model for Line {
    ghost use Rattle.demo_dataset.specs.Grid.{LineWalk};

    ghost Value = { LineWalk };

    ghost view = { λ line. record { id = line.id; edges = line.edges.items } };
}

/// All lines; a single stop has none.
pub(crate) fn all_lines(alloc: Global, size: u32) -> Result<Vec<Line>, NoMemory>
    requires some { 1 ≤ size }
    requires few { size ≤ 8 }
    ensures { IfOk result (λ lines. lines.items ≡ lines_of size) }
{
    let mut lines = Vec::new(alloc);
    if size < 2 {
        return Ok(lines);
    }
    push_row_lines(alloc, &mut lines, size)?;
    push_column_lines(alloc, &mut lines, size)?;
    push_bent_lines(alloc, &mut lines, size)?;
    Ok(lines)
}

// Appends the lines along the rows.
fn push_row_lines(alloc: Global, lines: &mut Vec<Line>, size: u32) -> Result<(), NoMemory>
    requires some { 1 ≤ size }
    requires few { size ≤ 8 }
    ensures { OnOk result (lines.new.items
        ≡ lines.old.items ++ map (row_line size) (one_to size)) }
{
    for row in 1..=size {
        lines.push(row_line(alloc, size, row)?)?;
    }
    Ok(())
}

// Appends the lines down the columns.
fn push_column_lines(alloc: Global, lines: &mut Vec<Line>, size: u32) -> Result<(), NoMemory>
    requires some { 1 ≤ size }
    requires few { size ≤ 8 }
    ensures { OnOk result (lines.new.items
        ≡ lines.old.items ++ map (column_line size) (one_to size)) }
{
    for column in 1..=size {
        lines.push(column_line(alloc, size, column)?)?;
    }
    Ok(())
}

// The line along a row.
fn row_line(alloc: Global, size: u32, row: u32) -> Result<Line, NoMemory>
    requires size { size ≤ 8 }
    requires first { 1 ≤ row }
    requires row { row ≤ size }
    ensures { IfOk result (λ line. line ≡ row_line size row) }
{
    let mut edges = Vec::new(alloc);
    push_row(&mut edges, size, row)?;
    Ok(Line { id: row, edges })
}

// The line down a column.
fn column_line(alloc: Global, size: u32, column: u32) -> Result<Line, NoMemory>
    requires size { size ≤ 8 }
    requires first { 1 ≤ column }
    requires column { column ≤ size }
    ensures { IfOk result (λ line. line ≡ column_line size column) }
{
    let mut edges = Vec::new(alloc);
    push_column(&mut edges, size, column)?;
    Ok(Line {
        id: size + column,
        edges,
    })
}

// Appends the two lines with a corner.
fn push_bent_lines(alloc: Global, lines: &mut Vec<Line>, size: u32) -> Result<(), NoMemory>
    requires some { 1 ≤ size }
    requires few { size ≤ 8 }
    ensures { OnOk result (lines.new.items ≡ lines.old.items
        ++ right_first_line size ∷ down_first_line size ∷ []) }
{
    let mut edges = Vec::new(alloc);
    push_row(&mut edges, size, 1)?;
    push_column(&mut edges, size, size)?;
    lines.push(Line {
        id: 2 * size + 1,
        edges,
    })?;
    let mut edges = Vec::new(alloc);
    push_column(&mut edges, size, 1)?;
    push_row(&mut edges, size, size)?;
    lines.push(Line {
        id: 2 * size + 2,
        edges,
    })?;
    Ok(())
}
