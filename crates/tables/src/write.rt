// Writing a table as a text.
ghost use Rattle.std.specs.Prelude.{ℕ, ◌≡◌, ◌<◌, ◌^◌, ◌++◌, ◌∷◌, [], length, slice_index_or, All, IfOk, OnOk};
ghost use Rattle.tables.specs.Names.{table_words};
ghost use Rattle.tables.specs.Writing.{cell_text, line_text, table_text, separator, CanWrite, InColumn, InColumns, IsHeader, ReadsBack, row_line};

use crate::column::ColumnKind;
use crate::table::Table;
use crate::words::WordTable;
use itoa::Buffer;
use plan_num::{NoMemory, Text, print_fixed};
use std::alloc::Global;

/// The text of a table: the header, and then a line for each row with its cells joined by `; `. It is read
/// back to the same cells.
pub fn write_table<const C: usize>(
    alloc: Global,
    header: &[u8],
    table: &Table<C>,
    kinds: &[ColumnKind; C],
) -> Result<Text, NoMemory>
    requires some { 0 < C }
    requires narrow { C < 2 ^ 32 }
    requires kinds { All CanWrite kinds.now }
    requires cells { All (λ row. InColumns kinds.now row.cells) table.now }
    requires header { IsHeader header.now }
    ensures text { IfOk result (λ text. text ≡ table_text header.now kinds.now table.now) }
    ensures back { IfOk result (ReadsBack kinds.now table.now) }
{
    let mut bytes = Vec::new(alloc);
    bytes.extend_from_slice(header)?;
    bytes.push(b'\n')?;
    for row in 0..table.len() {
        push_row(alloc, &mut bytes, table, row, kinds)?;
    }
    Ok(Text::from_vec(bytes))
}

/// Appends the line of a row with these cells, joined by `; `.
pub fn push_line(
    alloc: Global,
    bytes: &mut Vec<u8>,
    cells: &[i64],
    kinds: &[ColumnKind],
) -> Result<(), NoMemory>
    requires { InColumns kinds.now cells.now }
    ensures { OnOk result (bytes.new.items
        ≡ bytes.old.items ++ line_text kinds.now record { number = 0; cells = cells.now }) }
{
    for (column, kind) in kinds.iter().enumerate() {
        push_separator(bytes, column)?;
        push_cell(alloc, bytes, *kind, cells[column])?;
    }
    bytes.push(b'\n')?;
    Ok(())
}

// Appends the line of a row of a table.
fn push_row<const C: usize>(
    alloc: Global,
    bytes: &mut Vec<u8>,
    table: &Table<C>,
    row: usize,
    kinds: &[ColumnKind; C],
) -> Result<(), NoMemory>
    requires row_in { row < length table.now }
    requires cells { All (λ row. InColumns kinds.now row.cells) table.now }
    ensures { OnOk result (bytes.new.items ≡ bytes.old.items ++ line_text kinds.now (row_line table.now row)) }
{
    push_line(alloc, bytes, table.row(row), kinds)
}

// Appends what stands before the cell of a column.
fn push_separator(bytes: &mut Vec<u8>, column: usize) -> Result<(), NoMemory>
    ensures { OnOk result (bytes.new.items ≡ bytes.old.items ++ separator column) }
{
    if column > 0 {
        bytes.extend_from_slice(b"; ")?;
    }
    Ok(())
}

// Appends the text of a cell.
#[tactic(auto, unfolding(crate::specs::Writing::cell_text))]
fn push_cell(
    alloc: Global,
    bytes: &mut Vec<u8>,
    kind: ColumnKind,
    cell: i64,
) -> Result<(), NoMemory>
    requires { InColumn kind cell }
    ensures { OnOk result (bytes.new.items ≡ bytes.old.items ++ cell_text kind cell) }
{
    match kind {
        ColumnKind::Whole { .. } => {
            let mut buffer = Buffer::new();
            bytes.extend_from_slice(buffer.format(cell).as_bytes())?;
        }
        ColumnKind::Fixed { .. } => {
            let text = print_fixed(alloc, i128::from(cell))?;
            bytes.extend_from_slice(text.as_bytes())?;
        }
        ColumnKind::Word { words } => {
            bytes.extend_from_slice(word_at(words, cell as usize).as_bytes())?;
        }
        ColumnKind::Skip => {}
    }
    Ok(())
}

// The word at a place of a table.
fn word_at(words: WordTable, place: usize) -> &'static str
    requires { place < length (table_words words) }
    ensures { result.now ≡ slice_index_or (table_words words) place [] }
{
    words.words()[place]
}
