// The front of an entry, up to the files that were made.
ghost use Rattle.std.specs.Prelude.{◌≡◌, IfOk, codes, flat_map};
ghost use Rattle.giv_files.specs.Settings.{Fits};
ghost use Rattle.stage_keep.specs.Entries.{front_lines, given_front, opening};

use crate::block::push_opening;
use crate::ends::entry_front;
use crate::given::Given;
use plan_num::{NoMemory, Text};
use std::alloc::Global;

/// The lines of the entry of what a stage is given that stand before its inputs: the front up to
/// the first one, and the line of each.
pub fn front_lines(alloc: Global, given: &Given<'_>) -> Result<Vec<Text>, NoMemory>
    requires { Fits given.now }
    ensures { IfOk result (λ lines. lines.items ≡ front_lines given.now) }
{
    let mut lines = Vec::new(alloc);
    lines.push(entry_front(alloc, given)?)?;
    for index in 0..given.inputs() {
        lines.push(input_line(alloc, given.input(index).len())?)?;
    }
    Ok(lines)
}

// The line of an input of so many bytes.
fn input_line(alloc: Global, size: usize) -> Result<Text, NoMemory>
    ensures { IfOk result (λ line. line ≡ opening (codes "input") size) }
{
    let mut line = Vec::new(alloc);
    push_opening(&mut line, b"input", size)?;
    Ok(Text::from_vec(line))
}

/// The front of the entry of what a stage is given in pieces: these lines, and the inputs behind
/// them.
pub fn front_pieces<'b>(
    alloc: Global,
    lines: &'b [Text],
    given: &'b Given<'_>,
) -> Result<Vec<&'b [u8]>, NoMemory>
    requires { lines.now ≡ front_lines given.now }
    ensures { IfOk result (λ pieces.
        flat_map (λ piece. piece.now) pieces.items ≡ given_front given.now) }
{
    let mut pieces = Vec::new(alloc);
    pieces.push(lines[0].as_bytes())?;
    for index in 0..given.inputs() {
        pieces.push(lines[index + 1].as_bytes())?;
        pieces.push(given.input(index))?;
    }
    Ok(pieces)
}
