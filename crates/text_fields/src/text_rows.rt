// The rows of a text, one after the other.
ghost use Rattle.std.specs.Prelude.{◌≡◌, ◌∷◌, [], false, true, IfNone, IfOk, IfSome, MatchBool};
ghost use Rattle.text_fields.specs.Rows.{has_mark, rows};

use crate::line_reader::LineReader;
use crate::text_row::{LineRead, TextRow};
use plan_num::NoMemory;
use std::alloc::Global;
use std::marker::Model;

/// The rows that are left of a text, in order. Contracts see them as the list of them. They take no
/// memory but a buffer of a fixed size and the room for a row, which is small. After want of memory, which is told
/// for each further row too, they are of no use.
#[derive(Drop)]
pub struct TextRows<'a> {
    number: u64,
    lines: LineReader<'a>,
}

impl<'a> Model for TextRows<'a> {
    ghost use Rattle.std.specs.Prelude.{◌+◌, ◌<◌, ◌^◌, List, length, map};
    ghost use Rattle.text_fields.specs.Rows.{Row};
    ghost use Rattle.text_fields.specs.Told.{row_told, told_left};

    ghost Value = { List Row };

    ghost view = { λ rows. map row_told (told_left rows.number rows.lines) };

    ghost invariant = { λ rows. rows.number + length rows.lines < 2 ^ 64 };
}

impl<'a> TextRows<'a> {
    /// All rows of a text, or none where it begins with a byte order mark.
    pub fn new(alloc: Global, text: &'a [u8]) -> Option<TextRows<'a>>
        ensures none { IfNone result (has_mark text.now ≡ true) }
        ensures all { IfSome result
            (λ left. (has_mark text.now ≡ false) × (left ≡ rows text.now)) }
    {
        if text.starts_with(b"\xEF\xBB\xBF") {
            return None;
        }
        Some(TextRows {
            number: 0,
            lines: LineReader::new(alloc, text),
        })
    }

    /// Reads the next row, and says whether there was one.
    pub fn next_row(&mut self, row: &mut TextRow<'a>) -> Result<bool, NoMemory>
        ensures { IfOk result (λ found.
            MatchBool found (self.old ≡ row.new ∷ self.new) (self.old ≡ [])) }
    {
        'lines: loop {
            match row.read_line(self.number, &mut self.lines)? {
                LineRead::Row => {
                    self.number += 1;
                    return Ok(true);
                }
                LineRead::Passed(number) => self.number = number,
                LineRead::Nothing => return Ok(false),
            }
        }
    }
}
