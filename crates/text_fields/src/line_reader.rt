// The lines of a text, and their pieces as csv splits them.
ghost use Rattle.std.specs.Prelude.{◌≡◌, ◌≤◌, filter, length, IfOk};
ghost use Rattle.csv.specs.Records.{fields_of};
ghost use Rattle.text_fields.specs.Rows.{has_byte, parts_of};
ghost use Rattle.text_fields.specs.Told.{TakesLine};

use crate::handed::Handed;
use crate::pieces::{next_pieces, pieces_reader};
use crate::text_lines::{LineTaken, TextLines};
use csv::{ByteRecord, Reader};
use plan_num::NoMemory;
use std::alloc::Global;
use std::marker::Model;

// Whether csv gives more: it may, or there is no more, or it was refused memory.
#[derive(Clone, Copy)]
enum Source {
    Open,
    Over,
    Refused,
}

/// The lines of a text that have a byte. Contracts see those that are left. After want of memory each
/// further read answers that too.
pub(crate) struct LineReader<'a> {
    lines: TextLines<'a>,
    passed: u64,
    reader: Reader<Handed<'a>>,
    source: Source,
}

impl Drop for LineReader<'_> {
    fn drop(self) {
        let LineReader {
            lines: _,
            passed: _,
            reader: _,
            source: _,
        } = self;
    }
}

impl<'a> Model for LineReader<'a> {
    ghost use Rattle.std.specs.Prelude.{◌≡◌, ◌<◌, ◌≤◌, ◌^◌, List, [], drop, false, length, ℕ};
    ghost use Rattle.text_fields.specs.Told.{given};
    ghost use Rattle.text_fields.specs.Handed.{Awaits};
    ghost use Rattle.text_fields.specs.declared.line_reader.Source.TheVariants as sources;

    ghost Value = { List (List ℕ) };

    ghost view = { λ read. drop read.passed read.lines };

    ghost invariant = { λ read. record {
      within : read.passed ≤ length read.lines;
      few : length read.lines < 2 ^ 64;
      awaits : read.source ≡ sources.Open
          → Awaits read.reader (given false (drop read.passed read.lines));
      over : read.source ≡ sources.Over → drop read.passed read.lines ≡ [];
    } };
}

impl<'a> LineReader<'a> {
    /// Those of a text, of which none is read.
    pub(crate) fn new(alloc: Global, text: &'a [u8]) -> LineReader<'a>
        ensures { result ≡ filter has_byte (parts_of text.now) }
    {
        LineReader {
            lines: TextLines::new(text),
            passed: 0,
            reader: pieces_reader(alloc, text),
            source: Source::Open,
        }
    }

    /// Takes the next line: its pieces, or, where csv gives one alone, the line as it stands, or as
    /// many as begin with the sign of a comment.
    pub(crate) fn next(&mut self, pieces: &mut ByteRecord) -> Result<LineTaken<'a>, NoMemory>
        ensures read { IfOk result (TakesLine self.old self.new (fields_of pieces.new)) }
        ensures less { length self.new ≤ length self.old }
    {
        match self.source {
            Source::Open => {}
            Source::Over => return Ok(LineTaken::Nothing),
            Source::Refused => return Err(NoMemory),
        }
        match next_pieces(&mut self.reader, pieces) {
            Ok(true) => {
                if pieces.len() >= 2 {
                    self.passed += 1;
                    return Ok(LineTaken::Apart);
                }
                let line = self.lines.take_after(self.passed);
                self.passed = 0;
                Ok(line)
            }
            Ok(false) => {
                self.source = Source::Over;
                Ok(LineTaken::Nothing)
            }
            Err(error) => {
                self.source = Source::Refused;
                Err(error)
            }
        }
    }
}
