// A row of a text, with its fields as they are written.
ghost use Rattle.std.specs.Prelude.{◌≡◌, ◌+◌, ◌<◌, ◌≤◌, ◌^◌, ◌∷◌, [], IfOk, IfSome, List, Ok, length, ℕ};
ghost use Rattle.std.specs.Prelude.{slice_index_or};
ghost use Rattle.csv.specs.Records.{fields_of};
ghost use Rattle.text_fields.specs.Rows.{cleaned};
ghost use Rattle.text_fields.specs.Told.{LineGives, pieces_of, unreturned};

use crate::line::{
    before_comment, has_row, is_empty_field, returns, without_blanks, without_quotes,
    without_return,
};
use crate::line_pieces::{count_pieces, piece_at};
use crate::line_reader::LineReader;
use crate::text_lines::LineTaken;
use csv::ByteRecord;
use plan_num::NoMemory;
use std::alloc::Global;
use std::marker::Model;

/// A row of a text, which is read in the place of the row before it. Contracts see it as its number
/// and the list of its fields. A line of which csv is not given all that it tells, and one of a
/// single field, is looked up where it stands.
pub struct TextRow<'a> {
    number: u64,
    stands: Stands<'a>,
    pieces: ByteRecord,
}

impl Drop for TextRow<'_> {
    fn drop(self) {
        let TextRow {
            number: _,
            stands: _,
            pieces: _,
        } = self;
    }
}

// Where the pieces of a row stand: as csv gives them, the last one perhaps with a carriage return at
// its end, or in what stands before a comment in a line.
#[derive(Clone, Copy)]
enum Stands<'a> {
    Apart,
    Returned,
    Told(&'a [u8]),
}

/// What a line that was read is: a row, or passed over, with how many lines are numbered then, or
/// there was none.
#[derive(Clone, Copy)]
pub(crate) enum LineRead {
    Row,
    Passed(u64),
    Nothing,
}

impl<'a> Model for TextRow<'a> {
    ghost use Rattle.csv.specs.Records.{fields_of};
    ghost use Rattle.text_fields.specs.Rows.{Row, cleaned};
    ghost use Rattle.text_fields.specs.Told.{pieces_of};

    ghost Value = { Row };

    ghost view = { λ row. record {
      number = row.number;
      fields = cleaned (pieces_of row.stands (fields_of row.pieces));
    } };
}

impl<'a> TextRow<'a> {
    /// Room for a row, before one is read.
    #[tactic(auto, unfolding(crate::specs::Rows::cleaned))]
    pub fn new(alloc: Global) -> TextRow<'a>
        ensures { result ≡ record { number = 0; fields = [] } }
    {
        TextRow {
            number: 0,
            stands: Stands::Apart,
            pieces: ByteRecord::new(alloc),
        }
    }

    /// Its number in the text, from 1.
    pub fn number(&self) -> u64
        ensures { result ≡ self.now.number }
    {
        self.number
    }

    /// How many fields there are.
    pub fn len(&self) -> usize
        ensures { result ≡ length self.now.fields }
    {
        cleaned_count(&self.stands, &self.pieces)
    }

    /// The field at a place.
    pub fn field(&self, index: usize) -> &[u8]
        requires { index < length self.now.fields }
        ensures { result.now ≡ slice_index_or self.now.fields index [] }
    {
        without_quotes(without_blanks(piece(&self.stands, &self.pieces, index)))
    }

    /// The pieces of which its fields are made, where they stand as csv gives them.
    pub fn apart(&self) -> Option<&ByteRecord>
        ensures { IfSome result (λ pieces. self.now.fields ≡ cleaned (fields_of pieces.now)) }
    {
        match self.stands {
            Stands::Apart => Some(&self.pieces),
            _ => None,
        }
    }

    /// Reads the next line after so many that were numbered, and its row in the place of the row
    /// before, where it has one.
    pub(crate) fn read_line(
        &mut self,
        number: u64,
        lines: &mut LineReader<'a>,
    ) -> Result<LineRead, NoMemory>
        requires { number + length lines.old < 2 ^ 64 }
        ensures gives { IfOk result (LineGives number lines.old lines.new self.new) }
        ensures less { length lines.new ≤ length lines.old }
    {
        match lines.next(&mut self.pieces)? {
            LineTaken::Apart => {
                self.number = number + 1;
                self.stands = standing(&self.pieces);
                Ok(LineRead::Row)
            }
            LineTaken::Stands(line) => Ok(self.take_line(number, line)),
            LineTaken::Comments(count) => Ok(LineRead::Passed(number + count)),
            LineTaken::Nothing => Ok(LineRead::Nothing),
        }
    }

    // Takes a line as it stands.
    #[inline(never)]
    fn take_line(&mut self, number: u64, line: &'a [u8]) -> LineRead
        requires { number + 1 < 2 ^ 64 }
        ensures { (more : List (List ℕ)) → LineGives number (line.now ∷ more) more self.new result }
    {
        let line = without_return(line);
        if line.is_empty() {
            return LineRead::Passed(number);
        }
        if !has_row(line) {
            return LineRead::Passed(number + 1);
        }
        self.number = number + 1;
        self.stands = Stands::Told(before_comment(line));
        LineRead::Row
    }
}

// How the pieces of a row stand that are read by csv.
fn standing<'a>(pieces: &ByteRecord) -> Stands<'a>
    requires { 2 ≤ length (fields_of pieces.now) }
    ensures { pieces_of result (fields_of pieces.now) ≡ unreturned (fields_of pieces.now) }
{
    if returns(pieces.get(pieces.len() - 1).unwrap_or(&[])) {
        Stands::Returned
    } else {
        Stands::Apart
    }
}

// The piece at a place.
fn piece<'a>(stands: &Stands<'a>, pieces: &'a ByteRecord, index: usize) -> &'a [u8]
    ensures { result.now
        ≡ slice_index_or (pieces_of stands.now (fields_of pieces.now)) index [] }
{
    match stands {
        Stands::Apart => pieces.get(index).unwrap_or(&[]),
        Stands::Returned => returned_piece(pieces, index),
        Stands::Told(line) => piece_at(line, index),
    }
}

// The piece at a place, where a carriage return ends the last.
fn returned_piece(pieces: &ByteRecord, index: usize) -> &[u8]
    ensures { result.now ≡ slice_index_or (unreturned (fields_of pieces.now)) index [] }
{
    match pieces.get(index) {
        None => &[],
        Some(piece) => {
            if index + 1 == pieces.len() {
                without_return(piece)
            } else {
                piece
            }
        }
    }
}

// How many pieces there are.
#[tactic(auto, using(crate::proofs::PlainRows::length_unreturned))]
fn piece_count(stands: &Stands<'_>, pieces: &ByteRecord) -> usize
    ensures { result ≡ length (pieces_of stands.now (fields_of pieces.now)) }
{
    match stands {
        Stands::Apart => pieces.len(),
        Stands::Returned => pieces.len(),
        Stands::Told(line) => count_pieces(line),
    }
}

// How many fields there are, without a last one that is empty.
fn cleaned_count(stands: &Stands<'_>, pieces: &ByteRecord) -> usize
    ensures { result
        ≡ length (cleaned (pieces_of stands.now (fields_of pieces.now))) }
{
    let count = piece_count(stands, pieces);
    if count >= 2 && is_empty_field(piece(stands, pieces, count - 1)) {
        count - 1
    } else {
        count
    }
}
