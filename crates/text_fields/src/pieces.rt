// The pieces of the lines of a text, as csv splits them.
ghost use Rattle.std.specs.Prelude.{◌≡◌, ◌∷◌, [], List, IfOk, MatchBool, false, filter, ℕ};
ghost use Rattle.csv.specs.Records.{fields_of};
ghost use Rattle.text_fields.specs.Rows.{has_byte, parts_of};
ghost use Rattle.text_fields.specs.Told.{given};
ghost use Rattle.text_fields.specs.Handed.{Awaits, ReadsLine};

use crate::handed::Handed;
use csv::{ByteRecord, Reader, ReaderBuilder, Terminator};
use plan_num::NoMemory;
use std::alloc::Global;

/// A reader of the lines of a text.
pub(crate) fn pieces_reader(alloc: Global, text: &[u8]) -> Reader<Handed<'_>>
    ensures { Awaits result (given false (filter has_byte (parts_of text.now))) }
{
    ReaderBuilder::new()
        .delimiter(b';')
        .quoting(false)
        .has_headers(false)
        .flexible(true)
        .terminator(Terminator::Any(b'\n'))
        .from_reader(alloc, Handed::new(text))
}

/// Reads the pieces of the next line, and says whether there was one.
pub(crate) fn next_pieces(
    reader: &mut Reader<Handed<'_>>,
    row: &mut ByteRecord,
) -> Result<bool, NoMemory>
    ensures { (lines : List (List ℕ)) → Awaits reader.old lines → IfOk result (λ found.
        MatchBool found (ReadsLine lines reader.new (fields_of row.new)) (lines ≡ [])) }
{
    match reader.read_byte_record(row) {
        Ok(found) => Ok(found),
        Err(_) => Err(NoMemory),
    }
}
