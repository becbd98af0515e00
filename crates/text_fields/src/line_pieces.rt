// The pieces of a line that is not read by csv, found where they stand, in no memory.
ghost use Rattle.std.specs.Prelude.{◌≡◌, [], length, slice_index_or};
ghost use Rattle.text_fields.specs.Rows.{pieces};

use crate::find::place_of_byte;

/// How many pieces a line has between its semicolons.
#[inline(never)]
pub(crate) fn count_pieces(line: &[u8]) -> usize
    ensures { result ≡ length (pieces line.now) }
{
    line.iter().filter(|byte| **byte == b';').count() + 1
}

/// The piece of a line at a place, and nothing past the last.
#[inline(never)]
pub(crate) fn piece_at(line: &[u8], index: usize) -> &[u8]
    ensures { result.now ≡ slice_index_or (pieces line.now) index [] }
{
    let mut rest = line;
    for _piece in 0..index {
        let end = place_of_byte(rest, b';');
        if end == rest.len() {
            return &[];
        }
        rest = &rest[end + 1..];
    }
    &rest[..place_of_byte(rest, b';')]
}
