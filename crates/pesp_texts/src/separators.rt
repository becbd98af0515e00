// What stands between the fields of a text.
ghost use Rattle.std.specs.Prelude.{◌≡◌, map};
ghost use Rattle.pesp_texts.specs.Texts.{semicolon_for};

use crate::cells::rows_of;
use crate::fault::TextStop;
use std::alloc::Global;
use text_fields::TextRow;

/// Puts semicolons in the place of the commas or tabs of a text, where its first row has one of
/// these and no semicolon.
pub fn with_semicolons(alloc: Global, text: &mut [u8]) -> Result<(), TextStop> {
    if let Some(separator) = separator_of(alloc, text)? {
        replace(text, separator);
    }
    Ok(())
}

// The comma or the tab, where one of these separates the fields of the first row.
fn separator_of(alloc: Global, text: &[u8]) -> Result<Option<u8>, TextStop> {
    let mut rows = rows_of(alloc, text)?;
    let mut row = TextRow::new(alloc);
    if !rows.next_row(&mut row)? || row.len() != 1 {
        return Ok(None);
    }
    Ok(separator_in(row.field(0)))
}

// The comma in a field, or the tab where it has no comma.
fn separator_in(field: &[u8]) -> Option<u8> {
    if field.contains(&b',') {
        Some(b',')
    } else if field.contains(&b'\t') {
        Some(b'\t')
    } else {
        None
    }
}

// Puts semicolons in the place of a byte.
fn replace(text: &mut [u8], separator: u8)
    ensures { text.new ≡ map (semicolon_for separator) text.old }
{
    for place in 0..text.len() {
        if text[place] == separator {
            text[place] = b';';
        }
    }
}
