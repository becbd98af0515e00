// Parts of a line, and of its fields.
ghost use Rattle.std.specs.Prelude.{◌≡◌, ◌≢◌, ◌==◌, ◌<◌, ◌∷◌, All, IfSome, filter, length, position};
ghost use Rattle.std.specs.Prelude.{false, true};
ghost use Rattle.std.specs.Prelude.{drop, not, reverse, take_while};
ghost use Rattle.std.specs.Option.{option_copied};
ghost use Rattle.std.specs.List.{find, list_all, prefix_len};
ghost use Rattle.std.specs.Str.Lines.{strip_carriage_return};
ghost use Rattle.text_fields.specs.Rows.{has_byte, is_blank, parts_left, parts_of, without_blanks};
ghost use Rattle.text_fields.specs.Rows.{without_quotes, before_comment};
ghost use Rattle.text_fields.specs.Told.{PassesComments, begins, given, returns};

use crate::find::place_of_byte;

/// The first part of a text, up to a line feed, and what comes after it where there is one.
pub(crate) fn first_part(text: &[u8]) -> (&[u8], Option<&[u8]>)
    ensures parts { parts_of text.now ≡ result.0.now ∷ parts_left (option_copied result.1) }
    ensures plain { All (λ byte. byte ≢ 10) result.0.now }
    ensures shorter { IfSome result.1 (λ rest. length rest.now < length text.now) }
{
    match line_feed(text) {
        None => (text, None),
        Some(end) => (&text[..end], Some(&text[end + 1..])),
    }
}

// The place of the first line feed.
fn line_feed(text: &[u8]) -> Option<usize>
    ensures { result ≡ position (λ byte. byte == 10) text.now }
{
    let place = place_of_byte(text, b'\n');
    if place < text.len() {
        Some(place)
    } else {
        None
    }
}

/// The line without one carriage return at its end.
pub(crate) fn without_return(line: &[u8]) -> &[u8]
    ensures { result.now ≡ strip_carriage_return line.now }
{
    match line {
        [front @ .., b'\r'] => front,
        _ => line,
    }
}

/// Whether a line begins with the sign of a comment.
#[tactic(auto, unfolding(crate::specs::Told::begins))]
pub(crate) fn begins(line: &[u8]) -> bool
    ensures { result ≡ begins line.now }
{
    matches!(line, [b'#', ..])
}

/// What is left of a text behind the lines at its front that begin with the sign of a comment, and
/// how many these are. Empty lines among them are passed over too.
pub(crate) fn behind_comments(text: Option<&[u8]>) -> (Option<&[u8]>, u64)
    ensures given { given true (parts_left (option_copied text.entry))
        ≡ given false (parts_left (option_copied result.0)) }
    ensures passed { PassesComments (filter has_byte (parts_left (option_copied text.entry)))
        (filter has_byte (parts_left (option_copied result.0))) result.1 }
{
    let mut left = text;
    let mut count = 0;
    'lines: while let Some(text) = left {
        let (line, rest) = first_part(text);
        if begins(line) {
            count += 1;
        } else if !line.is_empty() {
            return (left, count);
        }
        left = rest;
    }
    (None, count)
}

/// Whether the last byte of a piece is a carriage return.
pub(crate) fn returns(piece: &[u8]) -> bool
    ensures { result ≡ returns piece.now }
{
    matches!(piece, [.., b'\r'])
}

/// What stands before a comment.
pub(crate) fn before_comment(line: &[u8]) -> &[u8]
    ensures { result.now ≡ before_comment line.now }
{
    &line[..place_of_byte(line, b'#')]
}

// Whether the byte is a space or a tab.
fn is_blank(byte: u8) -> bool
    ensures { result ≡ is_blank byte }
{
    byte == b' ' || byte == b'\t'
}

/// Whether something but spaces and tabs stands before a comment.
pub(crate) fn has_row(line: &[u8]) -> bool
    ensures { result ≡ not (list_all is_blank (before_comment line.now)) }
{
    match first_told(line) {
        None => false,
        Some(byte) => byte != b'#',
    }
}

// The first byte that is neither a space nor a tab.
fn first_told(line: &[u8]) -> Option<u8>
    ensures { result ≡ find (λ byte. not (is_blank byte)) line.now }
{
    line.iter().copied().find(|byte| !is_blank(*byte))
}

/// The field without the blanks round it.
pub(crate) fn without_blanks(field: &[u8]) -> &[u8]
    ensures { result.now ≡ without_blanks field.now }
{
    let front = behind_blanks(field);
    &front[..front.len() - blanks_after(front)]
}

/// Whether a field has no byte but blanks.
pub(crate) fn is_empty_field(field: &[u8]) -> bool
    ensures { result ≡ (length (without_blanks field.now) == 0) }
{
    behind_blanks(field).is_empty()
}

// The field without the blanks in front.
fn behind_blanks(field: &[u8]) -> &[u8]
    ensures { result.now ≡ drop (prefix_len is_blank field.now) field.now }
{
    &field[blanks_before(field)..]
}

/// The field behind its first byte, where that is a space.
pub fn behind_space(field: &[u8]) -> &[u8]
    ensures { without_blanks result.now ≡ without_blanks field.now }
{
    match field {
        [b' ', rest @ ..] => rest,
        _ => field,
    }
}

// How many blanks the field begins with.
fn blanks_before(field: &[u8]) -> usize
    ensures { result ≡ length (take_while is_blank field.now) }
{
    field.iter().take_while(|byte| is_blank(**byte)).count()
}

// How many blanks the field ends with.
fn blanks_after(field: &[u8]) -> usize
    ensures { result ≡ length (take_while is_blank (reverse field.now)) }
{
    field
        .iter()
        .rev()
        .take_while(|byte| is_blank(**byte))
        .count()
}

/// The field without one pair of quotes round it.
pub(crate) fn without_quotes(field: &[u8]) -> &[u8]
    ensures { result.now ≡ without_quotes field.now }
{
    match field {
        [b'"', inside @ .., b'"'] => inside,
        _ => field,
    }
}
