// Finding a byte.
ghost use Rattle.std.specs.Prelude.{◌≡◌, ◌==◌, ◌||◌, ◌≤◌, ◌+◌, ◌-◌, length};
ghost use Rattle.std.specs.List.{list_any, position_or_len};

// How many bytes are tested at a time. A test of so many has no branch, so it takes a few steps of
// the machine.
const WIDTH: usize = 16;

/// Where the byte stands first, or the length where it does not.
pub(crate) fn place_of_byte(text: &[u8], byte: u8) -> usize
    ensures place { result ≡ position_or_len (λ other. other == byte) text.now }
    ensures within { result ≤ length text.now }
{
    let mut rest = text;
    'pieces: while rest.len() >= WIDTH {
        let (front, behind) = rest.split_at(WIDTH);
        if has_byte(front, byte) {
            break;
        }
        rest = behind;
    }
    text.len() - rest.len() + byte_in(rest, byte)
}

// Whether the byte is among these.
fn has_byte(bytes: &[u8], byte: u8) -> bool
    ensures { result ≡ list_any (λ other. other == byte) bytes.now }
{
    let mut found = false;
    for other in bytes {
        found |= *other == byte;
    }
    found
}

// The same place, found byte by byte.
fn byte_in(text: &[u8], byte: u8) -> usize
    ensures place { result ≡ position_or_len (λ other. other == byte) text.now }
    ensures within { result ≤ length text.now }
{
    text.iter().take_while(|other| **other != byte).count()
}
