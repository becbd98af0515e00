// What csv is given of a text.
ghost use Rattle.std.specs.Prelude.{◌≡◌, ◌≢◌, ◌<◌, ◌≤◌, ◌++◌, ◌∷◌, ◌||◌, List, [], ℕ, All, Some, IsOk};
ghost use Rattle.std.specs.Prelude.{IfSome};
ghost use Rattle.std.specs.Prelude.{drop, false, get_or, length, min, take};
ghost use Rattle.std.specs.Option.{option_copied};
ghost use Rattle.std.specs.Io.{ReadsAtMost};
ghost use Rattle.std.specs.Io.KnownBytes.{ReadConsumes};
ghost use Rattle.text_fields.specs.Rows.{before_comment, parts_left, parts_of};
ghost use Rattle.text_fields.specs.Told.{given, is_odd, is_told};
ghost use Rattle.text_fields.specs.Handed.{Stops, fed, handed_left, unread};

use crate::find::place_of_byte;
use crate::line::{before_comment, begins, behind_comments, returns};
use std::io;
use std::io::Read;

// Lines have fewer bytes, or they are too long for csv.
const LONG: usize = 4_096;

/// What is left of what csv is given of a text: its lines as they stand, as many at a time as there
/// is room for, and of a line with a comment what stands before that. Where that is nothing, or
/// long, or has a carriage return at its end, the sign of a comment alone stands in its place.
#[derive(Drop)]
pub(crate) struct Handed<'a> {
    ready: &'a [u8],
    left: Option<&'a [u8]>,
}

impl<'a> Handed<'a> {
    /// What csv is given of a text. An empty line comes first, so that it finds no byte order mark.
    pub(crate) fn new(text: &'a [u8]) -> Handed<'a>
        ensures { handed_left result ≡ Some (fed ([] ∷ given false (parts_of text.now))) }
    {
        Handed {
            ready: b"\n",
            left: Some(text),
        }
    }

    // Makes the next lines ready where none is.
    fn advance(&mut self)
        ensures same { unread self.new ≡ unread self.old }
        ensures end { self.new.ready.now ≡ [] → unread self.new ≡ [] }
    {
        if self.ready.is_empty() {
            if let Some(text) = self.left {
                let (ready, left) = front_lines(text);
                self.ready = ready;
                self.left = left;
            }
        }
    }

    // Hands out as many bytes as there is room for, and returns how many these are.
    fn fill(&mut self, buffer: &mut [u8]) -> usize
        ensures bound { result ≤ length buffer.new }
        ensures given { unread self.old ≡ take result buffer.new ++ unread self.new }
        ensures end { 0 < length buffer.new → result ≡ 0 → unread self.new ≡ [] }
    {
        let mut filled = 0;
        'lines: while filled < buffer.len() {
            self.advance();
            if self.ready.is_empty() {
                return filled;
            }
            let count = copy_front(self.ready, &mut buffer[filled..]);
            self.ready = &self.ready[count..];
            filled += count;
        }
        filled
    }
}

// Copies as many bytes as both have, and returns how many.
fn copy_front(from: &[u8], to: &mut [u8]) -> usize
    ensures count { result ≡ min (length from.now) (length to.old) }
    ensures copied { to.new ≡ take result from.now ++ drop result to.old }
{
    let count = from.len().min(to.len());
    to[..count].copy_from_slice(&from[..count]);
    count
}

// What stands for the first lines of a text, and the text after them. It may be that the line feed
// after a line is left.
fn front_lines(text: &[u8]) -> (&[u8], Option<&[u8]>)
    ensures same { fed (given false (parts_of text.now))
        ≡ result.0.now ++ fed (given false (parts_left (option_copied result.1))) }
    ensures some { 0 < length result.0.now }
{
    let bare = bare_front(text);
    if bare.len() < LONG && bare.len() < text.len() && is_told(bare) {
        let comment = &text[bare.len()..];
        return (bare, Some(&comment[place_of_byte(comment, b'\n')..]));
    }
    match last_feed(bare) {
        Some(end) => (&text[..end + 1], Some(&text[end + 1..])),
        None => first_line(text),
    }
}

// What stands at the front of a text before the first sign of a comment, as far as it is not long.
fn bare_front(text: &[u8]) -> &[u8]
    ensures front { result.now ≡ take (length result.now) text.now }
    ensures short { length result.now ≤ 4096 }
    ensures bare { All (λ byte. byte ≢ 35) result.now }
    ensures comment { length result.now < 4096 → length result.now < length text.now
        → get_or text.now (length result.now) 0 ≡ 35 }
{
    before_comment(&text[..text.len().min(LONG)])
}

// Whether the last byte is part of what a line tells: neither a line feed, nor a carriage return
// that csv could take for one.
fn is_told(front: &[u8]) -> bool
    ensures { result ≡ is_told front.now }
{
    match front {
        [] => false,
        [.., last] => *last != b'\n' && *last != b'\r',
    }
}

// Where the last line feed stands.
fn last_feed(text: &[u8]) -> Option<usize>
    ensures within { IfSome result (λ end. end < length text.now) }
    ensures feed { IfSome result (λ end. get_or text.now end 0 ≡ 10) }
{
    let mut end = text.len();
    'bytes: while end > 0 {
        end -= 1;
        if text[end] == b'\n' {
            return Some(end);
        }
    }
    None
}

// What stands for the first line of a text, and the text after that.
fn first_line(text: &[u8]) -> (&[u8], Option<&[u8]>)
    ensures same { fed (given false (parts_of text.now))
        ≡ result.0.now ++ fed (given false (parts_left (option_copied result.1))) }
    ensures some { 0 < length result.0.now }
{
    let end = place_of_byte(text, b'\n');
    line_and_rest(&text[..end], &text[end..])
}

// What stands for a line, and what is left of the text after that. Lines that begin with the sign of
// a comment have one sign, and the line feed is handed out with it.
fn line_and_rest<'a>(line: &'a [u8], rest: &'a [u8]) -> (&'a [u8], Option<&'a [u8]>)
    requires plain { All (λ byte. byte ≢ 10) line.now }
    requires stops { Stops rest.now }
    ensures same { fed (given false (parts_of (line.now ++ rest.now)))
        ≡ result.0.now ++ fed (given false (parts_left (option_copied result.1))) }
    ensures some { 0 < length result.0.now }
{
    let after = behind_feed(rest);
    if line.is_empty() {
        return (b"\n", after);
    }
    if begins(line) {
        return (b"#\n", behind_comments(after).0);
    }
    let told = before_comment(line);
    if is_odd(line, told) {
        (b"#\n", after)
    } else {
        (told, Some(rest))
    }
}

// What is left of a text behind the line feed at its front.
fn behind_feed(text: &[u8]) -> Option<&[u8]>
    requires { Stops text.now }
    ensures { (line : List ℕ) → All (λ byte. byte ≢ 10) line
        → parts_of (line ++ text.now) ≡ line ∷ parts_left (option_copied result) }
{
    if text.is_empty() {
        None
    } else {
        Some(&text[1..])
    }
}

// Whether csv is not given what stands before a comment of a line.
#[tactic(auto, unfolding(crate::specs::Told::is_odd))]
fn is_odd(line: &[u8], told: &[u8]) -> bool
    requires { told.now ≡ before_comment line.now }
    ensures { result ≡ is_odd line.now }
{
    told.len() >= LONG || (told.len() < line.len() && (told.is_empty() || returns(told)))
}

impl Read for Handed<'_> {
    ghost use Rattle.text_fields.specs.Handed.{handed_left};

    ghost remaining = { handed_left };

    fn read(&mut self, buffer: &mut [u8]) -> io::Result<usize>
        ensures bound { ReadsAtMost result buffer.new }
        ensures bytes { ReadConsumes
            (handed_left self.old) (handed_left self.new) result buffer.new }
        ensures ok { IsOk result }
    {
        Ok(self.fill(buffer))
    }
}
