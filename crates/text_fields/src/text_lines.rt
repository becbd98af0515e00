// The lines of a text, as they stand.
ghost use Rattle.std.specs.Prelude.{◌≡◌, ◌+◌, ◌<◌, ◌≤◌, ◌^◌, ◌∷◌, [], drop, false, filter, length, true};
ghost use Rattle.std.specs.Prelude.{MatchOption, slice_get};
ghost use Rattle.std.specs.Option.{option_copied};
ghost use Rattle.text_fields.specs.Rows.{has_byte, parts_of};
ghost use Rattle.text_fields.specs.Told.{PassesComments, TakesLine, given, given_after};

use crate::line::{begins, behind_comments, first_part};
use std::marker::Model;

/// How the next line of a text is taken: csv gives its pieces, or it is at hand as it stands, or so
/// many are passed over that begin with the sign of a comment, or there was none.
#[derive(Clone, Copy)]
pub(crate) enum LineTaken<'a> {
    Apart,
    Stands(&'a [u8]),
    Comments(u64),
    Nothing,
}

/// The lines of a text that have a byte. Contracts see those that are left.
#[derive(Drop)]
pub(crate) struct TextLines<'a> {
    left: Option<&'a [u8]>,
}

impl<'a> Model for TextLines<'a> {
    ghost use Rattle.std.specs.Prelude.{List, ℕ, filter};
    ghost use Rattle.std.specs.Option.{option_copied};
    ghost use Rattle.text_fields.specs.Rows.{has_byte, parts_left};

    ghost Value = { List (List ℕ) };

    ghost view = { λ lines. filter has_byte (parts_left (option_copied lines.left)) };
}

impl<'a> TextLines<'a> {
    /// Those of a text.
    pub(crate) fn new(text: &'a [u8]) -> TextLines<'a>
        ensures { result ≡ filter has_byte (parts_of text.now) }
    {
        TextLines { left: Some(text) }
    }

    /// The next one.
    pub(crate) fn next(&mut self) -> Option<&'a [u8]>
        ensures { MatchOption result ((self.old ≡ []) × (self.new ≡ []))
            (λ line. self.old ≡ line.now ∷ self.new) }
    {
        'lines: while let Some(text) = self.left {
            let (line, rest) = first_part(text);
            self.left = rest;
            if !line.is_empty() {
                return Some(line);
            }
        }
        None
    }

    /// The next one after so many others.
    pub(crate) fn skip(&mut self, count: u64) -> Option<&'a [u8]>
        ensures line { option_copied result ≡ slice_get self.old count }
        ensures left { self.new ≡ drop (count + 1) self.old }
    {
        for _line in 0..count {
            self.next();
        }
        self.next()
    }

    /// Passes over the lines at the front that begin with the sign of a comment, and returns how
    /// many these are.
    pub(crate) fn pass_comments(&mut self) -> u64
        ensures given { given true self.old ≡ given false self.new }
        ensures passed { PassesComments self.old self.new result }
    {
        let (left, count) = behind_comments(self.left);
        self.left = left;
        count
    }

    /// Takes the next one after so many others: as it stands, or, where it begins with the sign of
    /// a comment, with those after it that begin so too.
    #[inline(never)]
    pub(crate) fn take_after(&mut self, count: u64) -> LineTaken<'a>
        requires there { count < length self.old }
        requires few { length self.old < 2 ^ 64 }
        ensures given { given_after (drop count self.old) ≡ given false self.new }
        ensures less { length self.new ≤ length (drop count self.old) }
        ensures taken { TakesLine (drop count self.old) self.new [] result }
    {
        let line = self.skip(count).unwrap_or(&[]);
        if begins(line) {
            LineTaken::Comments(self.pass_comments() + 1)
        } else {
            LineTaken::Stands(line)
        }
    }
}
