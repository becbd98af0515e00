// Texts that may be lent.
ghost use Rattle.std.specs.Prelude.{◌≡◌, IfOk};

use plan_num::{NoMemory, Text};
use std::alloc::Global;
use std::marker::Model;

/// A text that was read for its holder, or one that is lent and not copied. Contracts see it as the
/// list of its bytes.
#[derive(Drop)]
pub struct LentText<'a> {
    held: Held<'a>,
}

// Where the bytes stand.
#[derive(Drop)]
pub(crate) enum Held<'a> {
    Own(Text),
    Lent(&'a [u8]),
}

impl<'a> Model for LentText<'a> {
    ghost use Rattle.std.specs.Prelude.{List, ℕ};
    ghost use Rattle.stage_keep.specs.Lent.{held_bytes};

    ghost Value = { List ℕ };

    ghost view = { λ t. held_bytes t.held };
}

impl<'a> LentText<'a> {
    /// A text that was read.
    pub fn own(text: Text) -> LentText<'a>
        ensures { result ≡ text }
    {
        LentText {
            held: Held::Own(text),
        }
    }

    /// A text that is lent.
    pub fn lent(bytes: &'a [u8]) -> LentText<'a>
        ensures { result ≡ bytes.now }
    {
        LentText {
            held: Held::Lent(bytes),
        }
    }

    /// The bytes.
    pub fn as_bytes(&self) -> &[u8]
        ensures { result.now ≡ self.now }
    {
        match &self.held {
            Held::Own(text) => text.as_bytes(),
            Held::Lent(bytes) => bytes,
        }
    }

    /// The text, which is copied where it is lent.
    pub fn into_text(self, alloc: Global) -> Result<Text, NoMemory>
        ensures { IfOk result (λ text. text ≡ self.entry) }
    {
        match self.held {
            Held::Own(text) => Ok(text),
            Held::Lent(bytes) => Text::copy(alloc, bytes),
        }
    }
}
