// Texts of bytes.
ghost use Rattle.std.specs.Prelude.{◌≡◌, ◌≤◌, IfOk, drop, length};

use crate::memory::NoMemory;
use std::alloc::Global;
use std::marker::Model;

/// A text of any bytes. Contracts see it as the list of them. They may stand after others that were
/// read with them.
#[derive(Debug, Drop)]
pub struct Text {
    bytes: Vec<u8>,
    start: usize,
}

impl Model for Text {
    ghost use Rattle.std.specs.Prelude.{◌≤◌, List, ℕ, drop, length};

    ghost Value = { List ℕ };

    ghost view = { λ t. drop t.start t.bytes.items };

    ghost invariant = { λ t. t.start ≤ length t.bytes.items };
}

impl Text {
    /// A text with the same bytes.
    pub fn copy(alloc: Global, bytes: &[u8]) -> Result<Text, NoMemory>
        ensures { IfOk result (λ text. text ≡ bytes.now) }
    {
        Ok(Text {
            bytes: Vec::from_slice(alloc, bytes)?,
            start: 0,
        })
    }

    /// A text of bytes that are there already. It takes no memory.
    pub fn from_vec(bytes: Vec<u8>) -> Text
        ensures { result ≡ bytes.items }
    {
        Text { bytes, start: 0 }
    }

    /// A text of the bytes from a place on, which are there already. It takes no memory, and none
    /// of them is moved.
    pub fn behind(bytes: Vec<u8>, start: usize) -> Text
        requires { start ≤ length bytes.items }
        ensures { result ≡ drop start bytes.items }
    {
        Text { bytes, start }
    }

    /// The bytes.
    pub fn as_bytes(&self) -> &[u8]
        ensures { result.now ≡ self.now }
    {
        &self.bytes[self.start..]
    }
}
