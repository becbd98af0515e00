// The two ends of an entry.
ghost use Rattle.std.specs.Prelude.{◌≡◌, IfOk};
ghost use Rattle.giv_files.specs.Settings.{Fits};
ghost use Rattle.stage_keep.specs.Entries.{entry_front, last_line};

use crate::block::push_block;
use crate::given::Given;
use crate::heads::first_line;
use plan_num::{NoMemory, Text};
use std::alloc::Global;

/// The front of the entry of what a stage is given, whatever was made of it: its first line, and
/// the settings.
pub fn entry_front(alloc: Global, given: &Given<'_>) -> Result<Text, NoMemory>
    requires { Fits given.now }
    ensures { IfOk result (λ text. text ≡ entry_front given.now) }
{
    let mut bytes = Vec::new(alloc);
    bytes.extend_from_slice(first_line(alloc, given.stage())?.as_bytes())?;
    let settings = given.settings().text(alloc)?;
    push_block(&mut bytes, b"settings", settings.as_bytes())?;
    Ok(Text::from_vec(bytes))
}

/// The last line of each entry.
pub fn last_line() -> &'static [u8]
    ensures { result.now ≡ last_line }
{
    b"end\n".as_slice()
}
