// The rows of the table of keys.
ghost use Rattle.std.specs.Prelude.{◌≡◌};
ghost use Rattle.giv_files.specs.declared.key_kind.KeyKind.TheVariants as kinds;
ghost use Rattle.giv_files.specs.Keys.{whole, fixed};

use crate::key_kind::KeyKind;
use crate::key_words::KeyWords;
use crate::stage::Stage;

/// What is known of a key: its name in config files, what its value may be, its value where no file
/// gives one, and the stages that have it.
#[derive(Clone, Copy)]
pub(crate) struct KeyRow {
    pub name: &'static str,
    pub kind: KeyKind,
    pub default_value: i64,
    pub stages: &'static [Stage],
}

/// A row.
pub(crate) fn row(
    name: &'static str,
    kind: KeyKind,
    default_value: i64,
    stages: &'static [Stage],
) -> KeyRow
    ensures name { result.name.now ≡ name.entry.now }
    ensures kind { result.kind ≡ kind }
    ensures default { result.default_value ≡ default_value }
    ensures stages { result.stages.now ≡ stages.entry.now }
{
    KeyRow {
        name,
        kind,
        default_value,
        stages,
    }
}

/// A whole number in a range.
pub(crate) fn whole(min: u32, max: u32) -> KeyKind
    ensures { result ≡ whole min max }
{
    KeyKind::Whole {
        min: i64::from(min),
        max: i64::from(max),
    }
}

/// A number from 0 on, with a limit in units.
pub(crate) fn fixed(max: u32) -> KeyKind
    ensures { result ≡ fixed max }
{
    KeyKind::Fixed {
        min: 0,
        max: i64::from(max) * 1_000_000,
    }
}

/// A word of a table.
pub(crate) fn word(words: KeyWords) -> KeyKind
    ensures { result ≡ kinds.Word words }
{
    KeyKind::Word { words }
}
