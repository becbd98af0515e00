// Values of keys, as fields spell them.
ghost use Rattle.std.specs.Prelude.{◌≡◌};
ghost use Rattle.std.specs.Option.{option_copied};
ghost use Rattle.config_keys.specs.Values.{own_value};

use giv_files::Key;
use plan_num::Text;

/// The allowed value of a key by what is said of it, or else its default.
#[tactic(auto, unfolding(crate::specs::Values::own_value))]
pub(crate) fn own_value(key: Key, said: Option<&Text>) -> Option<i64>
    ensures { result ≡ own_value key (option_copied said.entry) }
{
    let field = match said {
        None => return Some(key.default_value()),
        Some(text) => text.as_bytes(),
    };
    let value = key.kind().spelled_as(field)?;
    if key.allows(value) { Some(value) } else { None }
}
