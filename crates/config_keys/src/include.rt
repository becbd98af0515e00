// Names of included files.
ghost use Rattle.std.specs.Prelude.{◌≡◌, false, true, MatchOption, IfOk, string_bytes};
ghost use Rattle.std.specs.List.{list_all};
ghost use Rattle.config_keys.specs.Includes.{is_name_byte, has_two_points, is_inside, path_of};

use plan_num::NoMemory;
use std::alloc::Global;

// Whether the byte may stand in the name of an included file.
fn is_name_byte(byte: u8) -> bool
    ensures { result ≡ is_name_byte byte }
{
    byte.is_ascii_alphanumeric() || byte == b'_' || byte == b'-' || byte == b'.'
}

// Whether two points stand side by side.
fn has_two_points(name: &[u8]) -> bool
    ensures { result ≡ has_two_points name.now }
{
    name.iter()
        .zip(name.iter().skip(1))
        .any(|(left, right)| *left == b'.' && *right == b'.')
}

// Whether no other bytes stand in the name.
fn has_name_bytes(name: &[u8]) -> bool
    ensures { result ≡ list_all is_name_byte name.now }
{
    name.iter().all(|byte| is_name_byte(*byte))
}

// Whether the bytes name a config file of the same folder.
fn is_inside(name: &[u8]) -> bool
    ensures { result ≡ is_inside name.now }
{
    has_name_bytes(name) && !has_two_points(name) && name.ends_with(b".cnf")
}

/// The name as text, where it is that of a config file of the same folder.
pub(crate) fn inside(name: &[u8]) -> Option<&str>
    ensures { MatchOption result (is_inside name.now ≡ false)
        (λ text. (is_inside name.now ≡ true) × (text.now ≡ name.now)) }
{
    if !is_inside(name) {
        return None;
    }
    str::from_utf8(name).ok()
}

/// The path of an included file below the dataset's folder.
pub(crate) fn path_of(alloc: Global, name: &str) -> Result<String, NoMemory>
    ensures { IfOk result (λ path. string_bytes path ≡ path_of name.now) }
{
    Ok(format!(in alloc; "basis/{name}")?)
}
