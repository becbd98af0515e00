// The text of settings.
ghost use Rattle.std.specs.Prelude.{◌≡◌, ◌++◌, true, IfOk, IfSome, OnOk, option_map};
ghost use Rattle.std.specs.Fmt.{signed_decimal};
ghost use Rattle.std.specs.List.{list_all};
ghost use Rattle.giv_files.specs.Keys.{allows, key_kind};
ghost use Rattle.giv_files.specs.Settings.{is_allowed};
ghost use Rattle.giv_files.specs.SettingsText.{TellsSettings, key_line, settings_text};
ghost use Rattle.giv_files.specs.SettingsText.{value_text, wait_text};

use crate::key::Key;
use crate::key_kind::KeyKind;
use crate::settings::Settings;
use itoa::Buffer;
use plan_num::{NoMemory, Text, print_fixed};
use std::alloc::Global;

impl Settings {
    /// The settings as a text: a line `key; value` for each key that is there, in the order of
    /// keys, with each value as a config file has it. Among settings that fit one stage the text
    /// is that of no others.
    pub fn text(&self, alloc: Global) -> Result<Text, NoMemory>
        requires allowed { list_all is_allowed self.now ≡ true }
        ensures text { IfOk result (λ text. text ≡ settings_text self.now) }
        ensures tells { IfOk result (TellsSettings self.now) }
    {
        let mut bytes = Vec::new(alloc);
        for key in Key::all() {
            push_line(alloc, &mut bytes, *key, self.value(*key))?;
        }
        Ok(Text::from_vec(bytes))
    }
}

// Appends the line of a key, where it has a value.
fn push_line(
    alloc: Global,
    bytes: &mut Vec<u8>,
    key: Key,
    value: Option<i64>,
) -> Result<(), NoMemory>
    requires { IfSome value (λ value. allows key value ≡ true) }
    ensures { OnOk result (bytes.new.items ≡ bytes.old.items ++ key_line key value) }
{
    let Some(value) = value else {
        return Ok(());
    };
    bytes.extend_from_slice(key.name().as_bytes())?;
    bytes.extend_from_slice(b"; ")?;
    push_value(alloc, bytes, key, value)?;
    bytes.push(b'\n')?;
    Ok(())
}

// Appends the text of a value of a key.
#[tactic(auto, unfolding(crate::specs::SettingsText::value_text))]
fn push_value(alloc: Global, bytes: &mut Vec<u8>, key: Key, value: i64) -> Result<(), NoMemory>
    requires { allows key value ≡ true }
    ensures { OnOk result
        (bytes.new.items ≡ bytes.old.items ++ value_text (key_kind key) value) }
{
    match key.kind() {
        KeyKind::Whole { .. } => push_whole(bytes, value),
        KeyKind::Fixed { .. } => {
            let text = print_fixed(alloc, i128::from(value))?;
            bytes.extend_from_slice(text.as_bytes())?;
            Ok(())
        }
        KeyKind::Word { words } => {
            bytes.extend_from_slice(words.word(value as usize).as_bytes())?;
            Ok(())
        }
        KeyKind::Wait { .. } => push_wait(bytes, value),
    }
}

// Appends a whole number.
fn push_whole(bytes: &mut Vec<u8>, value: i64) -> Result<(), NoMemory>
    ensures { OnOk result (bytes.new.items ≡ bytes.old.items ++ signed_decimal value) }
{
    let mut buffer = Buffer::new();
    bytes.extend_from_slice(buffer.format(value).as_bytes())?;
    Ok(())
}

// Appends how long a change waits.
fn push_wait(bytes: &mut Vec<u8>, value: i64) -> Result<(), NoMemory>
    ensures { OnOk result (bytes.new.items ≡ bytes.old.items ++ wait_text value) }
{
    match value {
        -1 => bytes.extend_from_slice(b"all")?,
        0.. => push_whole(bytes, value)?,
        _ => bytes.extend_from_slice(b"none")?,
    }
    Ok(())
}
