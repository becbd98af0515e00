// Settings of a stage.
ghost use Rattle.std.specs.Prelude.{◌≡◌, ◌∷◌, ◌++◌, [], pos, IsTrue, OnOk, OnErr};
ghost use Rattle.giv_files.specs.declared.stage.Stage.{Stage};
ghost use Rattle.giv_files.specs.Keys.{allows, has_key};
ghost use Rattle.giv_files.specs.Settings.{SettingsFit, value_of, amount};

use crate::key::Key;
use crate::setting::Setting;
use plan_num::NoMemory;
use std::alloc::Global;
use std::marker::Model;

/// Keys with their values, in the order in which they were pushed. Contracts see it as the list of them.
#[derive(Debug, Drop)]
pub struct Settings {
    settings: Vec<Setting>,
}

impl Model for Settings {
    ghost use Rattle.std.specs.Prelude.{List};
    ghost use Rattle.giv_files.specs.declared.setting.Setting.{Setting};

    ghost Value = { List Setting };

    ghost view = { λ s. s.settings.items };
}

impl Settings {
    /// No setting.
    pub fn new(alloc: Global) -> Settings
        ensures { result ≡ [] }
    {
        Settings {
            settings: Vec::new(alloc),
        }
    }

    /// One setting more.
    pub fn push(&mut self, key: Key, value: i64) -> Result<(), NoMemory>
        ensures ok { OnOk result (self.new ≡ self.old ++ record { key = key; value = value } ∷ []) }
        ensures err { OnErr result (self.new ≡ self.old) }
    {
        self.settings.push(Setting { key, value })?;
        Ok(())
    }

    /// The value of a key, where the key is there.
    pub fn value(&self, key: Key) -> Option<i64>
        ensures { result ≡ value_of self.now key }
    {
        value_among(&self.settings, key)
    }

    /// The value of a key without its sign, which is that of a whole or fixed number; 0 where the key
    /// is not there. Among settings that fit a stage, each key of the stage has a value in its range.
    pub fn amount(&self, key: Key) -> u64
        ensures amount { result ≡ amount self.now key }
        ensures range { (stage : Stage) → SettingsFit stage self.now → IsTrue (has_key stage key)
            → IsTrue (allows key (pos result)) }
    {
        self.value(key).unwrap_or(0).unsigned_abs()
    }

    /// All of them, in order.
    pub fn as_slice(&self) -> &[Setting]
        ensures { result.now ≡ self.now }
    {
        self.settings.as_slice()
    }
}

// The value of the first setting with the key.
fn value_among(settings: &[Setting], key: Key) -> Option<i64>
    ensures { result ≡ value_of settings.now key }
{
    settings
        .iter()
        .find(|setting| setting.key.place() == key.place())
        .map(|setting| setting.value)
}
