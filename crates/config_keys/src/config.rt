// The settings of a dataset.
ghost use Rattle.std.specs.Prelude.{◌≡◌, ◌∷◌, ◌++◌, [], true, IfOk, OnOk};
ghost use Rattle.giv_files.specs.CrossRules.{keeps_rule};
ghost use Rattle.giv_files.specs.Keys.{allows};
ghost use Rattle.giv_files.specs.Settings.{SettingsFit};
ghost use Rattle.config_keys.specs.ReadSoFar.{said_of};
ghost use Rattle.config_keys.specs.Values.{good_value, own_in};
ghost use Rattle.config_keys.specs.Config.{value_at, setting_at, part_of, last_stage_of, SettleGives};

use crate::config_end::ConfigEnd;
use crate::config_fault::ConfigFault;
use crate::reading::Reading;
use crate::value::own_value;
use giv_files::{Key, Settings, Stage};
use plan_num::NoMemory;
use std::alloc::Global;
use std::marker::Model;

/// The settings of a dataset: an allowed value for each key. Contracts see them as the list of the values, in
/// the order of keys.
#[derive(Debug, Drop)]
pub struct Config {
    values: Vec<i64>,
}

impl Model for Config {
    ghost use Rattle.std.specs.Prelude.{List, ℤ};
    ghost use Rattle.config_keys.specs.Config.{AreSettings};

    ghost Value = { List ℤ };

    ghost view = { λ c. c.values.items };

    ghost invariant = { λ c. AreSettings c.values.items };
}

impl Config {
    /// The settings by what was said last of each key, or the first key whose value is bad.
    pub(crate) fn settle(alloc: Global, reading: &Reading) -> Result<Config, ConfigEnd>
        ensures { SettleGives (said_of reading.now) result }
    {
        let mut values = Vec::new(alloc);
        for key in Key::all() {
            match good_value(reading, *key) {
                None => return Err(ConfigEnd::Refused(ConfigFault::BadValue { key: *key })),
                Some(value) => values.push(value)?,
            }
        }
        Ok(Config { values })
    }

    /// The value of a key. A fixed number is in millionths, a word is its place from 0, `all` is -1 and `none` is -2.
    pub fn value(&self, key: Key) -> i64
        ensures value { result ≡ value_at self.now key }
        ensures allowed { allows key result ≡ true }
        ensures rule { keeps_rule (λ other. Some (value_at self.now other)) key result ≡ true }
    {
        self.values[key.place()]
    }

    /// The last stage that is to run.
    pub fn last_stage(&self) -> Stage
        ensures { result ≡ last_stage_of self.now }
    {
        Stage::places()[self.value(Key::LastStage) as usize]
    }

    /// The settings of a stage: its keys in their order, with their values.
    pub fn stage_settings(&self, alloc: Global, stage: Stage) -> Result<Settings, NoMemory>
        ensures settings { IfOk result (λ settings. settings ≡ part_of self.now stage) }
        ensures fits { IfOk result (λ settings. SettingsFit stage settings) }
    {
        // A read of a field, so that what holds of all values is known.
        let _ = &self.values;
        let mut settings = Settings::new(alloc);
        for key in Key::all() {
            if stage.has_key(*key) {
                self.push_to(&mut settings, *key)?;
            }
        }
        Ok(settings)
    }

    // Appends a key with its value.
    fn push_to(&self, settings: &mut Settings, key: Key) -> Result<(), NoMemory>
        ensures { OnOk result (settings.new ≡ settings.old ++ setting_at self.now key ∷ []) }
    {
        settings.push(key, self.value(key))
    }
}

// The value of a key, where it is allowed and keeps the rule of the key.
#[tactic(auto, unfolding(crate::specs::Values::good_value))]
fn good_value(reading: &Reading, key: Key) -> Option<i64>
    ensures { result ≡ good_value (said_of reading.now) key }
{
    let value = own_value(key, reading.said(key))?;
    if keeps_rule(reading, key, value) {
        Some(value)
    } else {
        None
    }
}

// Whether a value keeps the rule of its key.
fn keeps_rule(reading: &Reading, key: Key, value: i64) -> bool
    ensures { result ≡ keeps_rule (own_in (said_of reading.now)) key value }
{
    match key.cross_rule() {
        None => true,
        Some(rule) => rule.keeps(value, own_value(rule.other, reading.said(rule.other))),
    }
}
