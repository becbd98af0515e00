// Whether settings are those of a stage.
ghost use Rattle.std.specs.Prelude.{◌≡◌, ◌↔◌, map, slice_get, IsTrue};
ghost use Rattle.std.specs.List.{list_all};
ghost use Rattle.giv_files.specs.Keys.{stage_keys};
ghost use Rattle.giv_files.specs.Settings.{SettingsFit, is_allowed, is_uncrossed};

use crate::key::Key;
use crate::setting::Setting;
use crate::settings::Settings;
use crate::stage::Stage;

/// Whether the settings are exactly those of the stage, each with a value that it may have.
pub(crate) fn settings_fit(stage: Stage, settings: &Settings) -> bool
    ensures { IsTrue result ↔ SettingsFit stage settings.now }
{
    has_keys(settings.as_slice(), stage)
        && are_allowed(settings.as_slice())
        && are_uncrossed(settings)
}

// Whether the keys are those of the stage, in their order.
fn has_keys(settings: &[Setting], stage: Stage) -> bool
    ensures { IsTrue result ↔ (map (λ setting. setting.key) settings.now ≡ stage_keys stage) }
{
    let mut count = 0;
    for key in Key::all() {
        if stage.has_key(*key) {
            if !is_at(settings, count, *key) {
                return false;
            }
            count += 1;
        }
    }
    count == settings.len()
}

// Whether the key stands at the place.
fn is_at(settings: &[Setting], place: usize, key: Key) -> bool
    ensures { IsTrue result
        ↔ (slice_get (map (λ setting. setting.key) settings.now) place ≡ Some key) }
{
    match settings.get(place) {
        None => false,
        Some(setting) => setting.key.place() == key.place(),
    }
}

// Whether each value is one that its key may have.
fn are_allowed(settings: &[Setting]) -> bool
    ensures { result ≡ list_all is_allowed settings.now }
{
    settings
        .iter()
        .all(|setting| setting.key.allows(setting.value))
}

// Whether each value keeps the rule of its key.
fn are_uncrossed(settings: &Settings) -> bool
    ensures { result ≡ list_all (is_uncrossed settings.now) settings.now }
{
    settings
        .as_slice()
        .iter()
        .all(|setting| is_uncrossed(settings, setting))
}

// Whether the value keeps the rule of its key.
fn is_uncrossed(settings: &Settings, setting: &Setting) -> bool
    ensures { result ≡ is_uncrossed settings.now setting.now }
{
    match setting.key.cross_rule() {
        None => true,
        Some(rule) => rule.keeps(setting.value, settings.value(rule.other)),
    }
}
