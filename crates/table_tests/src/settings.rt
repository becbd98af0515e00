// Settings, bundles, and the texts of settings.
use crate::script::{cases, cut, number, same};
use giv_files::{Bundle, Key, Settings, Stage};
use std::alloc::Global;
use std::process::Abort;
use std::test::Fail;

/// All keys, of which nothing is promised.
pub(crate) fn keys() -> &'static [Key] {
    Key::all()
}

/// All stages, of which nothing is promised.
pub(crate) fn stages() -> &'static [Stage] {
    Stage::all()
}

/// The key of a name.
pub(crate) fn key_named(name: &str) -> Result<Key, Fail> {
    for key in keys() {
        if key.name() == name {
            return Ok(*key);
        }
    }
    Err(Fail::from("no key"))
}

// The stage of a name.
fn stage_named(name: &str) -> Result<Stage, Fail> {
    for stage in stages() {
        if stage.name() == name {
            return Ok(*stage);
        }
    }
    Err(Fail::from("no stage"))
}

// The settings of a text, each as `key value;`.
fn settings_of(alloc: Global, text: &str) -> Result<Settings, Fail> {
    let mut settings = Settings::new(alloc);
    for setting in &cases(alloc, text, ';')? {
        let (name, value) = cut(*setting, ' ');
        settings.push(key_named(name)?, number(value)?)?;
    }
    Ok(settings)
}

// A bundle of a stage with so many inputs.
fn bundle_of(alloc: Global, stage: Stage, text: &str, inputs: usize) -> Result<Bundle, Fail> {
    let mut bundle = Bundle::new(alloc, stage, settings_of(alloc, text)?);
    for _input in 0..inputs {
        bundle.push_input(b"text")?;
    }
    Ok(bundle)
}

// Whether a bundle of the stage of roll-out fits, how many inputs it has, and its settings.
const BUNDLES: &str = "true|3|period_length 20;DM_earliest_time 0;DM_latest_time 20;~\
    true|3|period_length 20;DM_earliest_time 20;DM_latest_time 20;~\
    false|3|period_length 20;DM_earliest_time 21;DM_latest_time 20;~\
    false|3|period_length 721;DM_earliest_time 0;DM_latest_time 20;~\
    false|3|period_length 20;DM_latest_time 20;DM_earliest_time 0;~\
    false|3|period_length 20;DM_earliest_time 0;~\
    false|2|period_length 20;DM_earliest_time 0;DM_latest_time 20;~";

// Looks at one of them.
fn fits_as_told(rt: &(impl AllocGlobal + Abort), case: &str) -> Result<(), Fail> {
    let (fits, rest) = cut(case, '|');
    let (inputs, settings) = cut(rest, '|');
    let inputs = count_of(inputs);
    let bundle = bundle_of(rt.alloc(), Stage::Rollout, settings, inputs)?;
    assert_eq!(rt; bundle.inputs(), inputs);
    same(rt, fit_told(&bundle), fits, case);
    Ok(())
}

fn count_of(inputs: &str) -> usize {
    inputs.parse::<usize>().unwrap_or(0)
}

// Whether a bundle fits, in a word.
fn fit_told(bundle: &Bundle) -> &'static str {
    if bundle.fits() { "true" } else { "false" }
}

#[test]
fn fitting_bundles(rt: HostRuntime) -> Result<(), Fail> {
    let bundles = cases(rt.alloc(), BUNDLES, '~')?;
    for case in &bundles {
        fits_as_told(&rt, *case)?;
    }
    assert_eq!(rt; bundles.len(), 7);
    Ok(())
}

#[test]
fn words_as_values(rt: HostRuntime) -> Result<(), Fail> {
    for (value, want) in [
        (-3, false),
        (-2, true),
        (-1, true),
        (10_000, true),
        (10_001, false),
    ] {
        assert_eq!(rt; Key::DmWait.allows(value), want);
    }
    let settings = settings_of(rt.alloc(), "dm_wait -1;")?;
    assert_eq!(rt; settings.value(Key::DmWait), Some(-1));
    assert_eq!(rt; settings.value(Key::LoadSource), None);
    Ok(())
}

// A stage, its settings, and their text.
const TEXTS: &str = "load|load_source 0;gen_passengers_per_vehicle 70;load_spread 0;|\
    load_source; od\ngen_passengers_per_vehicle; 70\nload_spread; 0\n~\
    load|load_source 1;gen_passengers_per_vehicle 1;load_spread 1000;|\
    load_source; file\ngen_passengers_per_vehicle; 1\nload_spread; 1000\n~\
    vehicles|vs_turn_over_time 5;vs_vehicle_costs 100000000;vs_empty_costs 1500000;|\
    vs_turn_over_time; 5\nvs_vehicle_costs; 100\nvs_empty_costs; 1.5\n~\
    disposition|vs_turn_over_time 0;dm_wait -1;|vs_turn_over_time; 0\ndm_wait; all\n~\
    disposition|vs_turn_over_time 0;dm_wait -2;|vs_turn_over_time; 0\ndm_wait; none\n~\
    disposition|vs_turn_over_time 0;dm_wait 3;|vs_turn_over_time; 0\ndm_wait; 3\n~";

// The text of the settings of a bundle, where it fits.
fn text_told(alloc: Global, bundle: &Bundle) -> Result<String, Fail> {
    if !bundle.fits() {
        return Err(Fail::from("no fit"));
    }
    let text = bundle.settings().text(alloc)?;
    Ok(String::from_utf8_lossy(alloc, text.as_bytes())?)
}

// Looks at one of them.
fn has_text(rt: &(impl AllocGlobal + Abort), case: &str) -> Result<(), Fail> {
    let (stage, rest) = cut(case, '|');
    let (settings, wanted) = cut(rest, '|');
    let stage = stage_named(stage)?;
    let bundle = bundle_of(rt.alloc(), stage, settings, stage.inputs().len())?;
    let told = text_told(rt.alloc(), &bundle)?;
    same(rt, told.as_str(), wanted, case);
    Ok(())
}

#[test]
fn settings_as_texts(rt: HostRuntime) -> Result<(), Fail> {
    let texts = cases(rt.alloc(), TEXTS, '~')?;
    for case in &texts {
        has_text(&rt, *case)?;
    }
    assert_eq!(rt; texts.len(), 6);
    Ok(())
}
