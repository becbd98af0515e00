// The keys as the users' page has them.
use crate::script::same;
use crate::settings::{keys, stages};
use giv_files::{Bound, Key, KeyKind, KeyWords};
use std::alloc::Global;
use std::test::Fail;

// What the values of a kind may be.
fn kind_text(alloc: Global, kind: KeyKind) -> Result<String, Fail> {
    Ok(match kind {
        KeyKind::Word {
            words: KeyWords::Stages,
        } => format!(in alloc; "a stage")?,
        KeyKind::Word {
            words: KeyWords::LoadSources,
        } => format!(in alloc; "`od` or `file`")?,
        KeyKind::Word {
            words: KeyWords::NoOrYes,
        } => format!(in alloc; "`no` or `yes`")?,
        KeyKind::Whole { min, max } => format!(in alloc; "whole {min} to {max}")?,
        KeyKind::Fixed { min, max } => {
            format!(in alloc; "fixed {} to {}", min / 1_000_000, max / 1_000_000)?
        }
        KeyKind::Wait { max } => format!(in alloc; "whole 0 to {max}, or `all` or `none`")?,
    })
}

// The rule that binds the value of a key to another one.
fn rule_text(alloc: Global, key: Key) -> Result<String, Fail> {
    let Some(rule) = key.cross_rule() else {
        return Ok(String::new(alloc));
    };
    let bound = match rule.bound {
        Bound::NotBelow => "not below",
        Bound::TwiceAtMost => "at most half of",
    };
    Ok(format!(in alloc; ", {bound} `{}`", rule.other.name())?)
}

// The default of a key.
fn default_text(alloc: Global, key: Key) -> Result<String, Fail> {
    let value = key.default_value();
    Ok(match key.kind() {
        KeyKind::Word {
            words: KeyWords::Stages,
        } => stage_text(alloc, value)?,
        KeyKind::Word {
            words: KeyWords::LoadSources,
        } => String::from_str(alloc, if value == 0 { "od" } else { "file" })?,
        KeyKind::Word {
            words: KeyWords::NoOrYes,
        } => String::from_str(alloc, if value == 0 { "no" } else { "yes" })?,
        KeyKind::Fixed { min: _, max: _ } => format!(in alloc; "{}", value / 1_000_000)?,
        KeyKind::Whole { min: _, max: _ } | KeyKind::Wait { max: _ } => {
            format!(in alloc; "{value}")?
        }
    })
}

// The stage at a place.
fn stage_text(alloc: Global, place: i64) -> Result<String, Fail> {
    let place = usize::try_from(place).ok().ok_or("no place")?;
    let stage = stages().get(place).ok_or("no stage")?;
    Ok(String::from_str(alloc, stage.name())?)
}

// The stages that have a key.
fn stages_text(alloc: Global, key: Key) -> Result<String, Fail> {
    let mut text = String::new(alloc);
    for stage in stages() {
        if stage.has_key(key) {
            text.push_str(if text.is_empty() { "" } else { ", " })?;
            text.push_str(stage.name())?;
        }
    }
    Ok(text)
}

// Appends the row of a key.
fn push_row(alloc: Global, text: &mut String, key: Key) -> Result<(), Fail> {
    let name = key.name();
    let kind = kind_text(alloc, key.kind())?;
    let rule = rule_text(alloc, key)?;
    let default = default_text(alloc, key)?;
    let stages = stages_text(alloc, key)?;
    let gap = if stages.is_empty() { "" } else { " " };
    let row = format!(in alloc; "| `{name}` | {kind}{rule} | {default} |{gap}{stages} |\n")?;
    text.push_str(row.as_str())?;
    Ok(())
}

const ROWS: &str = "| `last_stage` | a stage | statistic | |\n\
    | `load_source` | `od` or `file` | od | load |\n\
    | `gen_passengers_per_vehicle` | whole 1 to 100000 | 70 | load |\n\
    | `load_spread` | whole 0 to 1000 | 3 | load |\n\
    | `lpool_costs_fixed` | fixed 0 to 1000000 | 10 | cost |\n\
    | `lpool_costs_length` | fixed 0 to 10000 | 1 | cost |\n\
    | `lpool_costs_edges` | fixed 0 to 1000000 | 0 | cost |\n\
    | `concept_budget` | whole 1 to 20000 | 5000 | concept |\n\
    | `period_length` | whole 1 to 720 | 60 | ean, timetable, rollout, statistic, \
    pinned-timetable |\n\
    | `ean_default_minimal_waiting_time` | whole 0 to 10000 | 1 | ean |\n\
    | `ean_default_maximal_waiting_time` | whole 0 to 10000, \
    not below `ean_default_minimal_waiting_time` | 3 | ean |\n\
    | `ean_default_minimal_change_time` | whole 0 to 10000 | 3 | ean |\n\
    | `ean_default_maximal_change_time` | whole 0 to 10000, \
    not below `ean_default_minimal_change_time` | 62 | ean |\n\
    | `ean_headway` | whole 0 to 360, at most half of `period_length` | 0 | ean |\n\
    | `timetable_budget` | whole 1 to 1000000 | 100000 | timetable |\n\
    | `DM_earliest_time` | whole 0 to 10080 | 300 | rollout |\n\
    | `DM_latest_time` | whole 0 to 10080, not below `DM_earliest_time` | 1380 | rollout |\n\
    | `vs_turn_over_time` | whole 0 to 10000 | 5 | vehicles, disposition, pinned-vehicles |\n\
    | `vs_vehicle_costs` | fixed 0 to 1000000 | 100 | vehicles, statistic, pinned-vehicles |\n\
    | `vs_empty_costs` | fixed 0 to 1000000 | 1 | vehicles, statistic, pinned-vehicles |\n\
    | `dm_wait` | whole 0 to 10000, or `all` or `none` | 3 | disposition |\n\
    | `pin_concept` | `no` or `yes` | no | |\n\
    | `pin_timetable` | `no` or `yes` | no | |\n\
    | `pin_vehicles` | `no` or `yes` | no | |\n";

#[test]
fn rows_of_the_page(rt: HostRuntime) -> Result<(), Fail> {
    let mut text = String::new(rt.alloc());
    for key in keys() {
        push_row(rt.alloc(), &mut text, *key)?;
    }
    same(&rt, text.as_str(), ROWS, "");
    Ok(())
}
