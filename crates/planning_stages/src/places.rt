// The places of the planning chain.
ghost use Rattle.std.specs.Prelude.{◌≡◌, if◌then◌else◌};
ghost use Rattle.planning_stages.specs.Places.{is_pinned};
ghost use Rattle.planning_stages.specs.Planning.{planning};

use config_keys::Config;
use giv_files::{Key, Stage};

/// The stage that runs in a place under the settings of a dataset: where people give what is made
/// there, the one that takes it.
#[tactic(auto, unfolding(crate::specs::Planning::planning))]
pub fn in_place(config: &Config, place: Stage) -> Stage
    ensures { result ≡ planning.placed config.now place }
{
    match place {
        Stage::Concept => pinned_or(config, Key::PinConcept, Stage::PinnedConcept, place),
        Stage::Timetable => pinned_or(config, Key::PinTimetable, Stage::PinnedTimetable, place),
        Stage::Vehicles => pinned_or(config, Key::PinVehicles, Stage::PinnedVehicles, place),
        other => other,
    }
}

// The pinned stage where the value of its key is `yes`, or else the plain one.
fn pinned_or(config: &Config, key: Key, pinned: Stage, plain: Stage) -> Stage
    ensures { result ≡ if is_pinned config.now key then pinned else plain }
{
    if is_pinned(config, key) {
        pinned
    } else {
        plain
    }
}

/// Whether the value of a key is `yes`.
pub(crate) fn is_pinned(config: &Config, key: Key) -> bool
    ensures { result ≡ is_pinned config.now key }
{
    config.value(key) == 1
}
