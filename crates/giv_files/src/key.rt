// The keys of the settings.
ghost use Rattle.std.specs.Prelude.{◌≡◌};
ghost use Rattle.giv_files.specs.CrossRules.{cross_rule};
ghost use Rattle.giv_files.specs.Keys.{key_row, key_name, key_kind, key_default, all_keys, key_place, allows};

use crate::cross_rule::{Bound, CrossRule};
use crate::key_kind::KeyKind;
use crate::key_row::{KeyRow, fixed, row, whole, word};
use crate::key_words::KeyWords;
use crate::stage::Stage;

/// A key of the settings, in the order in which settings are listed.
#[derive(Clone, Copy, Debug, PartialEq, Eq)]
pub enum Key {
    LastStage,
    LoadSource,
    GenPassengersPerVehicle,
    LoadSpread,
    LpoolCostsFixed,
    LpoolCostsLength,
    LpoolCostsEdges,
    ConceptBudget,
    PeriodLength,
    EanDefaultMinimalWaitingTime,
    EanDefaultMaximalWaitingTime,
    EanDefaultMinimalChangeTime,
    EanDefaultMaximalChangeTime,
    EanHeadway,
    TimetableBudget,
    DmEarliestTime,
    DmLatestTime,
    VsTurnOverTime,
    VsVehicleCosts,
    VsEmptyCosts,
    DmWait,
    PinConcept,
    PinTimetable,
    PinVehicles,
}

impl Key {
    /// What is known of the key.
    pub(crate) fn row(self) -> KeyRow
        ensures name { result.name.now ≡ (key_row self).name }
        ensures kind { result.kind ≡ (key_row self).kind }
        ensures default { result.default_value ≡ (key_row self).default }
        ensures stages { result.stages.now ≡ (key_row self).stages }
    {
        match self {
            Key::LastStage => row("last_stage", word(KeyWords::Stages), 8, &[]),
            Key::LoadSource => row(
                "load_source",
                word(KeyWords::LoadSources),
                0,
                &[Stage::Load],
            ),
            Key::GenPassengersPerVehicle => row(
                "gen_passengers_per_vehicle",
                whole(1, 100_000),
                70,
                &[Stage::Load],
            ),
            Key::LoadSpread => row("load_spread", whole(0, 1_000), 3, &[Stage::Load]),
            Key::LpoolCostsFixed => row(
                "lpool_costs_fixed",
                fixed(1_000_000),
                10_000_000,
                &[Stage::Cost],
            ),
            Key::LpoolCostsLength => row(
                "lpool_costs_length",
                fixed(10_000),
                1_000_000,
                &[Stage::Cost],
            ),
            Key::LpoolCostsEdges => row("lpool_costs_edges", fixed(1_000_000), 0, &[Stage::Cost]),
            Key::ConceptBudget => row("concept_budget", whole(1, 20_000), 5_000, &[Stage::Concept]),
            Key::PeriodLength => row(
                "period_length",
                whole(1, 720),
                60,
                &[
                    Stage::Ean,
                    Stage::Timetable,
                    Stage::Rollout,
                    Stage::Statistic,
                    Stage::PinnedTimetable,
                ],
            ),
            Key::EanDefaultMinimalWaitingTime => row(
                "ean_default_minimal_waiting_time",
                whole(0, 10_000),
                1,
                &[Stage::Ean],
            ),
            Key::EanDefaultMaximalWaitingTime => row(
                "ean_default_maximal_waiting_time",
                whole(0, 10_000),
                3,
                &[Stage::Ean],
            ),
            Key::EanDefaultMinimalChangeTime => row(
                "ean_default_minimal_change_time",
                whole(0, 10_000),
                3,
                &[Stage::Ean],
            ),
            Key::EanDefaultMaximalChangeTime => row(
                "ean_default_maximal_change_time",
                whole(0, 10_000),
                62,
                &[Stage::Ean],
            ),
            Key::EanHeadway => row("ean_headway", whole(0, 360), 0, &[Stage::Ean]),
            Key::TimetableBudget => row(
                "timetable_budget",
                whole(1, 1_000_000),
                100_000,
                &[Stage::Timetable],
            ),
            Key::DmEarliestTime => row(
                "DM_earliest_time",
                whole(0, 10_080),
                300,
                &[Stage::Rollout],
            ),
            Key::DmLatestTime => row("DM_latest_time", whole(0, 10_080), 1_380, &[Stage::Rollout]),
            Key::VsTurnOverTime => row(
                "vs_turn_over_time",
                whole(0, 10_000),
                5,
                &[Stage::Vehicles, Stage::Disposition, Stage::PinnedVehicles],
            ),
            Key::VsVehicleCosts => row(
                "vs_vehicle_costs",
                fixed(1_000_000),
                100_000_000,
                &[Stage::Vehicles, Stage::Statistic, Stage::PinnedVehicles],
            ),
            Key::VsEmptyCosts => row(
                "vs_empty_costs",
                fixed(1_000_000),
                1_000_000,
                &[Stage::Vehicles, Stage::Statistic, Stage::PinnedVehicles],
            ),
            Key::DmWait => row(
                "dm_wait",
                KeyKind::Wait { max: 10_000 },
                3,
                &[Stage::Disposition],
            ),
            Key::PinConcept => row("pin_concept", word(KeyWords::NoOrYes), 0, &[]),
            Key::PinTimetable => row("pin_timetable", word(KeyWords::NoOrYes), 0, &[]),
            Key::PinVehicles => row("pin_vehicles", word(KeyWords::NoOrYes), 0, &[]),
        }
    }
}

impl Key {
    /// The key as it is written in a config file.
    pub fn name(self) -> &'static str
        ensures { result.now ≡ key_name self }
    {
        self.row().name
    }

    /// What its value may be.
    pub fn kind(self) -> KeyKind
        ensures { result ≡ key_kind self }
    {
        self.row().kind
    }

    /// Its value where no file gives one.
    pub fn default_value(self) -> i64
        ensures { result ≡ key_default self }
    {
        self.row().default_value
    }

    /// Whether its value may be this one, apart from the values of other keys.
    pub fn allows(self, value: i64) -> bool
        ensures { result ≡ allows self value }
    {
        let kind = self.kind();
        kind.least() <= value && value <= kind.greatest()
    }

    /// The rule that binds its value to that of another key, where there is one.
    pub fn cross_rule(self) -> Option<CrossRule>
        ensures { result ≡ cross_rule self }
    {
        let (bound, other) = match self {
            Key::EanDefaultMaximalWaitingTime => {
                (Bound::NotBelow, Key::EanDefaultMinimalWaitingTime)
            }
            Key::EanDefaultMaximalChangeTime => {
                (Bound::NotBelow, Key::EanDefaultMinimalChangeTime)
            }
            Key::EanHeadway => (Bound::TwiceAtMost, Key::PeriodLength),
            Key::DmLatestTime => (Bound::NotBelow, Key::DmEarliestTime),
            _ => return None,
        };
        Some(CrossRule { bound, other })
    }

    /// All keys, in their order.
    pub fn all() -> &'static [Key]
        ensures { result.now ≡ all_keys }
    {
        &[
            Key::LastStage,
            Key::LoadSource,
            Key::GenPassengersPerVehicle,
            Key::LoadSpread,
            Key::LpoolCostsFixed,
            Key::LpoolCostsLength,
            Key::LpoolCostsEdges,
            Key::ConceptBudget,
            Key::PeriodLength,
            Key::EanDefaultMinimalWaitingTime,
            Key::EanDefaultMaximalWaitingTime,
            Key::EanDefaultMinimalChangeTime,
            Key::EanDefaultMaximalChangeTime,
            Key::EanHeadway,
            Key::TimetableBudget,
            Key::DmEarliestTime,
            Key::DmLatestTime,
            Key::VsTurnOverTime,
            Key::VsVehicleCosts,
            Key::VsEmptyCosts,
            Key::DmWait,
            Key::PinConcept,
            Key::PinTimetable,
            Key::PinVehicles,
        ]
    }

    /// Its place in the order of keys, from 0.
    pub fn place(self) -> usize
        ensures { result ≡ key_place self }
    {
        self as usize
    }
}
