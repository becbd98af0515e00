// The stages of the chain.
ghost use Rattle.std.specs.Prelude.{◌≡◌};
ghost use Rattle.giv_files.specs.Keys.{has_key};
ghost use Rattle.giv_files.specs.Stages.{all_stages, places, stage_inputs, stage_makes, stage_name};
ghost use Rattle.giv_files.specs.Stages.{stage_row, stage_tag};

use crate::key::Key;
use crate::stage_row::{StageRow, row};
use tables::FileId;

/// A stage of the chain, in the order in which the stages run.
#[derive(Clone, Copy, Debug, PartialEq, Eq)]
pub enum Stage {
    Load,
    Cost,
    Concept,
    Ean,
    Timetable,
    Rollout,
    Vehicles,
    Disposition,
    Statistic,
    /// In the place of `Concept`: a line concept that a person gives.
    PinnedConcept,
    /// In the place of `Timetable`: a timetable that a person gives.
    PinnedTimetable,
    /// In the place of `Vehicles`: a vehicle schedule that a person gives.
    PinnedVehicles,
}

// The stages of the places in their order, and those that are named after them.
macro_rules! stages {
    ($($pinned:expr),*) => {
        &[
            Stage::Load,
            Stage::Cost,
            Stage::Concept,
            Stage::Ean,
            Stage::Timetable,
            Stage::Rollout,
            Stage::Vehicles,
            Stage::Disposition,
            Stage::Statistic,
            $($pinned),*
        ]
    };
}

impl Stage {
    /// What is told of the stage.
    pub fn row(self) -> StageRow
        ensures name { result.name.now ≡ (stage_row self).name }
        ensures kept { result.kept.now ≡ (stage_row self).kept }
        ensures place { result.place ≡ (stage_row self).place }
        ensures inputs { result.inputs.now ≡ (stage_row self).inputs }
        ensures makes { result.makes.now ≡ (stage_row self).makes }
        ensures alone { result.alone ≡ (stage_row self).alone }
    {
        match self {
            Stage::Load => row(
                "load",
                "keep/load.keep",
                Stage::Load,
                &[FileId::Stop, FileId::Edge, FileId::Od],
                &[FileId::Load],
                None,
            ),
            Stage::Cost => row(
                "cost",
                "keep/cost.keep",
                Stage::Cost,
                &[FileId::Stop, FileId::Edge, FileId::Pool],
                &[FileId::PoolCost],
                None,
            ),
            Stage::Concept => row(
                "concept",
                "keep/concept.keep",
                Stage::Concept,
                &[
                    FileId::Stop,
                    FileId::Edge,
                    FileId::Pool,
                    FileId::Load,
                    FileId::PoolCost,
                ],
                &[FileId::Concept, FileId::Tree],
                Some(FileId::Concept),
            ),
            Stage::Ean => row(
                "ean",
                "keep/ean.keep",
                Stage::Ean,
                &[FileId::Stop, FileId::Edge, FileId::Concept],
                &[FileId::EventsP, FileId::ActivitiesP],
                None,
            ),
            Stage::Timetable => row(
                "timetable",
                "keep/timetable.keep",
                Stage::Timetable,
                &[FileId::EventsP, FileId::ActivitiesP],
                &[FileId::TimesP],
                None,
            ),
            Stage::Rollout => row(
                "rollout",
                "keep/rollout.keep",
                Stage::Rollout,
                &[FileId::EventsP, FileId::ActivitiesP, FileId::TimesP],
                &[FileId::EventsX, FileId::ActivitiesX, FileId::Trips],
                None,
            ),
            Stage::Vehicles => row(
                "vehicles",
                "keep/vehicles.keep",
                Stage::Vehicles,
                &[FileId::Stop, FileId::Edge, FileId::Trips],
                &[FileId::Schedule, FileId::Potential],
                None,
            ),
            Stage::Disposition => row(
                "disposition",
                "keep/disposition.keep",
                Stage::Disposition,
                &[
                    FileId::EventsX,
                    FileId::ActivitiesX,
                    FileId::Schedule,
                    FileId::EventDelays,
                    FileId::ActivityDelays,
                ],
                &[FileId::Disposed, FileId::Reasons],
                None,
            ),
            Stage::Statistic => row(
                "statistic",
                "keep/statistic.keep",
                Stage::Statistic,
                &[
                    FileId::PoolCost,
                    FileId::Concept,
                    FileId::EventsP,
                    FileId::ActivitiesP,
                    FileId::TimesP,
                    FileId::Trips,
                    FileId::EventsX,
                    FileId::ActivitiesX,
                    FileId::Schedule,
                    FileId::Disposed,
                ],
                &[FileId::Statistic],
                None,
            ),
            Stage::PinnedConcept => row(
                "pinned-concept",
                "keep/pinned-concept.keep",
                Stage::Concept,
                &[
                    FileId::Stop,
                    FileId::Edge,
                    FileId::Pool,
                    FileId::Load,
                    FileId::PoolCost,
                    FileId::PinnedConcept,
                    FileId::PinnedTree,
                ],
                &[FileId::Concept, FileId::Tree],
                Some(FileId::Concept),
            ),
            Stage::PinnedTimetable => row(
                "pinned-timetable",
                "keep/pinned-timetable.keep",
                Stage::Timetable,
                &[FileId::EventsP, FileId::ActivitiesP, FileId::PinnedTimes],
                &[FileId::TimesP],
                None,
            ),
            Stage::PinnedVehicles => row(
                "pinned-vehicles",
                "keep/pinned-vehicles.keep",
                Stage::Vehicles,
                &[
                    FileId::Stop,
                    FileId::Edge,
                    FileId::Trips,
                    FileId::PinnedSchedule,
                    FileId::PinnedPotential,
                ],
                &[FileId::Schedule, FileId::Potential],
                Some(FileId::Schedule),
            ),
        }
    }
}

impl Stage {
    /// The word for the stage in settings and reports.
    pub fn name(self) -> &'static str
        ensures { result.now ≡ stage_name self }
    {
        self.row().name
    }

    /// The places of a chain, by the stages that run in them where nothing is pinned, in their order.
    pub fn places() -> &'static [Stage]
        ensures { result.now ≡ places }
    {
        stages!()
    }

    /// All stages.
    pub fn all() -> &'static [Stage]
        ensures { result.now ≡ all_stages }
    {
        stages!(
            Stage::PinnedConcept,
            Stage::PinnedTimetable,
            Stage::PinnedVehicles
        )
    }

    /// Its number among all stages, from 0, in the order of the enum.
    pub fn place(self) -> usize
        ensures { result ≡ stage_tag self }
    {
        self as usize
    }

    /// Whether its settings have the key.
    pub fn has_key(self, key: Key) -> bool
        ensures { result ≡ has_key self key }
    {
        key.row()
            .stages
            .iter()
            .any(|stage| stage.place() == self.place())
    }

    /// The files that it takes, in order. Where loads are given, `LoadGiven` stands in the place of `Od`.
    pub fn inputs(self) -> &'static [FileId]
        ensures { result.now ≡ stage_inputs self }
    {
        self.row().inputs
    }

    /// The files that it makes, in order; the `Tree` only where the line concept is marked.
    pub fn makes(self) -> &'static [FileId]
        ensures { result.now ≡ stage_makes self }
    {
        self.row().makes
    }
}
