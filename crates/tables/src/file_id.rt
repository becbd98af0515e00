// The files of a dataset.
ghost use Rattle.std.specs.Prelude.{◌≡◌};
ghost use Rattle.tables.specs.FileNames.{file_name};

/// A file of a dataset that a stage takes or makes.
#[derive(Clone, Copy, Debug, PartialEq, Eq)]
pub enum FileId {
    Stop,
    Edge,
    /// The loads and bounds that a person wrote.
    LoadGiven,
    Od,
    Pool,
    EventDelays,
    ActivityDelays,
    PinnedConcept,
    PinnedTree,
    PinnedTimes,
    PinnedSchedule,
    PinnedPotential,
    /// The loads and bounds that were made.
    Load,
    PoolCost,
    Concept,
    /// What proves that the line concept is of least cost.
    Tree,
    EventsP,
    ActivitiesP,
    TimesP,
    EventsX,
    ActivitiesX,
    Trips,
    Schedule,
    /// What proves that the vehicle schedule is of least cost.
    Potential,
    Disposed,
    /// What proves that no event of the disposition can be earlier.
    Reasons,
    Statistic,
}

impl FileId {
    /// The path of the file below the dataset's folder.
    pub fn name(self) -> &'static str
        ensures { result.now ≡ file_name self }
    {
        match self {
            FileId::Stop => "basis/Stop.giv",
            FileId::Edge => "basis/Edge.giv",
            FileId::LoadGiven => "basis/Load.giv",
            FileId::Od => "basis/OD.giv",
            FileId::Pool => "basis/Pool.giv",
            FileId::EventDelays => "delay-management/Event-delays.giv",
            FileId::ActivityDelays => "delay-management/Activity-delays.giv",
            FileId::PinnedConcept => "pinned/Line-Concept.lin",
            FileId::PinnedTree => "pinned/Line-Concept.cert",
            FileId::PinnedTimes => "pinned/Timetable-periodic.tim",
            FileId::PinnedSchedule => "pinned/Vehicle_Schedules.vs",
            FileId::PinnedPotential => "pinned/Vehicle_Schedules.cert",
            FileId::Load => "line-planning/Load.giv",
            FileId::PoolCost => "basis/Pool-Cost.giv",
            FileId::Concept => "line-planning/Line-Concept.lin",
            FileId::Tree => "line-planning/Line-Concept.cert",
            FileId::EventsP => "timetabling/Events-periodic.giv",
            FileId::ActivitiesP => "timetabling/Activities-periodic.giv",
            FileId::TimesP => "timetabling/Timetable-periodic.tim",
            FileId::EventsX => "delay-management/Events-expanded.giv",
            FileId::ActivitiesX => "delay-management/Activities-expanded.giv",
            FileId::Trips => "delay-management/Trips.giv",
            FileId::Schedule => "vehicle-scheduling/Vehicle_Schedules.vs",
            FileId::Potential => "vehicle-scheduling/Vehicle_Schedules.cert",
            FileId::Disposed => "delay-management/Timetable-disposition.tim",
            FileId::Reasons => "delay-management/Timetable-disposition.cert",
            FileId::Statistic => "statistic/statistic.sta",
        }
    }
}
