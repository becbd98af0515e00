// The names of the files of a dataset that scripts speak of.

pub(crate) const TREE: &str = "line-planning/Line-Concept.cert";

// A file that no stage makes and nobody reads.
pub(crate) const OTHER: &str = "other.txt";

// The files that people write.
pub(crate) const HAND: [&str; 5] = [
    "basis/Config.cnf",
    "basis/Stop.giv",
    "basis/Edge.giv",
    "basis/Pool.giv",
    "basis/Load.giv",
];

// The files that the stages make, in the order in which they are made.
pub(crate) const MADE: [&str; 15] = [
    "line-planning/Load.giv",
    "basis/Pool-Cost.giv",
    "line-planning/Line-Concept.lin",
    "line-planning/Line-Concept.cert",
    "timetabling/Events-periodic.giv",
    "timetabling/Activities-periodic.giv",
    "timetabling/Timetable-periodic.tim",
    "delay-management/Events-expanded.giv",
    "delay-management/Activities-expanded.giv",
    "delay-management/Trips.giv",
    "vehicle-scheduling/Vehicle_Schedules.vs",
    "vehicle-scheduling/Vehicle_Schedules.cert",
    "delay-management/Timetable-disposition.tim",
    "delay-management/Timetable-disposition.cert",
    "statistic/statistic.sta",
];

pub(crate) const KEPT: [&str; 9] = [
    "keep/load.keep",
    "keep/cost.keep",
    "keep/concept.keep",
    "keep/ean.keep",
    "keep/timetable.keep",
    "keep/rollout.keep",
    "keep/vehicles.keep",
    "keep/disposition.keep",
    "keep/statistic.keep",
];

// How many of the made files are those of a stage and of the stages before it.
pub(crate) fn files_up_to(stage: &str) -> usize {
    match stage {
        "load" => 1,
        "cost" => 2,
        "concept" => 4,
        "ean" => 6,
        "timetable" => 7,
        "rollout" => 10,
        "vehicles" => 12,
        "disposition" => 14,
        "statistic" => 15,
        _ => 0,
    }
}
