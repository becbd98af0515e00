// What is told of the stages by what is kept of them.
ghost use Rattle.std.specs.Prelude.{◌≡◌};
ghost use Rattle.stage_chain.specs.States.{state_name};

use plan_num::Text;

/// How a stage stands to what is kept of it.
#[derive(Clone, Copy)]
pub(crate) enum StageState {
    /// The stage comes after the last one that is to run.
    Off,
    /// It takes a file of a stage that is stale or unknown.
    Unknown,
    /// A file that people write is missing or too long, or nothing is kept of what it is given.
    Stale,
    /// A file that it made does not stand as it was made.
    Edited,
    /// All its files stand as they were made of what it is given.
    Kept,
}

impl StageState {
    /// The word for the state in reports.
    pub(crate) fn name(self) -> &'static str
        ensures { result.now ≡ state_name self }
    {
        match self {
            StageState::Off => "off",
            StageState::Unknown => "unknown",
            StageState::Stale => "stale",
            StageState::Edited => "edited",
            StageState::Kept => "kept",
        }
    }
}

/// How telling the states ended.
#[derive(Clone, Copy, Debug, PartialEq, Eq)]
pub enum StatesEnd {
    /// The report has a line for each stage.
    Told,
    /// The settings are refused.
    BadInput,
}

/// How telling the states ended, and its report.
#[derive(Debug, Drop)]
pub struct StatesOutcome {
    pub end: StatesEnd,
    pub report: Text,
}
