// Lines with their costs.
ghost use Rattle.std.specs.Prelude.{◌≡◌};
ghost use Rattle.evaluators.specs.CostedLines.{broken_by, runs_cost};

use tables::RowWhy;

/// A line with how often it runs, and its cost in millionths, where it has one.
#[derive(Clone, Copy)]
pub(crate) struct CostedLine {
    pub(crate) line: i64,
    pub(crate) frequency: u64,
    pub(crate) cost: Option<u64>,
}

impl CostedLine {
    /// The first rule that a row of the line breaks by its frequency.
    pub(crate) fn broken_by(&self, frequency: u64) -> Option<RowWhy>
        ensures { result ≡ broken_by self.now frequency }
    {
        if self.cost.is_none() {
            return Some(RowWhy::UnknownLine);
        }
        if frequency != self.frequency {
            return Some(RowWhy::FrequencyDiffers);
        }
        None
    }

    /// What its runs cost.
    pub(crate) fn cost_of_runs(&self) -> u128
        ensures { result ≡ runs_cost self.now }
    {
        u128::from(self.cost.unwrap_or(0)) * u128::from(self.frequency)
    }
}
