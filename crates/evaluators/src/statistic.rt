// The statistic of a dataset.
ghost use Rattle.std.specs.Prelude.{◌≡◌, ◌≤◌, ◌≤ℤ◌, ◌^◌, pos, neg_ℤ};
ghost use Rattle.evaluators.specs.Bounds.{IsSmall};
ghost use Rattle.evaluators.specs.Statistic.{units, value_of};

use crate::day_values::DayValues;
use crate::line_values::LineValues;
use crate::measure::Measure;
use crate::periodic_values::PeriodicValues;

/// The values of the line concept, of the periodic timetable, how many trips there are, the values
/// of the day, and the cost of the vehicle schedule in millionths.
#[derive(Clone, Copy, Debug, PartialEq, Eq)]
pub struct Statistic {
    pub lines: LineValues,
    pub periodic: PeriodicValues,
    pub trips: u64,
    pub day: DayValues,
    pub schedule_cost: u128,
}

impl Statistic {
    /// The value of a measure in millionths.
    pub(crate) fn value(&self, measure: Measure) -> i128
        requires { IsSmall self.now }
        ensures { result ≡ value_of self.now measure }
    {
        match measure {
            Measure::LineCost => signed(self.lines.cost),
            Measure::RunningLines => units(self.lines.running),
            Measure::PeriodicEvents => units(self.periodic.events),
            Measure::PeriodicActivities => units(self.periodic.activities),
            Measure::DriveMinutes => units(self.periodic.drive),
            Measure::WaitMinutes => units(self.periodic.wait),
            Measure::ChangeMinutes => units(self.periodic.change),
            Measure::Trips => units(self.trips),
            Measure::Vehicles => units(self.day.vehicles),
            Measure::EmptyMinutes => units(self.day.empty_minutes),
            Measure::ScheduleCost => signed(self.schedule_cost),
            Measure::TotalDelay => signed_units(self.day.delay),
            Measure::GreatestDelay => units(self.day.greatest),
            Measure::MissedChanges => units(self.day.missed),
        }
    }
}

// A number of millionths that is not great.
fn signed(number: u128) -> i128
    requires { number ≤ 10 ^ 37 }
    ensures { result ≡ pos number }
{
    number as i128
}

// So many units in millionths.
fn units(number: u64) -> i128
    ensures { result ≡ units (pos number) }
{
    i128::from(number) * 1_000_000
}

// The same of a number that is not far from 0.
fn signed_units(number: i128) -> i128
    requires low { neg_ℤ (pos (10 ^ 30)) ≤ℤ number }
    requires high { number ≤ℤ pos (10 ^ 30) }
    ensures { result ≡ units number }
{
    number * 1_000_000
}
