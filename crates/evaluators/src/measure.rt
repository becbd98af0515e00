// What the statistic tells.
ghost use Rattle.std.specs.Prelude.{◌≡◌};
ghost use Rattle.evaluators.specs.Statistic.{measure_name, measures};

/// What the statistic tells.
#[derive(Clone, Copy, Debug, PartialEq, Eq)]
pub enum Measure {
    LineCost,
    RunningLines,
    PeriodicEvents,
    PeriodicActivities,
    DriveMinutes,
    WaitMinutes,
    ChangeMinutes,
    Trips,
    Vehicles,
    EmptyMinutes,
    ScheduleCost,
    TotalDelay,
    GreatestDelay,
    MissedChanges,
}

impl Measure {
    /// All measures, in their order.
    pub fn all() -> &'static [Measure]
        ensures { result.now ≡ measures }
    {
        &[
            Measure::LineCost,
            Measure::RunningLines,
            Measure::PeriodicEvents,
            Measure::PeriodicActivities,
            Measure::DriveMinutes,
            Measure::WaitMinutes,
            Measure::ChangeMinutes,
            Measure::Trips,
            Measure::Vehicles,
            Measure::EmptyMinutes,
            Measure::ScheduleCost,
            Measure::TotalDelay,
            Measure::GreatestDelay,
            Measure::MissedChanges,
        ]
    }

    /// Its name.
    pub fn name(self) -> &'static str
        ensures { result.now ≡ measure_name self }
    {
        match self {
            Measure::LineCost => "lc_cost",
            Measure::RunningLines => "lc_lines",
            Measure::PeriodicEvents => "ean_events",
            Measure::PeriodicActivities => "ean_activities",
            Measure::DriveMinutes => "tim_drive_time",
            Measure::WaitMinutes => "tim_wait_time",
            Measure::ChangeMinutes => "tim_change_time",
            Measure::Trips => "ro_trips",
            Measure::Vehicles => "vs_vehicles",
            Measure::EmptyMinutes => "vs_empty_minutes",
            Measure::ScheduleCost => "vs_cost",
            Measure::TotalDelay => "dm_total_delay",
            Measure::GreatestDelay => "dm_max_delay",
            Measure::MissedChanges => "dm_missed_changes",
        }
    }
}
