// The part of a day in which trips start.
ghost use Rattle.std.specs.Prelude.{◌≡◌, ◌≤◌};
ghost use Rattle.giv_files.specs.declared.stage.Stage.TheVariants as stages;
ghost use Rattle.giv_files.specs.Settings.{Fits};
ghost use Rattle.roll_out.specs.Plans.{IsDay, first_start, start_count};
ghost use Rattle.roll_out.specs.RolloutStage.{day_in};

use giv_files::{Bundle, Key};

/// The first and the last minute at which a trip may start.
#[derive(Clone, Copy)]
pub(crate) struct Day {
    pub(crate) earliest: u32,
    pub(crate) latest: u32,
}

impl Day {
    /// The day of a bundle of the stage.
    pub(crate) fn of_bundle(bundle: &Bundle) -> Day
        requires stage { bundle.now.stage ≡ stages.Rollout }
        requires fits { Fits bundle.now }
        ensures value { result ≡ day_in bundle.now }
        ensures short { IsDay result }
    {
        Day {
            earliest: bundle.settings().amount(Key::DmEarliestTime) as u32,
            latest: bundle.settings().amount(Key::DmLatestTime) as u32,
        }
    }

    /// The first time that is not before the day and whole periods after a time of the period.
    pub(crate) fn first_start(&self, period: u32, time: u32) -> u32
        requires day { IsDay self.now }
        requires some { 1 ≤ period }
        requires short { period ≤ 720 }
        requires within { time ≤ period }
        ensures value { result ≡ first_start period self.now time }
        ensures early { result ≤ 10800 }
    {
        time + self.earliest.saturating_sub(time).div_ceil(period) * period
    }

    /// How many times of the day there are, each a period after the one before it, by the first.
    pub(crate) fn start_count(&self, period: u32, start: u32) -> u32
        requires day { IsDay self.now }
        requires some { 1 ≤ period }
        ensures value { result ≡ start_count period self.now start }
        ensures few { result ≤ 10081 }
    {
        if start > self.latest {
            return 0;
        }
        (self.latest - start) / period + 1
    }
}
