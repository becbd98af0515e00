// Activities.
ghost use Rattle.std.specs.Prelude.{◌≡◌, ◌<◌, ◌≤ℤ◌, pos, length, All, Decides};
ghost use Rattle.pesp.specs.Timetables.{keeps, keeps_in, IsActivity};

use crate::tensions::tension;

/// An activity of a periodic event scheduling problem: it goes from one event to another, by their
/// indexes, and takes from its lower to its upper bound of minutes.
#[derive(Clone, Copy, Debug, PartialEq, Eq)]
pub struct PespActivity {
    pub from: usize,
    pub to: usize,
    pub lower: i64,
    pub upper: i64,
}

impl PespActivity {
    /// Whether it keeps its bounds between two times of a period.
    pub(crate) fn keeps(&self, period: u32, from: u32, to: u32) -> bool
        requires from { from < period }
        requires to { to < period }
        requires low { pos 0 ≤ℤ self.now.lower }
        requires high { self.now.lower ≤ℤ pos 100000 }
        ensures { result ≡ keeps period self.now from to }
    {
        tension(self.lower, from, to, period) <= self.upper
    }

    /// Whether it keeps its bounds where each event has a time.
    pub(crate) fn keeps_in(&self, period: u32, times: &[u32]) -> bool
        requires activity { IsActivity (length times.now) self.now }
        requires within { All (λ time. time < period) times.now }
        ensures { result ≡ keeps_in period times.now self.now }
    {
        self.keeps(period, times[self.from], times[self.to])
    }
    /// Whether it goes from one of so many events to another, by bounds in order.
    pub(crate) fn is_sound(&self, events: usize) -> bool
        ensures { Decides result (IsActivity events self.now) }
    {
        let ends = self.from < events && self.to < events;
        let bounds = 0 <= self.lower && self.lower <= self.upper && self.upper <= 100_000;
        ends && bounds
    }
}
