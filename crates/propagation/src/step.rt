// Steps by which delays go on.
ghost use Rattle.std.specs.Prelude.{◌≡◌, ◌≤◌};
ghost use Rattle.propagation.specs.Problems.{minutes};

/// A step from one event of a day to another, told by their indexes: it takes its least minutes,
/// and those that come on top, which are the delay of an activity or the turnover of a vehicle.
#[derive(Clone, Copy, Debug, PartialEq, Eq)]
pub struct Step {
    pub from: u32,
    pub to: u32,
    pub lower: u32,
    pub extra: u32,
}

/// An activity between two events: its id, and its step.
#[derive(Clone, Copy, Debug, PartialEq, Eq)]
pub struct Activity {
    pub id: u32,
    pub step: Step,
}

impl Step {
    /// The minutes that it takes.
    pub fn minutes(&self) -> u64
        ensures minutes { result ≡ minutes self.now }
        ensures few { result ≤ 8589934590 }
    {
        u64::from(self.lower) + u64::from(self.extra)
    }
}
