// The rules of a check.
ghost use Rattle.std.specs.Prelude.{◌≡◌};
ghost use Rattle.stage_chain.specs.Findings.{rule_name};

/// A rule that the files of a stage keep where a check passes.
#[derive(Clone, Copy, Debug, PartialEq, Eq)]
pub enum Rule {
    /// A made file is there.
    Missing,
    /// The inputs of the stage are not refused.
    Input,
    /// The made files are those that the stage makes of its inputs.
    Content,
    /// The file is a table of its kind.
    Row,
    /// The rows of a concept are those of the lines of the pool, with one frequency each.
    Lines,
    /// The frequencies keep the bounds of each edge.
    Bounds,
    /// The file of a tree can be read, and its nodes are one whole tree.
    Tree,
    /// Each split of a tree lies inside the range of its line.
    Split,
    /// Each edge that a tree calls empty is so.
    Empty,
    /// Multipliers take off no line more than it costs.
    Multiplier,
    /// The multipliers of a leaf prove the cost.
    Bound,
    /// A leaf that is one concept costs no less.
    Point,
    /// A timetable or a disposition has a row for each event.
    Events,
    /// Each activity of a timetable takes as long as its bounds allow.
    Tension,
    /// A vehicle schedule has each trip.
    Trips,
    /// Each trip can follow the one before it.
    Follow,
    /// A certificate is there.
    Certificate,
    /// Potentials have a row for each trip.
    Potentials,
    /// Potentials allow each pair of trips.
    Pair,
    /// Potentials prove the cost of a schedule.
    Sum,
    /// No event of a disposition is earlier than its bounds allow.
    Early,
    /// Reasons have a row for each event.
    Reasons,
    /// Each reason holds.
    Reason,
}

impl Rule {
    /// The word for the rule in reports.
    pub fn name(self) -> &'static str
        ensures { result.now ≡ rule_name self }
    {
        match self {
            Rule::Missing => "missing",
            Rule::Input => "input",
            Rule::Content => "content",
            Rule::Row => "row",
            Rule::Lines => "lines",
            Rule::Bounds => "bounds",
            Rule::Tree => "tree",
            Rule::Split => "split",
            Rule::Empty => "empty",
            Rule::Multiplier => "multiplier",
            Rule::Bound => "bound",
            Rule::Point => "point",
            Rule::Events => "events",
            Rule::Tension => "tension",
            Rule::Trips => "trips",
            Rule::Follow => "follow",
            Rule::Certificate => "certificate",
            Rule::Potentials => "potentials",
            Rule::Pair => "pair",
            Rule::Sum => "sum",
            Rule::Early => "early",
            Rule::Reasons => "reasons",
            Rule::Reason => "reason",
        }
    }
}
