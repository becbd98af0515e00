// Why a row of a file is refused.
ghost use Rattle.std.specs.Prelude.{Some};
ghost use Rattle.tables.specs.WhyTexts.{why_text};

use std::fmt;

/// Why a row of a file is refused. Columns count from 1.
#[derive(Clone, Copy, Debug, PartialEq, Eq)]
pub enum RowWhy {
    FieldCount { found: u64 },
    NotNumber { column: u32 },
    OutOfRange { column: u32 },
    UnknownWord { column: u32 },
    ByteOrderMark,
    RepeatedId,
    UnknownStop,
    UnknownEdge,
    UnknownLine,
    UnknownEvent,
    UnknownActivity,
    LoopEdge,
    ZeroBound,
    BoundsCrossed,
    MissingEdge,
    MissingLine,
    MissingEvent,
    NoPath,
    OrderGap,
    RepeatedEdge,
    BrokenLine,
    FrequencyDiffers,
    PoolDiffers,
    NotFeasible,
    TripsDiffer,
    CannotFollow,
    OutOfPeriod,
    Backward,
    StraySync,
    BrokenRun,
    Unjoined,
    StrayActivity,
}

impl fmt::Display for RowWhy {
    ghost output = { λ why. Some (why_text why) };

    fn fmt<W: fmt::Write>(&self, f: &mut fmt::Formatter<W>) -> fmt::Result {
        match self {
            RowWhy::FieldCount { found: _ } => write!(f, "wrong number of fields"),
            RowWhy::NotNumber { column } => write!(f, "column {column} is not a number"),
            RowWhy::OutOfRange { column } => write!(f, "column {column} is out of range"),
            RowWhy::UnknownWord { column } => write!(f, "column {column} is an unknown word"),
            RowWhy::ByteOrderMark => write!(f, "byte order mark"),
            RowWhy::RepeatedId => write!(f, "repeated id"),
            RowWhy::UnknownStop => write!(f, "unknown stop"),
            RowWhy::UnknownEdge => write!(f, "unknown edge"),
            RowWhy::UnknownLine => write!(f, "unknown line"),
            RowWhy::UnknownEvent => write!(f, "unknown event"),
            RowWhy::UnknownActivity => write!(f, "unknown activity"),
            RowWhy::LoopEdge => write!(f, "loop edge"),
            RowWhy::ZeroBound => write!(f, "zero bound"),
            RowWhy::BoundsCrossed => write!(f, "bounds crossed"),
            RowWhy::MissingEdge => write!(f, "missing edge"),
            RowWhy::MissingLine => write!(f, "missing line"),
            RowWhy::MissingEvent => write!(f, "missing event"),
            RowWhy::NoPath => write!(f, "no path"),
            RowWhy::OrderGap => write!(f, "order gap"),
            RowWhy::RepeatedEdge => write!(f, "repeated edge"),
            RowWhy::BrokenLine => write!(f, "broken line"),
            RowWhy::FrequencyDiffers => write!(f, "frequency differs"),
            RowWhy::PoolDiffers => write!(f, "differs from the pool"),
            RowWhy::NotFeasible => write!(f, "not feasible"),
            RowWhy::TripsDiffer => write!(f, "differs from the trips"),
            RowWhy::CannotFollow => write!(f, "cannot follow"),
            RowWhy::OutOfPeriod => write!(f, "out of period"),
            RowWhy::Backward => write!(f, "backward"),
            RowWhy::StraySync => write!(f, "stray sync"),
            RowWhy::BrokenRun => write!(f, "broken run"),
            RowWhy::Unjoined => write!(f, "unjoined"),
            RowWhy::StrayActivity => write!(f, "stray activity"),
        }
    }
}
