// Why a text is refused.
use plan_num::NoMemory;
use std::alloc::{AllocError, AllocFailed};
use std::fmt;

/// Why a row of a text, or a text as a whole, is refused.
#[derive(Clone, Copy, Debug, PartialEq, Eq)]
pub enum TextRule {
    /// It begins with a byte order mark.
    ByteOrderMark,
    /// A row has another number of fields, or begins with another word.
    Form(RowForm),
    /// A field is no whole number up to 10^18.
    NotWhole,
    /// Bounds are not in order, or not from 0 to 100,000 minutes.
    Bounds,
    /// A weight is not from 0 to 10^9.
    Weight,
    /// There are more than 20,000 events.
    TooManyEvents,
    /// There are more than 100,000 activities.
    TooManyActivities,
    /// No activity has the event.
    UnknownEvent,
    /// The event has a time already.
    Twice,
    /// A time is not in the period.
    Outside,
    /// An event has no time.
    NoTime,
    /// The claim stands in another row than the first.
    LateClaim,
    /// A row has a number above 2^32.
    TooManyRows,
    /// Multipliers are parts of one, of which there are from 1 to 10^9.
    Parts,
}

/// What a row has to be.
#[derive(Clone, Copy, Debug, PartialEq, Eq)]
pub enum RowForm {
    /// `index; from; to; lower; upper; weight`
    Activity,
    /// `event; time`
    Time,
    /// `claim; S; D`
    Claim,
    /// `cycle; C; 0` and the other rows of a certificate.
    Certificate,
}

/// A text is refused at a row, or as a whole.
#[derive(Clone, Copy, Debug, PartialEq, Eq)]
pub struct TextFault {
    pub row: Option<u64>,
    pub rule: TextRule,
}

/// Why a text is not read.
#[derive(Clone, Copy, Debug, PartialEq, Eq)]
pub enum TextStop {
    NoMemory,
    Refused(TextFault),
}

impl TextStop {
    // A rule is broken at a row.
    pub(crate) fn at(row: u64, rule: TextRule) -> TextStop {
        TextStop::Refused(TextFault {
            row: Some(row),
            rule,
        })
    }

    // A rule is broken by a text as a whole.
    pub(crate) fn whole(rule: TextRule) -> TextStop {
        TextStop::Refused(TextFault { row: None, rule })
    }
}

impl From<NoMemory> for TextStop {
    fn from(_refused: NoMemory) -> TextStop {
        TextStop::NoMemory
    }
}

impl<T: Drop> From<AllocFailed<T>> for TextStop {
    fn from(_refused: AllocFailed<T>) -> TextStop {
        TextStop::NoMemory
    }
}

impl From<AllocError> for TextStop {
    fn from(_refused: AllocError) -> TextStop {
        TextStop::NoMemory
    }
}

impl fmt::Display for RowForm {
    fn fmt<W: fmt::Write>(&self, f: &mut fmt::Formatter<W>) -> fmt::Result {
        match self {
            RowForm::Activity => write!(f, "index; from; to; lower; upper; weight"),
            RowForm::Time => write!(f, "event; time"),
            RowForm::Claim => write!(f, "claim; S; D"),
            RowForm::Certificate => write!(
                f,
                "cycle, arc, flip, split, leaf, bound or cut, and two numbers"
            ),
        }
    }
}

impl fmt::Display for TextRule {
    fn fmt<W: fmt::Write>(&self, f: &mut fmt::Formatter<W>) -> fmt::Result {
        match self {
            TextRule::ByteOrderMark => write!(f, "begins with a byte order mark"),
            TextRule::Form(form) => write!(f, "wants {form}"),
            TextRule::NotWhole => write!(f, "wants whole numbers up to 10^18"),
            TextRule::Bounds => write!(f, "wants 0 <= lower <= upper <= 100000"),
            TextRule::Weight => write!(f, "wants a weight from 0 to 10^9"),
            TextRule::TooManyEvents => write!(f, "is one of more than 20000 events"),
            TextRule::TooManyActivities => write!(f, "is one of more than 100000 activities"),
            TextRule::UnknownEvent => write!(f, "has an event of no activity"),
            TextRule::Twice => write!(f, "has an event that has a time already"),
            TextRule::Outside => write!(f, "has a time outside of the period"),
            TextRule::NoTime => write!(f, "has no time for some event"),
            TextRule::LateClaim => write!(f, "has a claim after the first row"),
            TextRule::TooManyRows => write!(f, "has more than 2^32 rows"),
            TextRule::Parts => write!(f, "wants from 1 to 10^9 parts of one"),
        }
    }
}
