// Certificates of lower bounds.
use std::alloc::AllocFailed;

/// What a row of a certificate begins with.
#[derive(Clone, Copy, Debug, PartialEq, Eq)]
pub enum RowWord {
    /// A cycle begins; the first number is its own, from 1.
    Cycle,
    /// A step of it: the number of an activity, and 1 along it or -1 against it.
    Arc,
    /// The same, where cuts of the cycle count the slack from the span of the activity down.
    Flip,
    /// The number of a cycle, and the most periods that it takes in the first part.
    Split,
    /// No split any more; multipliers follow.
    Leaf,
    /// The number of a split on the way from the root, and a multiplier.
    Bound,
    /// The number of a cycle, and the multiplier of its cut.
    Cut,
}

/// A row of a certificate: its number in the file, its word, and two numbers.
#[derive(Clone, Copy, Debug, PartialEq, Eq)]
pub struct CertificateRow {
    pub number: u32,
    pub word: RowWord,
    pub first: i64,
    pub second: i64,
}

/// A certificate: that no timetable has less weighted slack than a claim. Its multipliers are whole
/// numbers of parts, of which so many make one.
#[derive(Debug, Drop)]
pub struct Certificate {
    pub claim: i64,
    pub parts: u32,
    pub rows: Vec<CertificateRow>,
}

/// Why a certificate proves nothing.
#[derive(Clone, Copy, Debug, PartialEq, Eq)]
pub enum BoundRule {
    /// Multipliers are parts of one, so there is one part at least.
    NoPart,
    /// Cycles are numbered from 1 in their order.
    CycleNumber,
    /// There is no activity of this number.
    NoActivity,
    /// A step goes along its activity, by 1, or against it, by -1.
    NoSign,
    /// The steps of a cycle lead from event to event, and back to the first.
    NotClosed,
    /// There is no cycle of this number.
    NoCycle,
    /// There is no split of this number on the way.
    NoSplit,
    /// A multiplier is at least 0.
    Negative,
    /// A leaf shows less than the claim.
    ShowsLess,
    /// Such a row does not stand here.
    NotHere,
    /// The tree is not whole.
    NotWhole,
    /// A sum has more than 128 bits.
    TooLarge,
}

/// Where a certificate fails, by the number of a row in its file, and why. Without a row it is
/// the end of the file.
#[derive(Clone, Copy, Debug, PartialEq, Eq)]
pub struct BoundFault {
    pub row: Option<u32>,
    pub rule: BoundRule,
}

// Why a look at a certificate ends early.
#[derive(Clone, Copy, Debug)]
pub(crate) enum Stop {
    NoMemory,
    Fault(BoundFault),
}

impl Stop {
    // A rule is broken at a row.
    pub(crate) fn at(row: &CertificateRow, rule: BoundRule) -> Stop {
        Stop::Fault(BoundFault {
            row: Some(row.number),
            rule,
        })
    }

    // A rule is broken after some rows, which is told at the last one of them.
    pub(crate) fn after(rows: &[CertificateRow], rule: BoundRule) -> Stop {
        Stop::Fault(BoundFault {
            row: rows.last().map(|row| row.number),
            rule,
        })
    }
}

impl<T: Drop> From<AllocFailed<T>> for Stop {
    fn from(_refused: AllocFailed<T>) -> Stop {
        Stop::NoMemory
    }
}
