// How a run and a question end.

/// How a run ended.
#[derive(Clone, Copy, Debug, PartialEq, Eq)]
pub enum RunEnd {
    /// All stages that were to run were made.
    Done,
    /// An input is refused.
    BadInput,
    /// A stage has no solution.
    NoSolution,
    /// The budget of a search ended before it had a solution.
    Spent,
}

/// How a question ended.
#[derive(Clone, Copy, Debug, PartialEq, Eq)]
pub enum QueryEnd {
    /// It has its answer.
    Done,
    /// An input cannot be used.
    BadInput,
    /// A budget was spent before there was an answer.
    Spent,
    /// A waiting decision that was saved does not pass.
    Uncertified,
}
