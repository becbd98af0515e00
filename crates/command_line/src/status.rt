// What a run ends with.
ghost use Rattle.std.specs.Prelude.{◌≡◌};
ghost use Rattle.command_line.specs.Statuses.{number_of, status_of, status_of_query};

use crate::ends::{QueryEnd, RunEnd};

/// How a run of the program ended.
#[derive(Clone, Copy, Debug, PartialEq, Eq)]
pub enum Status {
    /// All stages were made.
    Done,
    /// The words are no command.
    Usage,
    /// An input cannot be used.
    BadInput,
    /// No solution exists.
    NoSolution,
    /// A budget was spent before there was a solution.
    Spent,
    /// A file could not be read or written.
    FileFault,
    /// The report could not be written.
    SinkFault,
    /// Memory was refused.
    NoMemory,
    /// A made file or a certificate does not pass.
    Uncertified,
}

impl Status {
    /// The exit status of the program.
    pub fn number(self) -> u8
        ensures { result ≡ number_of self }
    {
        match self {
            Status::Done => 0,
            Status::Usage => 2,
            Status::BadInput => 3,
            Status::NoSolution => 4,
            Status::Spent => 5,
            Status::FileFault => 6,
            Status::SinkFault => 7,
            Status::NoMemory => 8,
            Status::Uncertified => 9,
        }
    }
}

impl From<RunEnd> for Status {
    ghost from_gives = { λ end status. status ≡ status_of end };

    fn from(end: RunEnd) -> Status {
        match end {
            RunEnd::Done => Status::Done,
            RunEnd::BadInput => Status::BadInput,
            RunEnd::NoSolution => Status::NoSolution,
            RunEnd::Spent => Status::Spent,
        }
    }
}

impl From<QueryEnd> for Status {
    ghost from_gives = { λ end status. status ≡ status_of_query end };

    fn from(end: QueryEnd) -> Status {
        match end {
            QueryEnd::Done => Status::Done,
            QueryEnd::BadInput => Status::BadInput,
            QueryEnd::Spent => Status::Spent,
            QueryEnd::Uncertified => Status::Uncertified,
        }
    }
}
