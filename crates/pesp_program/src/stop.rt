// Why nothing is judged.
use pesp_texts::{AnswerStop, TextFault, TextStop};
use plan_num::NoMemory;
use std::alloc::{AllocError, AllocFailed};

/// Why nothing is judged: memory was refused, a file could not be read, is not there or is too
/// long, or its text is refused.
#[derive(Clone, Copy)]
pub(crate) enum Stop<'a> {
    NoMemory,
    FileFault,
    Missing(&'a str),
    TooLong(&'a str),
    Refused(&'a str, TextFault),
}

impl<'a> Stop<'a> {
    /// Why texts of two files are not answered.
    pub(crate) fn of(stop: AnswerStop, instance: &'a str, other: &'a str) -> Stop<'a> {
        match stop {
            AnswerStop::NoMemory => Stop::NoMemory,
            AnswerStop::Instance(fault) => Stop::Refused(instance, fault),
            AnswerStop::Other(fault) => Stop::Refused(other, fault),
        }
    }

    /// Why the text of a file is not read.
    pub(crate) fn of_text(stop: TextStop, name: &'a str) -> Stop<'a> {
        match stop {
            TextStop::NoMemory => Stop::NoMemory,
            TextStop::Refused(fault) => Stop::Refused(name, fault),
        }
    }
}

impl From<NoMemory> for Stop<'_> {
    fn from(_refused: NoMemory) -> Self {
        Stop::NoMemory
    }
}

impl From<AllocError> for Stop<'_> {
    fn from(_refused: AllocError) -> Self {
        Stop::NoMemory
    }
}

impl<T: Drop> From<AllocFailed<T>> for Stop<'_> {
    fn from(_refused: AllocFailed<T>) -> Self {
        Stop::NoMemory
    }
}
