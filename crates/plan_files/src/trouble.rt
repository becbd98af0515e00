// Why a call on the real folder failed.
use crate::name::Name;
use plan_num::NoMemory;
use std::alloc::Global;
use std::io::ErrorKind;
use std::{fmt, io};

/// Why a call on the real folder failed.
#[derive(Clone, Copy)]
pub(crate) enum Trouble {
    /// The system says so, or what stands there is no file that may be read or written.
    Failed(io::Error),
    /// Memory was refused.
    NoMemory,
}

impl Trouble {
    /// What stands there is no file that may be read or written.
    pub(crate) fn because(message: &'static str) -> Trouble {
        Trouble::Failed(io::Error::new(ErrorKind::InvalidInput, message))
    }
}

impl From<NoMemory> for Trouble {
    fn from(_refused: NoMemory) -> Trouble {
        Trouble::NoMemory
    }
}

impl From<io::Error> for Trouble {
    fn from(error: io::Error) -> Trouble {
        match error.kind() {
            ErrorKind::OutOfMemory => Trouble::NoMemory,
            _ => Trouble::Failed(error),
        }
    }
}

/// A call on a file that failed, for a reader: the name, and the error of the system.
#[derive(Drop)]
pub struct Failure {
    name: Name,
    error: io::Error,
}

impl Failure {
    /// None where memory for the name is refused.
    pub(crate) fn of(alloc: Global, name: &str, error: io::Error) -> Option<Failure> {
        match Name::copy(alloc, name) {
            Ok(name) => Some(Failure { name, error }),
            Err(_) => None,
        }
    }
}

impl fmt::Display for Failure {
    fn fmt<W: fmt::Write>(&self, f: &mut fmt::Formatter<W>) -> fmt::Result {
        write!(f, "{}: {}", self.name.as_str(), self.error)
    }
}
