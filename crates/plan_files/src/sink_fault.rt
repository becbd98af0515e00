// Why a write to a sink failed.
ghost use Rattle.std.specs.Prelude.{◌≡◌};
ghost use Rattle.plan_files.specs.declared.sink_fault.SinkFault.TheVariants as faults;

use std::alloc::AllocError;
use thiserror::Error;

/// Why a write to a sink failed.
#[derive(Clone, Copy, Debug, PartialEq, Eq, Error)]
pub enum SinkFault {
    /// The sink did not take the whole piece.
    #[error("sink fault")]
    Failed,
    /// Memory was refused.
    #[error("out of memory")]
    NoMemory,
}

impl From<AllocError> for SinkFault {
    ghost from_gives = { λ _ fault. fault ≡ faults.NoMemory };

    fn from(_refused: AllocError) -> SinkFault {
        SinkFault::NoMemory
    }
}
