// Where reports go.
ghost use Rattle.std.specs.Prelude.{◌≤◌, List, ℕ, Option};
ghost use Rattle.plan_files.specs.Counts.{Counts, last_count};
ghost use Rattle.plan_files.specs.Sinks.{WriteLeaves, is_broken};

use crate::sink_fault::SinkFault;

/// Takes pieces of bytes, in order.
pub trait Sink {
    /// The bytes that were taken, where this is told.
    ghost written: { Self → Option (List ℕ) };

    /// How often a write has failed, as a counter of 64 bits which stops at its last value.
    ghost faults: { Self → ℕ };

    /// Appends a piece.
    fn write(&mut self, piece: &[u8]) -> Result<(), SinkFault>
        ensures written { WriteLeaves piece.now (written self.old) (written self.new) result }
        ensures faults { Counts (is_broken result) (faults self.old) (faults self.new) }
        ensures capped { faults self.new ≤ last_count };
}
