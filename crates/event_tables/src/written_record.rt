// Records that are written as rows of a table.
ghost use Rattle.std.specs.Prelude.{ℤ, ◌≡◌, List};

use tables::Record;

/// A record with the cells of its row.
pub(crate) trait WrittenRecord<const C: usize>: Record<C> {
    ghost cells_of: { Self → List ℤ };

    /// The cells of its row.
    fn cells(&self) -> [i64; C]
        requires { Self.Fits (cells_of self.now) }
        ensures { result ≡ cells_of self.now };
}
