// The rules of the rows of a table, tested row by row.
ghost use Rattle.std.specs.Prelude.{◌≡◌, ◌++◌, ◌∷◌, List, [], IfOk, slice_get, None};
ghost use Rattle.tables.specs.Inputs.{RowRule, broken_whys};

use crate::row_why::RowWhy;
use plan_num::NoMemory;

/// The rules of the rows of a file, with what is known of the rows that were tested.
pub trait RowTests<X>: Drop {
    ghost rules: { Self → List (RowRule X) };

    ghost Knows: { Self → List X → Type 0 };

    /// The first rule that a row breaks after the rows before it, if any.
    fn test(&mut self, before: &[X], row: &X) -> Result<Option<RowWhy>, NoMemory>
        requires { Knows self.old before.now }
        ensures rules { rules self.new ≡ rules self.old }
        ensures first { IfOk result
            (λ why. why ≡ slice_get (broken_whys (rules self.old) before.now row.now) 0) }
        ensures knows { IfOk result
            (λ why. why ≡ None → Knows self.new (before.now ++ row.now ∷ [])) };
}
