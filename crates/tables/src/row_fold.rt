// What is made of the rows of a table, one after the other.
ghost use Rattle.std.specs.Prelude.{ℤ, ◌≡◌, ◌<◌, ◌++◌, ◌∷◌, List, [], IfOk, length, slice_get, slice_index_or, take, None};
ghost use Rattle.tables.specs.Inputs.{RowRule, broken_whys};
ghost use Rattle.tables.specs.RowsOfTables.{records_by};
ghost use Rattle.tables.specs.Tables.{TableRow, no_row};

use crate::row_why::RowWhy;
use crate::table::Table;
use plan_num::NoMemory;

/// A fold over the rows of a table: each row is tested by rules, and goes then into what is made of
/// the rows so far.
pub trait RowFold<const C: usize, X, S> {
    /// What the cells of a row stand for.
    ghost of_cells: { List ℤ → X };

    /// The rules of the rows.
    ghost rules: { Self → S → List (RowRule X) };

    /// What holds of a table whose rows may be taken.
    ghost Fits: { Self → List TableRow → Type 0 };

    /// What is known of what is made of some rows.
    ghost Knows: { Self → S → List X → Type 0 };

    /// Takes the row at an index after the rows before it, or tells the first rule that it breaks.
    fn take_row(
        &self,
        made: &mut S,
        table: &Table<C>,
        index: usize,
    ) -> Result<Option<RowWhy>, NoMemory>
        requires row_in { index < length table.now }
        requires fits { Fits self.now table.now }
        requires knows { Knows self.now made.old (records_by of_cells (take index table.now)) }
        ensures rules { IfOk result (λ _. rules self.now made.new ≡ rules self.now made.old) }
        ensures first { IfOk result (λ why. why
            ≡ slice_get (broken_whys (rules self.now made.old)
            (records_by of_cells (take index table.now))
            (of_cells (slice_index_or table.now index no_row).cells)) 0) }
        ensures knows { IfOk result (λ why. why ≡ None
            → Knows self.now made.new (records_by of_cells (take index table.now)
            ++ of_cells (slice_index_or table.now index no_row).cells ∷ [])) };
}
