// The columns of the table of a waiting decision.
ghost use Rattle.std.specs.Prelude.{◌≡◌};
ghost use Rattle.wait_choice.specs.WaitTexts.{waits_columns};

use tables::{ColumnKind, cells};
use waiting_decisions::MOST_COST;

/// A word, an id or 0, and a number.
pub(crate) fn waits_columns() -> [ColumnKind; 3]
    ensures { result ≡ waits_columns }
{
    let [word, id] = cells!(word(WaitKind), ref);
    let value = ColumnKind::Whole {
        min: 0,
        max: MOST_COST as i64,
    };
    [word, id, value]
}
