// Reading the costs of lines.
ghost use Rattle.std.specs.Prelude.{ℤ, ◌≡◌};
ghost use Rattle.std.specs.HashSet.{contains};
ghost use Rattle.std.specs.List.{list_any};
ghost use Rattle.std.specs.Ordering.{int_eq};
ghost use Rattle.tables.specs.Inputs.{UnlessFault, input_faults, records_of};
ghost use Rattle.evaluators.specs.StatisticInputs.{cost_input};

use crate::rows::CostRow;
use crate::seen_lines::note;
use plan_num::NoMemory;
use std::alloc::Global;
use std::collections::HashSet;
use tables::{FileId, RowTests, RowWhy, StageFault, columns, read_file};

/// The costs of lines of a text, or its first fault.
pub(crate) fn read_costs(alloc: Global, text: &[u8]) -> Result<Vec<CostRow>, StageFault>
    ensures { UnlessFault (input_faults cost_input text.now)
        (λ rows. rows.items ≡ records_of cost_input text.now) result }
{
    let tests = CostTests {
        seen: HashSet::new(alloc),
    };
    read_file(
        alloc,
        FileId::PoolCost,
        text,
        &columns!(PoolCost),
        None,
        tests,
    )
}

// The rule that each line has one row, with the lines so far.
#[derive(Drop)]
struct CostTests {
    seen: HashSet<i64>,
}

impl RowTests<CostRow> for CostTests {
    ghost rules = { λ _. cost_input.row_rules };

    ghost Knows = { λ tests before. (id : ℤ) → contains int_eq tests.seen id
        ≡ list_any (λ row. int_eq id row.line) before };

    fn test(&mut self, _before: &[CostRow], row: &CostRow) -> Result<Option<RowWhy>, NoMemory> {
        let is_new = note(&mut self.seen, row.line)?;
        Ok((!is_new).then_some(RowWhy::RepeatedId))
    }
}
