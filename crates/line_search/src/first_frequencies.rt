// The rule that each row of a planner's concept has the frequency of its line's first row.
ghost use Rattle.std.specs.Prelude.{◌≡◌, ℤ, Some, None, if◌then◌else◌, IfOk, OnOk, ⊤};
ghost use Rattle.std.specs.Option.{option_or};
ghost use Rattle.std.specs.Ordering.{int_eq};
ghost use Rattle.std.specs.HashMap.{get};
ghost use Rattle.tables.specs.Inputs.{table_row_faults, UnlessFault};
ghost use Rattle.line_walks.specs.Pools.{differs};
ghost use Rattle.line_cost_model.specs.Problems.{ProblemParts};
ghost use Rattle.line_search.specs.PinnedConcepts.{pinned_input};

use plan_num::NoMemory;
use std::alloc::Global;
use std::collections::HashMap;
use tables::{FileId, Refusal, RowWhy, StageFault, Table};

/// Refuses the first row with another frequency than its line's first row. What the pool is makes
/// no difference.
pub(crate) fn test_frequencies(alloc: Global, table: &Table<4>) -> Result<(), StageFault>
    ensures { (problem : ProblemParts)
        → UnlessFault (table_row_faults (pinned_input problem) table.now) (λ _. ⊤) result }
{
    let mut first = HashMap::new(alloc);
    for row in 0..table.len() {
        if differs_from_first(&mut first, table.cell(row, 0), table.cell(row, 3))? {
            return Err(StageFault::Refused(Refusal::BadRow {
                file: FileId::PinnedConcept,
                row: table.number(row),
                why: RowWhy::FrequencyDiffers,
            }));
        }
    }
    Ok(())
}

// Whether a line has another frequency than in its first row. Where it had none so far, this one
// is its first from now on.
fn differs_from_first(
    first: &mut HashMap<i64, i64>,
    line: i64,
    frequency: i64,
) -> Result<bool, NoMemory>
    ensures tells { IfOk result
        (λ is_other. is_other ≡ differs frequency (get int_eq first.old line)) }
    ensures knows { OnOk result ((other : ℤ) → get int_eq first.new other
        ≡ option_or (get int_eq first.old other)
        (if int_eq other line then Some frequency else None)) }
{
    match known(first, line) {
        Some(known) => Ok(frequency != known),
        None => {
            first.insert(line, frequency)?;
            Ok(false)
        }
    }
}

// What is known of a line.
fn known(first: &HashMap<i64, i64>, line: i64) -> Option<i64>
    ensures { result ≡ get int_eq first.now line }
{
    first.get(&line).copied()
}
