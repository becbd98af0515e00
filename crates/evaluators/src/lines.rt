// The values of the line concept.
ghost use Rattle.std.specs.Prelude.{◌≡◌, ◌≤◌, nat_lt, length, filter, All};
ghost use Rattle.std.specs.List.{sum_by};
ghost use Rattle.tables.specs.Inputs.{UnlessFault};
ghost use Rattle.evaluators.specs.CostedLines.{runs_cost};
ghost use Rattle.evaluators.specs.StatisticStage.{line_faults, lines_in};

use crate::concept::read_concept;
use crate::costed_line::CostedLine;
use crate::costs::read_costs;
use crate::line_values::LineValues;
use std::alloc::Global;
use tables::StageFault;

/// The values of the texts of costs and of the line concept, or their first fault.
pub(crate) fn line_values(
    alloc: Global,
    costs_text: &[u8],
    concept_text: &[u8],
) -> Result<LineValues, StageFault>
    ensures { UnlessFault (line_faults costs_text.now concept_text.now)
        (λ values. values ≡ lines_in costs_text.now concept_text.now) result }
{
    let costs = read_costs(alloc, costs_text)?;
    let lines = read_concept(alloc, &costs, concept_text)?;
    Ok(LineValues {
        cost: cost_of_lines(&lines),
        running: running_lines(&lines),
    })
}

// What the runs of lines cost.
fn cost_of_lines(lines: &[CostedLine]) -> u128
    requires few { length lines.now ≤ 200 }
    requires small { All (λ line. runs_cost line ≤ 1000000000000000000000) lines.now }
    ensures { result ≡ sum_by runs_cost lines.now }
{
    let mut sum = 0;
    for line in lines {
        sum += line.cost_of_runs();
    }
    sum
}

// How many lines run.
fn running_lines(lines: &[CostedLine]) -> u64
    ensures { result ≡ length (filter (λ line. nat_lt 0 line.frequency) lines.now) }
{
    let mut count = 0;
    for line in lines {
        if line.frequency > 0 {
            count += 1;
        }
    }
    count
}
