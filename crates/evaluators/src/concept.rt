// Reading the line concept over the costs of lines.
ghost use Rattle.std.specs.Prelude.{◌≡◌, ◌<◌, ⊤, length, map, take, slice_get, slice_index_or, option_map, Some, IfOk};
ghost use Rattle.std.specs.List.{find};
ghost use Rattle.std.specs.Ordering.{int_eq};
ghost use Rattle.tables.specs.Inputs.{UnlessFault, broken_whys, input_faults, records, records_of, table_faults};
ghost use Rattle.tables.specs.Tables.{no_row};
ghost use Rattle.evaluators.specs.CostedLines.{costed};
ghost use Rattle.evaluators.specs.StatisticInputs.{concept_input, cost_with, line_row, lines_of};

use crate::costed_line::CostedLine;
use crate::first_rows::first_rows;
use crate::rows::{CostRow, LineRow};
use plan_num::NoMemory;
use std::alloc::Global;
use tables::{
    Counted, FileId, Refusal, RowFold, RowWhy, StageFault, Table, columns, fold_rows, read_input,
};

const MOST_LINES: usize = 200;

/// The lines of a concept with their costs, or the first fault of its text.
pub(crate) fn read_concept(
    alloc: Global,
    costs: &[CostRow],
    text: &[u8],
) -> Result<Vec<CostedLine>, StageFault>
    ensures { UnlessFault (input_faults (concept_input costs.now) text.now)
        (λ lines. lines.items ≡ map (costed costs.now)
        (lines_of (records_of (concept_input costs.now) text.now))) result }
{
    let table = read_input(alloc, FileId::Concept, text, &columns!(Concept))?;
    lines_of_table(alloc, costs, &table)
}

// The lines of a table with their costs, or its first fault.
fn lines_of_table(
    alloc: Global,
    costs: &[CostRow],
    table: &Table<4>,
) -> Result<Vec<CostedLine>, StageFault>
    ensures { UnlessFault (table_faults (concept_input costs.now) table.now)
        (λ lines. lines.items ≡ map (costed costs.now)
        (lines_of (records (concept_input costs.now) table.now))) result }
{
    let firsts = first_rows(alloc, table)?;
    if firsts.len() > MOST_LINES {
        return Err(StageFault::Refused(Refusal::TooMany {
            what: Counted::Lines,
            count: firsts.len() as u64,
        }));
    }
    let lines = costed_lines(alloc, costs, &firsts)?;
    let tests = LineTests {
        costs,
        lines: &lines,
    };
    fold_rows(FileId::Concept, table, &tests, ())?;
    Ok(lines)
}

// Lines with their costs.
fn costed_lines(
    alloc: Global,
    costs: &[CostRow],
    lines: &[LineRow],
) -> Result<Vec<CostedLine>, NoMemory>
    ensures { IfOk result (λ all. all.items ≡ map (costed costs.now) lines.now) }
{
    let mut all = Vec::new(alloc);
    for line in lines {
        all.push(CostedLine {
            line: line.line,
            frequency: line.frequency,
            cost: cost_of(costs, line.line),
        })?;
    }
    Ok(all)
}

// The cost of a line, where it has one.
fn cost_of(costs: &[CostRow], line: i64) -> Option<u64>
    ensures { result ≡ option_map (λ row. row.cost) (cost_with costs.now line) }
{
    match cost_with(costs, line) {
        Some(row) => Some(row.cost),
        None => None,
    }
}

// The row of a line among costs, where it has one.
fn cost_with(costs: &[CostRow], line: i64) -> Option<CostRow>
    ensures { result ≡ cost_with costs.now line }
{
    costs.iter().copied().find(|row| line == row.line)
}

// The rules of rows, by the lines of all rows with their costs.
#[derive(Drop)]
struct LineTests<'a> {
    costs: &'a [CostRow],
    lines: &'a [CostedLine],
}

impl<'a> RowFold<4, LineRow, ()> for LineTests<'a> {
    ghost of_cells = { line_row };

    ghost rules = { λ tests _. (concept_input tests.costs.now).row_rules };

    ghost Fits = { λ tests table. tests.lines.now ≡ map (costed tests.costs.now)
        (lines_of (records (concept_input tests.costs.now) table)) };

    ghost Knows = { λ _ _ _. ⊤ };

    fn take_row(
        &self,
        _made: &mut (),
        table: &Table<4>,
        index: usize,
    ) -> Result<Option<RowWhy>, NoMemory> {
        Ok(broken_rule(self.costs, self.lines, table, index))
    }
}

// The first rule that the row at an index breaks after the rows before it.
fn broken_rule(
    costs: &[CostRow],
    lines: &[CostedLine],
    table: &Table<4>,
    index: usize,
) -> Option<RowWhy>
    requires lines { lines.now ≡ map (costed costs.now)
        (lines_of (records (concept_input costs.now) table.now)) }
    requires there { index < length table.now }
    ensures { result ≡ slice_get (broken_whys (concept_input costs.now).row_rules
        (records (concept_input costs.now) (take index table.now))
        (line_row (slice_index_or table.now index no_row).cells)) 0 }
{
    let row = LineRow::read(table, index);
    match line_with(lines, row.line) {
        None => unreachable!(),
        Some(line) => line.broken_by(row.frequency),
    }
}

// A line among lines with their costs, where it is there.
fn line_with(lines: &[CostedLine], line: i64) -> Option<CostedLine>
    ensures { result ≡ find (λ costed. int_eq line costed.line) lines.now }
{
    lines.iter().copied().find(|costed| line == costed.line)
}
