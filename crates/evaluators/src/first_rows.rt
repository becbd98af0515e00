// The first rows of lines, and of vehicles.
ghost use Rattle.std.specs.Prelude.{◌≡◌, ◌≤◌, pos, length, map, IfOk};
ghost use Rattle.std.specs.List.{list_any};
ghost use Rattle.std.specs.Ordering.{int_eq};
ghost use Rattle.evaluators.specs.FirstRows.{firsts};
ghost use Rattle.evaluators.specs.StatisticInputs.{line_row, lines_of};

use crate::rows::LineRow;
use crate::seen_lines::note;
use event_tables::ScheduleRow;
use plan_num::NoMemory;
use std::alloc::Global;
use std::collections::HashSet;
use tables::Table;

/// The first row of each line.
pub(crate) fn first_rows(alloc: Global, table: &Table<4>) -> Result<Vec<LineRow>, NoMemory>
    ensures { IfOk result (λ rows. rows.items
        ≡ lines_of (map (λ row. line_row row.cells) table.now)) }
{
    let mut seen = HashSet::new(alloc);
    let mut firsts = Vec::new(alloc);
    for i in 0..table.len() {
        let row = LineRow::read(table, i);
        if note(&mut seen, row.line)? {
            firsts.push(row)?;
        }
    }
    Ok(firsts)
}

/// How many different vehicles rows have.
pub(crate) fn vehicle_count(alloc: Global, rows: &[ScheduleRow]) -> Result<u64, NoMemory>
    ensures count { IfOk result
        (λ count. count ≡ length (firsts (λ row. pos row.vehicle) rows.now)) }
    ensures few { IfOk result (λ count. count ≤ length rows.now) }
{
    let mut seen = HashSet::new(alloc);
    let mut count = 0;
    for row in rows {
        if note(&mut seen, i64::from(row.vehicle))? {
            count += 1;
        }
    }
    Ok(count)
}
