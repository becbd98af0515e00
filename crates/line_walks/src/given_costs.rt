// Costs that a file gives the lines of a pool.
ghost use Rattle.std.specs.Prelude.{◌≡◌, ◌<◌, ⊤, length, slice_get, not, option_map};
ghost use Rattle.std.specs.Prelude.{if◌then◌else◌, None, Some, IfOk};
ghost use Rattle.std.specs.List.{find, list_any, All};
ghost use Rattle.std.specs.Ordering.{int_eq};
ghost use Rattle.tables.specs.Inputs.{input_faults, UnlessFault};
ghost use Rattle.line_walks.specs.GivenCosts.{cost_for, costs_over, costs_of, IsCost};
ghost use Rattle.line_walks.specs.PoolCosts.{pool_cost_input};

use crate::cost_row::CostRow;
use crate::pool::Pool;
use plan_num::NoMemory;
use std::alloc::Global;
use std::marker::Model;
use tables::{FileId, Refusal, RowTests, RowWhy, StageFault, columns, read_file};

/// The costs of the lines of a pool in millionths, in the order of the lines. Contracts see it as
/// the list of them.
#[derive(Debug, Drop)]
pub struct LineCosts {
    costs: Vec<i64>,
}

impl Model for LineCosts {
    ghost use Rattle.std.specs.Prelude.{List, ℤ};
    ghost use Rattle.std.specs.List.{All};
    ghost use Rattle.line_walks.specs.GivenCosts.{IsCost};

    ghost Value = { List ℤ };

    ghost view = { λ costs. costs.costs.items };

    ghost invariant = { λ costs. All IsCost costs.costs.items };
}

impl LineCosts {
    /// The costs of the lines of a pool by a text, or the first fault of the text.
    pub fn from_text(alloc: Global, pool: &Pool, text: &[u8]) -> Result<LineCosts, StageFault>
        ensures { UnlessFault (input_faults (pool_cost_input pool.now) text.now)
            (λ costs. costs ≡ costs_of pool.now text.now) result }
    {
        let tests = CostTests { pool };
        let rows = read_file(
            alloc,
            FileId::PoolCost,
            text,
            &columns!(PoolCost),
            None,
            tests,
        )?;
        match all_costs(alloc, pool, &rows)? {
            Some(costs) => Ok(LineCosts { costs }),
            None => Err(StageFault::Refused(Refusal::BadRow {
                file: FileId::PoolCost,
                row: 0,
                why: RowWhy::MissingLine,
            })),
        }
    }

    /// How many costs there are: one for each line.
    pub fn len(&self) -> usize
        ensures count { result ≡ length self.now }
        ensures sound { All IsCost self.now }
    {
        self.costs.len()
    }

    /// The cost of the line at a place.
    pub fn get(&self, line: usize) -> i64
        requires { line < length self.now }
        ensures place { slice_get self.now line ≡ Some result }
        ensures sound { IsCost result }
    {
        self.costs[line]
    }
}

// The rules of the rows of costs of the lines of a pool.
#[derive(Drop)]
struct CostTests<'a> {
    pool: &'a Pool,
}

impl<'a> RowTests<CostRow> for CostTests<'a> {
    ghost rules = { λ tests. (pool_cost_input tests.pool.now).row_rules };

    ghost Knows = { λ _ _. ⊤ };

    fn test(&mut self, before: &[CostRow], row: &CostRow) -> Result<Option<RowWhy>, NoMemory> {
        if !has_line(self.pool, row.line) {
            return Ok(Some(RowWhy::UnknownLine));
        }
        Ok(has_row(before, row.line).then_some(RowWhy::RepeatedId))
    }
}

// Whether one of some rows is that of the line of an id.
fn has_row(rows: &[CostRow], id: i64) -> bool
    ensures { result ≡ list_any (λ row. int_eq id row.line) rows.now }
{
    rows.iter().any(|row| id == row.line)
}

// Whether a pool has the line of an id.
fn has_line(pool: &Pool, id: i64) -> bool
    ensures { result ≡ list_any (λ line. int_eq id line.id) pool.now }
{
    for line in 0..pool.line_count() {
        if has_id(pool, line, id) {
            return true;
        }
    }
    false
}

// Whether the line at a place has an id.
fn has_id(pool: &Pool, line: usize, id: i64) -> bool
    requires { line < length pool.now }
    ensures { option_map (λ at. int_eq id at.id) (slice_get pool.now line) ≡ Some result }
{
    pool.line_id(line) == id
}

// The costs of all lines, where each has one.
fn all_costs(alloc: Global, pool: &Pool, rows: &[CostRow]) -> Result<Option<Vec<i64>>, NoMemory>
    ensures { IfOk result (λ all. option_map (λ costs. costs.items) all
        ≡ (if list_any (λ line. not (list_any (λ row. int_eq line.id row.line) rows.now)) pool.now
        then None else Some (costs_over pool.now rows.now))) }
{
    let mut costs = Vec::new(alloc);
    for line in 0..pool.line_count() {
        match cost_of_line(pool, rows, line) {
            None => return Ok(None),
            Some(cost) => costs.push(cost)?,
        }
    }
    Ok(Some(costs))
}

// The cost that rows give the line at a place.
fn cost_of_line(pool: &Pool, rows: &[CostRow], line: usize) -> Option<i64>
    requires { line < length pool.now }
    ensures { option_map (λ at. cost_for at.id rows.now) (slice_get pool.now line) ≡ Some result }
{
    cost_for(rows, pool.line_id(line))
}

// The cost that rows give the line of an id.
fn cost_for(rows: &[CostRow], id: i64) -> Option<i64>
    ensures { result ≡ cost_for id rows.now }
{
    match row_of(rows, id) {
        Some(row) => Some(row.cost),
        None => None,
    }
}

// The first row of the line of an id.
fn row_of(rows: &[CostRow], id: i64) -> Option<CostRow>
    ensures { result ≡ find (λ row. int_eq id row.line) rows.now }
{
    rows.iter().copied().find(|row| id == row.line)
}
