// Reading the rows of a pool, line by line.
ghost use Rattle.std.specs.Prelude.{◌≡◌, ◌+◌, ◌<◌, ◌≤◌, ℤ, pos, true, not, List, [], length, map, slice_get, slice_set, slice_index_or, position, vec_len, Some, IfOk, OnOk, MatchResult};
ghost use Rattle.std.specs.List.{list_any, IsDistinct};
ghost use Rattle.std.specs.Ordering.{int_eq};
ghost use Rattle.tables.specs.Inputs.{records, table_row_faults, broken_whys, UnlessFault};
ghost use Rattle.walks.specs.RisingIds.{rising};
ghost use Rattle.line_walks.specs.declared.line_row.LineRow.{LineRow};
ghost use Rattle.line_walks.specs.Pools.{line_input, line_rules, rows_of};
ghost use Rattle.line_walks.specs.LinesSoFar.{no_line, with_edge, line_so_far, whole_line, lines_in, StandsAt};

use crate::line_file::LineFile;
use crate::line_row::LineRow;
use crate::line_so_far::LineSoFar;
use crate::pool::Line;
use indexmap::IndexSet;
use plan_num::NoMemory;
use ptn_network::{Edge, Network};
use std::alloc::Global;
use std::collections::HashSet;
use tables::{Refusal, RowWhy, StageFault, Table};

/// The ids of the lines of a table, rising.
pub(crate) fn line_ids<const C: usize>(
    alloc: Global,
    table: &Table<C>,
) -> Result<IndexSet<i64>, NoMemory>
    requires { 3 ≤ C }
    ensures rising { IfOk result (λ ids. ids.keys ≡ rising (lines_in table.now)) }
    ensures there { IfOk result (λ ids. (id : ℤ) → list_any (int_eq id) ids.keys ≡ list_any (int_eq id) (lines_in table.now)) }
    ensures distinct { IfOk result (λ ids. IsDistinct int_eq ids.keys) }
{
    let mut ids = IndexSet::new(alloc);
    for i in 0..table.len() {
        ids.insert(table.cell(i, 0))?;
    }
    ids.sort()?;
    Ok(ids)
}

/// The lines of some ids after the rows of a table, or the first row that breaks a rule.
pub(crate) fn lines_of_rows<const C: usize>(
    alloc: Global,
    network: &Network,
    kind: LineFile,
    ids: &IndexSet<i64>,
    table: &Table<C>,
) -> Result<Vec<LineSoFar>, StageFault>
    requires wide { 3 ≤ C }
    requires there { (id : ℤ) → list_any (int_eq id) ids.now.keys ≡ list_any (int_eq id) (lines_in table.now) }
    requires distinct { IsDistinct int_eq ids.now.keys }
    ensures { UnlessFault (table_row_faults (line_input kind network.now.edges) table.now)
        (λ lines. lines.items ≡ map (line_so_far network.now.edges (records (line_input kind network.now.edges) table.now)) ids.now.keys) result }
{
    let mut lines = no_lines(alloc, ids)?;
    let mut pairs = HashSet::new(alloc);
    for i in 0..table.len() {
        let row = LineRow::read(table, i);
        let is_new = pairs.insert((row.line, row.edge))?;
        let place = place_of(ids, row.line);
        match new_edge(network, &lines[place], is_new, &row) {
            Ok(index) => add_at(&mut lines, place, index, network.edge(index), row.frequency)?,
            Err(why) => {
                return Err(StageFault::Refused(Refusal::BadRow {
                    file: kind.id(),
                    row: table.number(i),
                    why,
                }));
            }
        }
    }
    Ok(lines)
}

// The lines of some ids before the first row.
fn no_lines(alloc: Global, ids: &IndexSet<i64>) -> Result<Vec<LineSoFar>, NoMemory>
    ensures { IfOk result (λ lines. lines.items ≡ map no_line ids.now.keys) }
{
    let mut lines = Vec::new(alloc);
    for id in ids.as_slice() {
        lines.push(LineSoFar::new(alloc, *id))?;
    }
    Ok(lines)
}

// One edge more in the line at a place.
fn add_at(
    lines: &mut Vec<LineSoFar>,
    place: usize,
    index: usize,
    edge: Edge,
    frequency: i64,
) -> Result<(), NoMemory>
    requires { place < vec_len lines.old }
    ensures { OnOk result (lines.new.items ≡ slice_set lines.old.items place (with_edge (slice_index_or lines.old.items place (no_line (pos 0))) index edge frequency)) }
{
    lines[place].add(index, edge, frequency)
}

// The place of an id that is there.
fn place_of(ids: &IndexSet<i64>, id: i64) -> usize
    requires { list_any (int_eq id) ids.now.keys ≡ true }
    ensures { position (int_eq id) ids.now.keys ≡ Some result }
{
    match ids.get_index_of(&id) {
        Some(place) => place,
        None => unreachable!(),
    }
}

// The index of the edge of a row after the rows of its line so far, or why the row is refused.
// Whether the edge is new in the line is told.
fn new_edge(
    network: &Network,
    line: &LineSoFar,
    is_new: bool,
    row: &LineRow,
) -> Result<usize, RowWhy>
    ensures { (before : List LineRow) → line.now ≡ line_so_far network.now.edges before row.now.line
        → is_new ≡ not (list_any (λ other. int_eq row.now.edge other.edge) (rows_of row.now.line before))
        → MatchResult result
        (λ index. (broken_whys (line_rules network.now.edges) before row.now ≡ []) × StandsAt network.now.edges row.now.edge index)
        (λ why. slice_get (broken_whys (line_rules network.now.edges) before row.now) 0 ≡ Some why) }
{
    let Some(index) = network.edge_index(row.edge) else {
        return Err(RowWhy::UnknownEdge);
    };
    if !is_next(row.order, line.len()) {
        return Err(RowWhy::OrderGap);
    }
    if !is_new {
        return Err(RowWhy::RepeatedEdge);
    }
    if !line.ends_after(&network.edge(index)).is_walk() {
        return Err(RowWhy::BrokenLine);
    }
    if line.differs(row.frequency) {
        return Err(RowWhy::FrequencyDiffers);
    }
    Ok(index)
}

// A place comes next after some edges.
fn is_next(order: i64, count: usize) -> bool
    ensures { result ≡ int_eq order (pos (count + 1)) }
{
    i128::from(order) == count as i128 + 1
}

/// The whole lines.
pub(crate) fn whole_lines(alloc: Global, lines: Vec<LineSoFar>) -> Result<Vec<Line>, NoMemory>
    ensures { IfOk result (λ whole. whole.items ≡ map whole_line lines.items) }
{
    let mut whole = Vec::new(alloc);
    for line in lines {
        whole.push(line.into_line(alloc)?)?;
    }
    Ok(whole)
}
