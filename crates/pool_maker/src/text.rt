// The text of a pool.
ghost use Rattle.std.specs.Prelude.{◌≡◌, ◌++◌, ◌<◌, ◌≤◌, ◌∷◌, [], length, IfOk, OnOk};
ghost use Rattle.std.specs.List.{flat_map};
ghost use Rattle.pool_maker.specs.PoolTexts.{edge_id, line_rows, pool_rows, row_at, text_of, uncovered_line};
ghost use Rattle.terminal_lines.specs.TerminalPaths.{IsShort, is_covered, uncovered, uncovered_among};
ghost use Rattle.pool_maker.specs.Tellable.{AreTellable};

use plan_num::{NoMemory, Text};
use ptn_network::Network;
use std::alloc::Global;
use tables::{Table, columns, write_table};
use terminal_lines::Path;

/// The text of the lines of a pool, numbered from 1, and behind them a comment for each edge that
/// no line has.
pub(crate) fn text_of_lines(
    alloc: Global,
    network: &Network,
    lines: &[Path],
) -> Result<Text, NoMemory>
    requires { AreTellable network.now lines.now }
    ensures { IfOk result (λ text. text ≡ text_of network.now lines.now) }
{
    let table = table_of_lines(alloc, network, lines)?;
    let text = write_table(alloc, b"# line-id; order; edge-id", &table, &columns!(Pool))?;
    let mut bytes = Vec::from_slice(alloc, text.as_bytes())?;
    push_uncovered(alloc, &mut bytes, network, lines)?;
    Ok(Text::from_vec(bytes))
}

// The rows of the lines.
fn table_of_lines(alloc: Global, network: &Network, lines: &[Path]) -> Result<Table<3>, NoMemory>
    requires { AreTellable network.now lines.now }
    ensures { IfOk result (λ table. table ≡ pool_rows network.now lines.now) }
{
    let mut table = Table::new(alloc);
    for (place, line) in lines.iter().enumerate() {
        push_line(&mut table, network, place + 1, line)?;
    }
    Ok(table)
}

// The rows of one line more, with its number: its edges in their order, the places from 1.
fn push_line(
    table: &mut Table<3>,
    network: &Network,
    number: usize,
    line: &Path,
) -> Result<(), NoMemory>
    requires number { number ≤ 190 }
    requires line { IsShort network.now line.now }
    ensures { OnOk result (table.new ≡ table.old ++ line_rows network.now (number, line.now)) }
{
    for (place, edge) in line.edges().iter().enumerate() {
        push_row(table, network, number, place + 1, *edge)?;
    }
    Ok(())
}

// One row more, of an edge at a place of a line.
fn push_row(
    table: &mut Table<3>,
    network: &Network,
    number: usize,
    place: usize,
    edge: usize,
) -> Result<(), NoMemory>
    requires number { number ≤ 190 }
    requires place { place ≤ 1000 }
    requires edge { edge < length network.now.edges }
    ensures { OnOk result (table.new ≡ table.old
        ++ row_at network.now number (place, edge) ∷ []) }
{
    table.push(0, &[number as i64, place as i64, edge_id(network, edge)])
}

// The id of an edge.
fn edge_id(network: &Network, edge: usize) -> i64
    requires { edge < length network.now.edges }
    ensures { result ≡ edge_id network.now edge }
{
    network.edge(edge).id
}

// A comment for each edge that no line has, by id rising.
fn push_uncovered(
    alloc: Global,
    bytes: &mut Vec<u8>,
    network: &Network,
    lines: &[Path],
) -> Result<(), NoMemory>
    ensures { OnOk result (bytes.new.items ≡ bytes.old.items
        ++ flat_map (uncovered_line network.now) (uncovered network.now lines.now)) }
{
    for edge in 0..network.edge_count() {
        push_comment(alloc, bytes, network, lines, edge)?;
    }
    Ok(())
}

// A comment for an edge, where no line has it.
fn push_comment(
    alloc: Global,
    bytes: &mut Vec<u8>,
    network: &Network,
    lines: &[Path],
    edge: usize,
) -> Result<(), NoMemory>
    requires { edge < length network.now.edges }
    ensures { OnOk result (bytes.new.items ≡ bytes.old.items
        ++ flat_map (uncovered_line network.now) (uncovered_among lines.now (edge ∷ []))) }
{
    if !is_covered(lines, edge) {
        let id = edge_id(network, edge);
        let comment = format!(in alloc; "# uncovered; {id}\n")?;
        bytes.extend_from_slice(comment.as_bytes())?;
    }
    Ok(())
}

// Whether a line has an edge.
fn is_covered(lines: &[Path], edge: usize) -> bool
    ensures { result ≡ is_covered lines.now edge }
{
    lines.iter().any(|line| line.has(edge))
}
