// Writing a tree.
ghost use Rattle.std.specs.Prelude.{◌≡◌, ◌<◌, ◌++◌, ◌∷◌, [], length, pos, All, IfOk, OnOk};
ghost use Rattle.std.specs.List.{flat_map};
ghost use Rattle.tables.specs.Columns.{tree_columns};
ghost use Rattle.tables.specs.Writing.{InColumns, line_text};
ghost use Rattle.line_cost_model.specs.Multipliers.{AreMultipliers};
ghost use Rattle.line_cost_model.specs.Problems.{IsProblem};
ghost use Rattle.line_concepts.specs.declared.node.Node.TheVariants as node;
ghost use Rattle.branch_certificate.specs.TreeTexts.{CanBeWritten, IsSmallSplit};
ghost use Rattle.line_concepts.specs.Nodes.{NamesWhatIs};
ghost use Rattle.branch_certificate.specs.TreeTexts.{ReadsBackAs, cells_row, edge_id, line_id};
ghost use Rattle.branch_certificate.specs.TreeTexts.{node_rows, side_place, tree_header, tree_text};

use line_concepts::{Node, Tree};
use line_cost_model::{LineProblem, Multipliers, Side};
use plan_num::{NoMemory, Text};
use std::alloc::Global;
use tables::{columns, push_line};

/// The text of a tree over a line problem, which `read_tree` reads back. Each split of a node is at
/// 1,000,000,000 at most. It is written row by row, with no table of it.
pub fn write_tree(alloc: Global, problem: &LineProblem, tree: &Tree) -> Result<Text, NoMemory>
    requires names { All (NamesWhatIs problem.now) tree.now }
    requires small { All IsSmallSplit tree.now }
    ensures text { IfOk result (λ text. text ≡ tree_text problem.now tree.now) }
    ensures back { IfOk result (λ text. ReadsBackAs problem.now tree.now text) }
{
    // A count tells what always holds of a problem.
    let _ = problem.edge_count();
    let mut bytes = header_line(alloc)?;
    for i in 0..tree.len() {
        push_node(alloc, &mut bytes, problem, tree.node(i))?;
    }
    Ok(Text::from_vec(bytes))
}

/// The first line of the text of a tree.
pub(crate) fn header_line(alloc: Global) -> Result<Vec<u8>, NoMemory>
    ensures { IfOk result (λ bytes. bytes.items ≡ tree_header ++ 10 ∷ []) }
{
    let mut bytes = Vec::from_slice(alloc, b"# kind; id; value; multiplier")?;
    bytes.push(b'\n')?;
    Ok(bytes)
}

// The lines of a node go behind others.
fn push_node(
    alloc: Global,
    bytes: &mut Vec<u8>,
    problem: &LineProblem,
    node: &Node,
) -> Result<(), NoMemory>
    requires sound { IsProblem problem.now }
    requires names { NamesWhatIs problem.now node.now }
    requires small { IsSmallSplit node.now }
    ensures lines { OnOk result (bytes.new.items ≡ bytes.old.items
        ++ flat_map (line_text tree_columns) (node_rows problem.now node.now)) }
    ensures written { OnOk result (CanBeWritten node.now) }
{
    match node {
        Node::Split { line, at } => {
            push_row(
                alloc,
                bytes,
                0,
                id_of_line(problem, *line),
                i64::from(*at),
                0,
            )?;
        }
        Node::Empty { edge, side } => {
            push_row(
                alloc,
                bytes,
                1,
                id_of_edge(problem, *edge),
                place_of(*side),
                0,
            )?;
        }
        Node::Bound { multipliers } => push_bound(alloc, bytes, problem, multipliers)?,
        Node::Point => push_row(alloc, bytes, 4, 0, 0, 0)?,
    }
    Ok(())
}

// The lines of a bound: its own, and one for each multiplier.
fn push_bound(
    alloc: Global,
    bytes: &mut Vec<u8>,
    problem: &LineProblem,
    multipliers: &Multipliers,
) -> Result<(), NoMemory>
    requires sound { IsProblem problem.now }
    requires names { All
        (λ multiplier. multiplier.edge < length problem.now.edges) multipliers.now }
    ensures lines { OnOk result (bytes.new.items ≡ bytes.old.items
        ++ flat_map (line_text tree_columns) (node_rows problem.now (node.Bound multipliers.now))) }
    ensures sound { OnOk result (AreMultipliers multipliers.now) }
{
    push_row(alloc, bytes, 2, multipliers.len() as i64, 0, 0)?;
    for i in 0..multipliers.len() {
        let (edge, millionths) = multipliers.get(i);
        push_row(alloc, bytes, 3, id_of_edge(problem, edge), 0, millionths)?;
    }
    Ok(())
}

// The line of a row goes behind others.
fn push_row(
    alloc: Global,
    bytes: &mut Vec<u8>,
    kind: i64,
    id: i64,
    value: i64,
    multiplier: i64,
) -> Result<(), NoMemory>
    requires { InColumns tree_columns (cells_row kind id value multiplier).cells }
    ensures { OnOk result (bytes.new.items
        ≡ bytes.old.items ++ line_text tree_columns (cells_row kind id value multiplier)) }
{
    let cells = [kind, id, value, multiplier];
    push_line(alloc, bytes, &cells, &columns!(Tree))
}

// The id of the line of an index.
fn id_of_line(problem: &LineProblem, line: usize) -> i64
    requires { line < length problem.now.lines }
    ensures { result ≡ line_id problem.now line }
{
    problem.line_row(line).0
}

// The id of the edge of an index.
fn id_of_edge(problem: &LineProblem, edge: usize) -> i64
    requires { edge < length problem.now.edges }
    ensures { result ≡ edge_id problem.now edge }
{
    problem.edge_row(edge).0
}

// The place of a side.
fn place_of(side: Side) -> i64
    ensures { result ≡ pos (side_place side) }
{
    match side {
        Side::Over => 0,
        Side::Under => 1,
    }
}
