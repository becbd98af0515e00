// Texts of trees: what they are read as, what refuses them, and how they are written.
use branch_certificate::{Node, Tree, TreeReadFault, read_tree, write_tree};
use giv_files::{RowFault, RowWhy};
use line_cost_model::{Multipliers, Side};
use plan_num::Text;
use sample_problems::other_ids;
use std::alloc::Global;
use std::process::Abort;
use std::test::Fail;

// Each kind of node, as it is written.
const EACH_KIND: &[u8] = b"# kind; id; value; multiplier\n\
split; 9; 1; 0\nempty; 7; 0; 0\nempty; 4; 1; 0\nbound; 2; 0; 0\nmult; 4; 0; 12.5\n\
mult; 7; 0; 0.000001\nbound; 0; 0; 0\npoint; 0; 0; 0\nsplit; 3; 1000000000; 0\n";

// What a text is read as.
fn read(alloc: Global, text: &[u8]) -> Result<Tree, Fail> {
    let problem = other_ids(alloc)?;
    Ok(read_tree(alloc, text, &problem)?)
}

// Why it is refused, if it is.
fn fault_of(alloc: Global, text: &[u8]) -> Result<Option<TreeReadFault>, Fail> {
    let problem = other_ids(alloc)?;
    Ok(read_tree(alloc, text, &problem).err())
}

// How what it is read as is written.
fn written(alloc: Global, text: &[u8]) -> Result<Text, Fail> {
    let problem = other_ids(alloc)?;
    let tree = read_tree(alloc, text, &problem)?;
    Ok(write_tree(alloc, &problem, &tree)?)
}

// The line and the place of a split.
fn split_of(node: &Node) -> Option<(usize, u32)> {
    match node {
        Node::Split { line, at } => Some((*line, *at)),
        _ => None,
    }
}

// The edge and the side of an empty region.
fn empty_of(node: &Node) -> Option<(usize, Side)> {
    match node {
        Node::Empty { edge, side } => Some((*edge, *side)),
        _ => None,
    }
}

#[test]
fn splits_are_read(rt: HostRuntime) -> Result<(), Fail> {
    let tree = read(rt.alloc(), EACH_KIND)?;
    assert_eq!(rt; tree.len(), 7);
    assert!(rt; 6 < tree.len());
    assert_eq!(rt; split_of(tree.node(0)), Some((1, 1)));
    assert_eq!(rt; split_of(tree.node(6)), Some((0, 1_000_000_000)));
    Ok(())
}

#[test]
fn leaves_are_read(rt: HostRuntime) -> Result<(), Fail> {
    let tree = read(rt.alloc(), EACH_KIND)?;
    assert!(rt; 6 < tree.len());
    assert_eq!(rt; empty_of(tree.node(1)), Some((1, Side::Over)));
    assert_eq!(rt; empty_of(tree.node(2)), Some((0, Side::Under)));
    assert!(rt; matches!(tree.node(5), Node::Point));
    Ok(())
}

// The multipliers of a node are these.
fn has_multipliers(node: &Node, want: &[(usize, i64)]) -> bool {
    match node {
        Node::Bound { multipliers } => are_multipliers(multipliers, want),
        _ => false,
    }
}

fn are_multipliers(multipliers: &Multipliers, want: &[(usize, i64)]) -> bool {
    if multipliers.len() != want.len() {
        return false;
    }
    for place in 0..multipliers.len() {
        if multipliers.get(place) != want[place] {
            return false;
        }
    }
    true
}

#[test]
fn multipliers_are_read(rt: HostRuntime) -> Result<(), Fail> {
    let text = b"bound; 2; 0; 0\nmult; 4; 0; 12.5\nmult; 7; 0; 1000000000000\n";
    let tree = read(rt.alloc(), text)?;
    assert_eq!(rt; tree.len(), 1);
    assert!(rt; 0 < tree.len());
    let want = [(0, 12_500_000), (1, 1_000_000_000_000_000_000)];
    assert!(rt; has_multipliers(tree.node(0), &want));
    Ok(())
}

#[test]
fn what_is_read_is_written(rt: HostRuntime) -> Result<(), Fail> {
    assert_eq!(rt; written(rt.alloc(), EACH_KIND)?.as_bytes(), EACH_KIND);
    Ok(())
}

#[test]
fn a_tree_is_written(rt: HostRuntime) -> Result<(), Fail> {
    let problem = other_ids(rt.alloc())?;
    let mut multipliers = Multipliers::new(rt.alloc());
    multipliers.push(1, 250_000)?;
    let mut tree = Tree::new(rt.alloc());
    tree.push(Node::Split { line: 0, at: 2 })?;
    tree.push(Node::Bound { multipliers })?;
    assert_eq!(rt;
        write_tree(rt.alloc(), &problem, &tree)?.as_bytes(),
        b"# kind; id; value; multiplier\n\
split; 3; 2; 0\nbound; 1; 0; 0\nmult; 7; 0; 0.25\n"
            .as_slice()
    );
    Ok(())
}

// Texts, and the rows and the reasons of their refusals.
const UNKNOWN: [(&[u8], u64, RowWhy); 5] = [
    (b"split; 4; 0; 0\n", 1, RowWhy::UnknownLine),
    (b"point; 0; 0; 0\nempty; 3; 2; 7\n", 2, RowWhy::UnknownEdge),
    // The edge is looked at before the place of the row, and a cell before any row.
    (b"mult; 9; 1; 0\n", 1, RowWhy::UnknownEdge),
    (
        b"split; 4; 0; 0\nsplit; 3; 0; x\n",
        2,
        RowWhy::NotNumber { column: 4 },
    ),
    (b"\xff\x00; ;\xfe\n", 1, RowWhy::FieldCount { found: 3 }),
];

const OUT_OF_ORDER: [(&[u8], u64, RowWhy); 8] = [
    // A multiplier is not due; another row is not; one is due at the end.
    (b"bound; 0; 0; 0\nmult; 4; 0; 1\n", 2, RowWhy::OrderGap),
    (b"bound; 1; 0; 0\npoint; 0; 0; 0\n", 2, RowWhy::OrderGap),
    (b"bound; 2; 0; 0\nmult; 4; 0; 1\n", 0, RowWhy::OrderGap),
    // So many are due that never come.
    (b"bound; 1000000000; 0; 0\n", 0, RowWhy::OrderGap),
    (
        b"split; 3; 1; 0\npoint; 0; 0; 0\nbound; 1000000000; 0; 0\n",
        0,
        RowWhy::OrderGap,
    ),
    // An edge stays or falls, also by far; a multiplier is 0.
    (
        b"bound; 2; 0; 0\nmult; 4; 0; 1\nmult; 4; 0; 1\n",
        3,
        RowWhy::OrderGap,
    ),
    (
        b"bound; 2; 0; 0\nmult; 7; 0; 1\nmult; 4; 0; 1\n",
        3,
        RowWhy::OrderGap,
    ),
    (b"bound; 1; 0; 0\nmult; 4; 0; 0\n", 2, RowWhy::OrderGap),
];

const STRAY_CELLS: [(&[u8], u64, RowWhy); 8] = [
    (b"split; 3; 0; 1\n", 1, RowWhy::OrderGap),
    (b"empty; 4; 2; 0\n", 1, RowWhy::OrderGap),
    (b"empty; 4; 1; 0.5\n", 1, RowWhy::OrderGap),
    (b"bound; 0; 1; 0\n", 1, RowWhy::OrderGap),
    (b"bound; 0; 0; 1\n", 1, RowWhy::OrderGap),
    (b"point; 3; 0; 0\n", 1, RowWhy::OrderGap),
    (b"point; 0; 1; 0\n", 1, RowWhy::OrderGap),
    (b"point; 0; 0; 1\n", 1, RowWhy::OrderGap),
];

// Texts are refused by these rows.
fn are_refused(
    rt: &(impl AllocGlobal + Abort),
    cases: &[(&[u8], u64, RowWhy)],
) -> Result<(), Fail> {
    for (text, row, why) in cases {
        let told = fault_of(rt.alloc(), text)?;
        let want = RowFault {
            row: *row,
            why: *why,
        };
        assert_eq!(rt; told, Some(TreeReadFault::Row(want)));
    }
    Ok(())
}

#[test]
fn unknown_ids_are_refused(rt: HostRuntime) -> Result<(), Fail> {
    are_refused(&rt, &UNKNOWN)
}

#[test]
fn rows_out_of_order_are_refused(rt: HostRuntime) -> Result<(), Fail> {
    are_refused(&rt, &OUT_OF_ORDER)
}

#[test]
fn stray_cells_are_refused(rt: HostRuntime) -> Result<(), Fail> {
    are_refused(&rt, &STRAY_CELLS)
}
