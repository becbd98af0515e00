// The form of the rows of a waiting decision.
ghost use Rattle.std.specs.Prelude.{◌≡◌};
ghost use Rattle.std.specs.List.{list_all};
ghost use Rattle.propagation.specs.declared.step.Activity.{Activity};
ghost use Rattle.wait_choice.specs.Judged.{are_choices, cost_in, is_choice, is_cost, is_node, is_shaped};

use crate::ids::id_at;
use crate::row::WaitRow;
use propagation::Propagation;

/// Whether rows are a cost, a decision for each change in their order, and nodes.
pub(crate) fn is_shaped(problem: &Propagation, rows: &[WaitRow]) -> bool
    ensures { result ≡ is_shaped problem.now.changes rows.now }
{
    match rows.split_first() {
        None => false,
        Some((first, rest)) => is_cost(first) && are_choices(problem, rest),
    }
}

/// The cost that the first row tells.
pub(crate) fn cost_in(rows: &[WaitRow]) -> u64
    ensures { result ≡ cost_in rows.now }
{
    match rows.first() {
        Some(WaitRow::Cost { cost }) => *cost,
        _ => 0,
    }
}

// Whether rows are a decision for each change in their order, and then nodes.
fn are_choices(problem: &Propagation, rows: &[WaitRow]) -> bool
    ensures { result ≡ are_choices problem.now.changes rows.now }
{
    let count = problem.change_count();
    if rows.len() < count {
        return false;
    }
    for change in 0..count {
        if !is_choice(&rows[change], id_at(problem, change)) {
            return false;
        }
    }
    are_nodes(&rows[count..])
}

// Whether a row tells a cost.
fn is_cost(row: &WaitRow) -> bool
    ensures { result ≡ is_cost row.now }
{
    matches!(row, WaitRow::Cost { .. })
}

// Whether a row is a decision on the change of an id.
fn is_choice(row: &WaitRow, id: u64) -> bool
    ensures { (change : Activity) → id ≡ change.id → result ≡ is_choice row.now change }
{
    match row {
        WaitRow::Keep { id: said } | WaitRow::Drop { id: said } => *said == id,
        _ => false,
    }
}

// Whether all rows are nodes.
fn are_nodes(rows: &[WaitRow]) -> bool
    ensures { result ≡ list_all is_node rows.now }
{
    rows.iter().all(is_node)
}

// Whether a row is a node.
fn is_node(row: &WaitRow) -> bool
    ensures { result ≡ is_node row.now }
{
    matches!(row, WaitRow::Split { .. } | WaitRow::Leaf)
}
