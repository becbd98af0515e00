// The rules of a waiting decision from any hand, in their order.
ghost use Rattle.std.specs.Prelude.{◌≡◌, List, pos, map, option_map, slice_get, IfOk};
ghost use Rattle.std.specs.Ordering.{int_eq};
ghost use Rattle.std.specs.List.Sorted.{IsStrictlyIncreasing};
ghost use Rattle.propagation.specs.declared.step.Activity.{Activity};
ghost use Rattle.waiting_decisions.specs.Choices.{cost_of};
ghost use Rattle.wait_choice.specs.Judged.{broken_nodes, broken_rows, first_broken_rule, keeps, node_said, rule_of};

use crate::ids::{change_ids, index_of};
use crate::row::WaitRow;
use crate::rows::rows_in;
use crate::rule::WaitRule;
use crate::shape::{cost_in, is_shaped};
use plan_num::NoMemory;
use propagation::Propagation;
use std::alloc::Global;
use waiting_decisions::{TreeFault, WaitNode, cost_of, judge_nodes};

/// The first rule that a text breaks at a penalty in minutes.
pub(crate) fn first_broken_rule(
    alloc: Global,
    problem: &Propagation,
    penalty: u32,
    text: &[u8],
) -> Result<Option<WaitRule>, NoMemory>
    ensures { IfOk result
        (λ answer. answer ≡ first_broken_rule problem.now penalty text.now) }
{
    match rows_in(alloc, text)? {
        None => Ok(Some(WaitRule::Row)),
        Some(rows) => rows_rule(alloc, problem, penalty, &rows),
    }
}

// The first rule that rows break.
fn rows_rule(
    alloc: Global,
    problem: &Propagation,
    penalty: u32,
    rows: &[WaitRow],
) -> Result<Option<WaitRule>, NoMemory>
    ensures { IfOk result
        (λ answer. answer ≡ slice_get (broken_rows problem.now penalty rows.now) 0) }
{
    if !is_shaped(problem, rows) {
        return Ok(Some(WaitRule::Shape));
    }
    let cost = cost_in(rows);
    let (choices, nodes) = rows[1..].split_at(problem.change_count());
    if !costs(alloc, problem, penalty, choices, cost)? {
        return Ok(Some(WaitRule::Cost));
    }
    nodes_rule(alloc, problem, penalty, cost, nodes)
}

// Whether the set of changes that rows keep costs so much.
fn costs(
    alloc: Global,
    problem: &Propagation,
    penalty: u32,
    choices: &[WaitRow],
    cost: u64,
) -> Result<bool, NoMemory>
    ensures { IfOk result (λ is. is
        ≡ int_eq (pos cost) (cost_of problem.now penalty (map keeps choices.now))) }
{
    let kept = kept_in(alloc, choices)?;
    let sum = cost_of(alloc, problem, penalty, &kept)?;
    Ok(i128::from(cost) == sum)
}

// Whether rows keep their changes.
fn kept_in(alloc: Global, choices: &[WaitRow]) -> Result<Vec<bool>, NoMemory>
    ensures { IfOk result (λ kept. kept.items ≡ map keeps choices.now) }
{
    let mut kept = Vec::with_capacity(alloc, choices.len())?;
    for choice in choices {
        kept.push(keeps(choice))?;
    }
    Ok(kept)
}

// Whether a row keeps its change.
fn keeps(row: &WaitRow) -> bool
    ensures { result ≡ keeps row.now }
{
    matches!(row, WaitRow::Keep { .. })
}

// The first rule that rows of nodes break for a cost.
fn nodes_rule(
    alloc: Global,
    problem: &Propagation,
    penalty: u32,
    cost: u64,
    nodes: &[WaitRow],
) -> Result<Option<WaitRule>, NoMemory>
    ensures { IfOk result (λ answer. answer ≡ slice_get (broken_nodes problem.now penalty (pos cost)
        (map (node_said problem.now.changes) nodes.now)) 0) }
{
    if nodes.is_empty() {
        return Ok(None);
    }
    let said = nodes_said(alloc, problem, nodes)?;
    let fault = judge_nodes(alloc, problem, penalty, cost, &said)?;
    Ok(rule_of(fault))
}

// The rule that a fault of nodes breaks.
fn rule_of(fault: Option<TreeFault>) -> Option<WaitRule>
    ensures { result ≡ option_map rule_of fault }
{
    match fault {
        None => None,
        Some(TreeFault::NotWhole) => Some(WaitRule::Tree),
        Some(TreeFault::LowLeaf) => Some(WaitRule::Leaf),
    }
}

// The nodes of rows.
fn nodes_said(
    alloc: Global,
    problem: &Propagation,
    rows: &[WaitRow],
) -> Result<Vec<WaitNode>, NoMemory>
    ensures { IfOk result
        (λ nodes. nodes.items ≡ map (node_said problem.now.changes) rows.now) }
{
    let ids = change_ids(alloc, problem)?;
    let mut nodes = Vec::with_capacity(alloc, rows.len())?;
    for row in rows {
        nodes.push(node_said(&ids, row))?;
    }
    Ok(nodes)
}

// The node of a row, over the ids of changes.
fn node_said(ids: &[u64], row: &WaitRow) -> WaitNode
    requires { IsStrictlyIncreasing ids.now }
    ensures { (changes : List Activity) → ids.now ≡ map (λ change. change.id) changes
        → result ≡ node_said changes row.now }
{
    match row {
        WaitRow::Split { id } => WaitNode::Split {
            change: index_of(ids, *id),
        },
        _ => WaitNode::Leaf,
    }
}
