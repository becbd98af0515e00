// The ids of changes.
ghost use Rattle.std.specs.Prelude.{◌≡◌, ◌==◌, ◌<◌, ◌≤◌, get_or, length, map, position, unwrap_or, IfOk};
ghost use Rattle.std.specs.List.Sorted.{IsStrictlyIncreasing};
ghost use Rattle.propagation.specs.declared.step.Activity.{Activity};

use plan_num::NoMemory;
use propagation::Propagation;
use std::alloc::Global;

/// The id of the change at an index.
pub(crate) fn id_at(problem: &Propagation, change: usize) -> u64
    requires { change < length problem.now.changes }
    ensures id { (d : Activity) → result ≡ (get_or problem.now.changes change d).id }
    ensures few { result ≤ 500000 }
{
    problem.change_id(change) as u64
}

/// The ids of all changes; they rise.
pub(crate) fn change_ids(alloc: Global, problem: &Propagation) -> Result<Vec<u64>, NoMemory>
    ensures ids { IfOk result
        (λ ids. ids.items ≡ map (λ change. change.id) problem.now.changes) }
    ensures rise { IfOk result (λ ids. IsStrictlyIncreasing ids.items) }
{
    let count = problem.change_count();
    let mut ids = Vec::with_capacity(alloc, count)?;
    for change in 0..count {
        ids.push(id_at(problem, change))?;
    }
    Ok(ids)
}

/// The index of an id among ids that rise, or how many there are where it is none of them.
pub(crate) fn index_of(ids: &[u64], id: u64) -> usize
    requires { IsStrictlyIncreasing ids.now }
    ensures { result ≡ unwrap_or (position (λ other. other == id) ids.now) (length ids.now) }
{
    match ids.binary_search(&id) {
        Ok(index) => index,
        Err(_) => ids.len(),
    }
}
