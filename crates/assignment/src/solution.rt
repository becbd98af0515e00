// The whole solution over some links.
ghost use Rattle.std.specs.Prelude.{◌≡◌, IfOk};
ghost use Rattle.link_plans.specs.Links.{links_in};
ghost use Rattle.link_plans.specs.Plans.{IsFirstBest};
ghost use Rattle.link_plans.specs.Potentials.{AreValid};
ghost use Rattle.canonical_potentials.specs.Rounds.{canonical};

use crate::chosen::first_best_plan;
use canonical_potentials::canonical_potentials;
use link_plans::{LinkTable, Solved};
use plan_num::NoMemory;
use plan_search::best_plan;
use std::alloc::Global;

/// Of the plans that gain the most the one whose list of successors comes first, and its canonical
/// potentials, which prove that none gains more. So both are told by the links alone. The order is
/// that in which `best_plan` takes trips, from its last one on; it changes only how long this
/// takes.
pub fn solve(alloc: Global, links: &LinkTable, order: &[usize]) -> Result<Solved, NoMemory>
    ensures first { IfOk result (λ solved. IsFirstBest (links_in links.now) solved.plan) }
    ensures valid { IfOk result (λ solved.
        AreValid (links_in links.now) solved.plan solved.potentials) }
    ensures canonical { IfOk result (λ solved.
        solved.potentials ≡ canonical (links_in links.now) solved.plan) }
{
    let any = best_plan(alloc, links, order)?;
    let plan = first_best_plan(alloc, links, &any)?;
    let potentials = canonical_potentials(alloc, links, &plan, &any.potentials)?;
    Ok(Solved { plan, potentials })
}
