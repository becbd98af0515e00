// Plans that are tight under potentials.
ghost use Rattle.std.specs.Prelude.{◌≡◌, ◌<◌, length, None, IfOk};
ghost use Rattle.link_plans.specs.Links.{links_in};
ghost use Rattle.link_plans.specs.Plans.{next};
ghost use Rattle.plan_search.specs.Growing.{IsTaken};
ghost use Rattle.plan_search.specs.Trees.{IsRooted, TakesIn};

use crate::claim::Claims;
use crate::near::{Nears, forget};
use crate::tree::Tree;
use link_plans::{Assignment, LinkTable, Potentials, cover};
use plan_num::NoMemory;
use std::alloc::Global;
use std::marker::Model;

/// A plan that is tight under potentials: each of its links gains exactly the potentials of its two
/// ends, and where a trip or a place has no link its potential is 0. The potentials cover the links
/// of each trip that has a place. Beside them stands the room in which trees grow, so that it is
/// taken once.
pub(crate) struct TightPlan<'a> {
    pub(crate) links: &'a LinkTable,
    pub(crate) plan: Assignment,
    pub(crate) potentials: Potentials,
    pub(crate) claims: Claims,
    pub(crate) nears: Nears,
}

impl Drop for TightPlan<'_> {
    fn drop(self) {
        let TightPlan {
            links: _,
            plan: _,
            potentials: _,
            claims: _,
            nears: _,
        } = self;
    }
}

impl<'a> Model for TightPlan<'a> {
    ghost use Rattle.plan_search.specs.Trees.{PlanParts, IsTightPlan};

    ghost Value = { PlanParts };

    ghost view = { λ t. record {
      links = t.links.now;
      plan = t.plan;
      potentials = t.potentials;
      claims = t.claims;
      nears = t.nears;
    } };

    ghost invariant = { λ t. IsTightPlan (record {
      links = t.links.now;
      plan = t.plan;
      potentials = t.potentials;
      claims = t.claims;
      nears = t.nears;
    }) };
}

impl<'a> TightPlan<'a> {
    /// The same plan with room for trees.
    pub(crate) fn new(
        alloc: Global,
        links: &'a LinkTable,
        plan: Assignment,
        potentials: Potentials,
    ) -> Result<TightPlan<'a>, NoMemory>
        requires { IsTaken (links_in links.now) potentials plan }
        ensures { IfOk result (λ tight. tight.links ≡ links.now) }
    {
        Ok(TightPlan {
            links,
            plan,
            potentials,
            claims: Claims::new(alloc, links.len() + 1)?,
            nears: Nears::new(alloc, links)?,
        })
    }

    /// Takes one trip more in: gives it the place to which a tree from it leads, or none behind all
    /// trips.
    pub(crate) fn take_in(self, trip: usize) -> Result<TightPlan<'a>, NoMemory>
        requires { trip < length self.links }
        ensures { IfOk result (TakesIn self.entry trip) }
    {
        if self.plan.next(trip).is_some() {
            return Ok(self);
        }
        let mut tree = self.tree_from(trip);
        let end = tree.find_end()?;
        tree.augment(end)
    }

    // A tree of a trip without a place alone, whose potential is raised so that it covers its
    // links.
    fn tree_from(self, root: usize) -> Tree<'a>
        requires within { root < length self.links }
        requires waits { next self.plan root ≡ None }
        ensures { IsRooted self.entry root result }
    {
        let TightPlan {
            links,
            plan,
            mut potentials,
            mut claims,
            mut nears,
        } = self;
        cover(links, &mut potentials, root);
        claims.clear();
        forget(&mut nears);
        Tree {
            links,
            plan,
            potentials,
            claims,
            nears,
            root,
        }
    }

    /// The plan and its potentials.
    pub(crate) fn into_parts(self) -> (Assignment, Potentials)
        ensures taken { IsTaken (links_in self.entry.links) result.1 result.0 }
        ensures potentials { result.1 ≡ self.entry.potentials }
    {
        let TightPlan {
            links: _,
            plan,
            potentials,
            claims: _,
            nears: _,
        } = self;
        (plan, potentials)
    }
}
