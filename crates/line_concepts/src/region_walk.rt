// The regions of the nodes of a tree, one after the other.
ghost use Rattle.std.specs.Prelude.{◌≡◌, ◌<◌, ◌+◌, ◌-◌, ◌∷◌, ◌++◌, [], List, length, reverse};
ghost use Rattle.std.specs.Prelude.{slice_get, vec_len, false, if◌then◌else◌};
ghost use Rattle.std.specs.Prelude.{All, IfOk, OnOk, MatchBool};
ghost use Rattle.line_cost_model.specs.Regions.{HasEachFeasible, root_of, part_from, part_up_to};
ghost use Rattle.line_concepts.specs.declared.region_walk.OpenSplit.{OpenSplit};
ghost use Rattle.line_concepts.specs.Certified.{SplitsInside};
ghost use Rattle.line_concepts.specs.TreeFaults.{splits_outside};
ghost use Rattle.line_concepts.specs.Walks.{IsOpenSplit, SplitsOne, behind_node, waiting_of};

use crate::node::Node;
use line_cost_model::{LineProblem, SummedRegion};
use plan_num::NoMemory;
use std::alloc::Global;
use std::marker::Model;

/// A split of the range of a line, one of whose parts is walked.
#[derive(Clone, Copy)]
pub(crate) struct OpenSplit {
    line: usize,
    lo: u32,
    at: u32,
    hi: u32,
    in_lower: bool,
}

/// The region at which a node of a tree stands, and the splits above it. Contracts see it as the
/// line problem, that region and those of the upper parts that wait.
pub struct RegionWalk<'a> {
    region: SummedRegion<'a>,
    splits: Vec<OpenSplit>,
}

impl Drop for RegionWalk<'_> {
    fn drop(self) {
        let RegionWalk {
            region: _,
            splits: _,
        } = self;
    }
}

impl<'a> Model for RegionWalk<'a> {
    ghost use Rattle.std.specs.Prelude.{All, length, reverse};
    ghost use Rattle.line_concepts.specs.Walks.{IsOpenSplit, WalkedRegions, waiting_of};

    ghost Value = { WalkedRegions };

    ghost view = { λ walk. record {
      problem = walk.region.problem;
      region = walk.region.ranges;
      waiting = waiting_of (reverse walk.splits.items) walk.region.ranges;
    } };

    ghost invariant = { λ walk. All (IsOpenSplit (length walk.region.ranges)) walk.splits.items };
}

impl<'a> RegionWalk<'a> {
    /// At the root of a tree.
    pub fn new(alloc: Global, problem: &'a LineProblem) -> Result<RegionWalk<'a>, NoMemory>
        ensures root { IfOk result (λ walk. walk ≡ record {
          problem = problem.now;
          region = root_of problem.now;
          waiting = [];
        }) }
        ensures each { IfOk result (λ _. HasEachFeasible problem.now (root_of problem.now)) }
    {
        let region = SummedRegion::root(alloc, problem)?;
        Ok(RegionWalk {
            region,
            splits: Vec::new(alloc),
        })
    }

    /// The same, where few edges of its regions are asked for: they keep no sums of edges.
    pub(crate) fn without_sums(
        alloc: Global,
        problem: &'a LineProblem,
    ) -> Result<RegionWalk<'a>, NoMemory>
        ensures root { IfOk result (λ walk. walk ≡ record {
          problem = problem.now;
          region = root_of problem.now;
          waiting = [];
        }) }
        ensures each { IfOk result (λ _. HasEachFeasible problem.now (root_of problem.now)) }
    {
        let region = SummedRegion::root_without_sums(alloc, problem)?;
        Ok(RegionWalk {
            region,
            splits: Vec::new(alloc),
        })
    }

    /// The region of the node.
    pub fn region(&self) -> &SummedRegion<'a>
        ensures problem { result.now.problem ≡ self.now.problem }
        ensures ranges { result.now.ranges ≡ self.now.region }
    {
        &self.region
    }

    /// From a split on to the root of its lower part.
    pub(crate) fn enter(&mut self, line: usize, at: u32) -> Result<(), NoMemory>
        requires there { line < length self.old.region }
        requires inside { SplitsInside self.old.region line at }
        ensures { OnOk result (self.new ≡ record {
          problem = self.old.problem;
          region = part_up_to self.old.region line at;
          waiting = part_from self.old.region line (at + 1) ∷ self.old.waiting;
        }) }
    {
        let (lo, hi) = self.region.ends(line);
        self.splits.push(OpenSplit {
            line,
            lo,
            at,
            hi,
            in_lower: true,
        })?;
        self.region.set_range(line, lo, at);
        Ok(())
    }

    /// From a leaf on to the root of the innermost upper part that waits, where there is one.
    pub(crate) fn leave(&mut self) -> bool
        ensures waiting { MatchBool result
            (self.new.region ∷ self.new.waiting ≡ self.old.waiting) (self.old.waiting ≡ []) }
        ensures problem { self.new.problem ≡ self.old.problem }
        ensures size { length self.new.region ≡ length self.old.region }
    {
        leave(&mut self.region, &mut self.splits)
    }
}

/// From a node on to the next one, where one is to come.
pub fn go_on<'a>(walk: &mut RegionWalk<'a>, node: &Node) -> Result<bool, NoMemory>
    requires there { SplitsOne walk.old.region node.now }
    requires inside { splits_outside walk.old.region node.now ≡ false }
    ensures waiting { IfOk result (λ more.
        (if more then walk.new.region ∷ walk.new.waiting else [])
        ≡ behind_node walk.old.region walk.old.waiting node.now) }
    ensures problem { IfOk result (λ _. walk.new.problem ≡ walk.old.problem) }
    ensures size { IfOk result (λ _. length walk.new.region ≡ length walk.old.region) }
{
    match node {
        Node::Split { line, at } => {
            walk.enter(*line, *at)?;
            Ok(true)
        }
        _ => Ok(walk.leave()),
    }
}

// From the end of a part on to the innermost upper part that waits, where there is one. The range
// of a split whose parts are both walked is as it was before.
fn leave<'a>(region: &mut SummedRegion<'a>, splits: &mut Vec<OpenSplit>) -> bool
    requires { All (IsOpenSplit (length region.old.ranges)) splits.old.items }
    ensures waiting { MatchBool result
        (region.new.ranges ∷ waiting_of (reverse splits.new.items) region.new.ranges
        ≡ waiting_of (reverse splits.old.items) region.old.ranges)
        (waiting_of (reverse splits.old.items) region.old.ranges ≡ []) }
    ensures problem { region.new.problem ≡ region.old.problem }
    ensures size { length region.new.ranges ≡ length region.old.ranges }
    ensures open { All (IsOpenSplit (length region.new.ranges)) splits.new.items }
{
    while let Some(split) = last_split(splits) {
        if split.in_lower {
            region.set_range(split.line, split.at + 1, split.hi);
            turn_last(splits);
            return true;
        }
        region.set_range(split.line, split.lo, split.hi);
        splits.pop();
    }
    false
}

// The last of some splits.
fn last_split(splits: &[OpenSplit]) -> Option<OpenSplit>
    ensures { result ≡ slice_get splits.now (length splits.now - 1) }
{
    splits.last().copied()
}

// The upper part of the last split is walked from now on.
fn turn_last(splits: &mut Vec<OpenSplit>)
    requires { 0 < vec_len splits.old }
    ensures { (others : List OpenSplit) (split : OpenSplit)
        → splits.old.items ≡ others ++ split ∷ []
        → splits.new.items ≡ others ++ record split { in_lower = false } ∷ [] }
{
    let last = splits.len() - 1;
    splits[last].in_lower = false;
}
