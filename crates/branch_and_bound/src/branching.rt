// Problems for branch and bound.
ghost use Rattle.std.specs.Prelude.{ℤ, ◌≡◌, IfOk};
ghost use Rattle.branch_and_bound.specs.Branchings.{BranchingParts, IsBranching};

use plan_num::NoMemory;
use std::alloc::Global;

/// A problem for branch and bound: regions, nodes that say something of them, and solutions.
pub trait Branching<R, N, S> {
    /// The problem as contracts see it.
    ghost problem: { Self → BranchingParts R N S };

    /// Which solutions lie in a region.
    ghost LiesIn: { Self → R → S → Type 0 };

    /// Which costs a node shows over a region: that no solution there costs less.
    ghost Shows: { Self → R → N → ℤ → Type 0 };

    /// What fits as a region.
    ghost Fits: { Self → R → Type 0 };

    /// The region of all solutions.
    fn root(&self, alloc: Global) -> Result<R, NoMemory>
        ensures { IfOk result (λ root. root ≡ (problem self.now).root) };

    /// What is said of a region beside the best solution so far, and a solution that is found.
    fn look(&self, alloc: Global, region: &R, best: &Option<S>) -> Result<(N, Option<S>), NoMemory>
        requires { Fits self.now region.now }
        ensures { IfOk result
            (λ entry. entry ≡ (problem self.now).look region.now best.now) };

    /// The two parts of a region by a node that splits it; none by another one.
    fn split(&self, alloc: Global, region: R, node: &N) -> Result<Option<(R, R)>, NoMemory>
        requires { Fits self.now region }
        ensures { IfOk result (λ parts. parts ≡ (problem self.now).parts region node.now) };

    /// The laws of the problem.
    ghost laws: { (it : Self) → IsBranching (problem it) (LiesIn it) (Shows it) (Fits it) };
}
