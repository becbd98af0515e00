// The way from the root of a tree to one of its regions.
ghost use Rattle.std.specs.Prelude.{◌≡◌, ◌≤◌, ◌<◌, ◌-◌, ◌+ℤ◌, ℕ, ℤ, pos, List};
ghost use Rattle.std.specs.Prelude.{false, true, MatchBool, All, IfSome, length, slice_get, Some, take};
ghost use Rattle.pesp_judge.specs.declared.step.Step.{Step};
ghost use Rattle.pesp_judge.specs.declared.region.Split.{Split};
ghost use Rattle.pesp_judge.specs.Regions.{IsLeft, Waits};

/// A split on the way: the cycle at a place takes so many periods at most, or at least.
#[derive(Clone, Copy, Debug)]
pub(crate) struct Split {
    pub(crate) cycle: usize,
    pub(crate) least: bool,
    pub(crate) periods: i64,
}

impl Split {
    /// The second part, after the first one: the cycle takes one period more at least.
    pub(crate) fn second_part(self) -> Option<Split>
        ensures { IfSome result (λ split. (split.cycle ≡ self.cycle) × (split.least ≡ true)
            × (split.periods ≡ self.periods +ℤ pos 1)) }
    {
        Some(Split {
            cycle: self.cycle,
            least: true,
            periods: self.periods.checked_add(1)?,
        })
    }
}

/// Goes on from a region that is done to the next one: back to the last split of which the second
/// part waits, and into that; or tells that none waits. None where periods have more than 64 bits.
pub(crate) fn go_on(path: &mut Vec<Split>) -> Option<bool>
    ensures next { (period : ℕ) (cycles : List (List Step)) (slacks : List ℤ) →
        IfSome result (λ more. Waits period cycles slacks path.old.items → MatchBool more
        (IsLeft period cycles slacks path.new.items) ⊥) }
    ensures cycles { (count : ℕ) → All (λ split. split.cycle < count) path.old.items
        → All (λ split. split.cycle < count) path.new.items }
{
    let kept = waiting(path);
    path.truncate(kept);
    if kept == 0 {
        return Some(false);
    }
    path[kept - 1] = path[kept - 1].second_part()?;
    Some(true)
}

// How many splits there are up to the last one of which the second part waits.
fn waiting(path: &[Split]) -> usize
    ensures within { result ≤ length path.now }
    ensures left { (period : ℕ) (cycles : List (List Step)) (slacks : List ℤ) →
        Waits period cycles slacks path.now → Waits period cycles slacks (take result path.now) }
    ensures last { (split : Split) → 0 < result → slice_get path.now (result - 1) ≡ Some split
        → split.least ≡ false }
{
    let mut kept = path.len();
    'splits: while kept > 0 && path[kept - 1].least {
        kept -= 1;
    }
    kept
}
