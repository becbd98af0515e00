// Which changes are kept.
ghost use Rattle.std.specs.Prelude.{◌≡◌, ◌<◌, ◌++◌, ◌∷◌, [], false, length, slice_get, slice_set, Some, IfOk, OnOk};
ghost use Rattle.std.specs.Prelude.{OnErr};
ghost use Rattle.waiting_decisions.specs.Paths.{all_but};

use plan_num::NoMemory;
use std::alloc::Global;
use std::marker::Model;

/// Whether each change is kept, in the order of the changes. Contracts see it as the list of these.
#[derive(Debug, Drop)]
pub struct Kept {
    flags: Vec<bool>,
}

impl Model for Kept {
    ghost use Rattle.std.specs.Prelude.{List, Bool};

    ghost Value = { List Bool };

    ghost view = { λ kept. kept.flags.items };
}

impl Kept {
    /// No change yet.
    pub fn new(alloc: Global) -> Kept
        ensures { result ≡ [] }
    {
        Kept {
            flags: Vec::new(alloc),
        }
    }

    /// All of so many changes but some that are dropped.
    pub(crate) fn all_but(alloc: Global, count: usize, dropped: &[usize]) -> Result<Kept, NoMemory>
        ensures { IfOk result (λ kept. kept ≡ all_but count dropped.now) }
    {
        let mut flags = vec![in alloc; true; count]?;
        for change in dropped {
            drop_change(&mut flags, *change);
        }
        Ok(Kept { flags })
    }

    /// Appends whether the next change is kept.
    pub fn push(&mut self, kept: bool) -> Result<(), NoMemory>
        ensures ok { OnOk result (self.new ≡ self.old ++ kept ∷ []) }
        ensures err { OnErr result (self.new ≡ self.old) }
    {
        self.flags.push(kept)?;
        Ok(())
    }

    /// How many changes there are.
    pub fn len(&self) -> usize
        ensures { result ≡ length self.now }
    {
        self.flags.len()
    }

    /// Whether the change at an index is kept.
    pub fn at(&self, index: usize) -> bool
        requires { index < length self.now }
        ensures { slice_get self.now index ≡ Some result }
    {
        self.flags[index]
    }
}

// A change is dropped, where it is there.
fn drop_change(flags: &mut Vec<bool>, change: usize)
    ensures { flags.new.items ≡ slice_set flags.old.items change false }
{
    if change < flags.len() {
        flags[change] = false;
    }
}
