// The terminals of a pool.
ghost use Rattle.std.specs.Prelude.{◌≡◌, ◌++◌, ◌∷◌, ◌<◌, ◌≤◌, [], length};

use std::marker::Model;

/// At most 20 ids of stops. Contracts see them as a list.
#[derive(Debug, Drop)]
pub struct Terminals {
    ids: [i64; 20],
    count: usize,
    ghost few: { count ≤ 20 },
}

impl Model for Terminals {
    ghost use Rattle.std.specs.Prelude.{ℤ, List, take};

    ghost Value = { List ℤ };

    ghost view = { λ terminals. take terminals.count terminals.ids };
}

impl Terminals {
    /// No terminals.
    pub(crate) fn new() -> Terminals
        ensures { result ≡ [] }
    {
        Terminals {
            ids: [0; 20],
            count: 0,
        }
    }

    /// One terminal more.
    pub(crate) fn push(&mut self, id: i64)
        requires { length self.old < 20 }
        ensures { self.new ≡ self.old ++ id ∷ [] }
    {
        self.ids[self.count] = id;
        self.count += 1;
    }

    /// The ids.
    pub fn as_slice(&self) -> &[i64]
        ensures { result.now ≡ self.now }
    {
        &self.ids[..self.count]
    }
}
