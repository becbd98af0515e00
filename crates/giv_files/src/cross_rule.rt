// Rules that bind the value of a key to that of another key.
ghost use Rattle.std.specs.Prelude.{◌≡◌, true};
ghost use Rattle.std.specs.Option.{option_map_or};
ghost use Rattle.giv_files.specs.CrossRules.{keeps_bound};

use crate::key::Key;

/// How a value is bound by another value.
#[derive(Clone, Copy, Debug, PartialEq, Eq)]
pub enum Bound {
    /// It is not below the other value.
    NotBelow,
    /// Twice the value is at most the other value.
    TwiceAtMost,
}

impl Bound {
    // Whether a value keeps to the bound.
    fn keeps(self, value: i64, other: i64) -> bool
        ensures { result ≡ keeps_bound self other value }
    {
        match self {
            Bound::NotBelow => other <= value,
            Bound::TwiceAtMost => 2 * i128::from(value) <= i128::from(other),
        }
    }
}

/// A rule for the value of a key: how it is bound by the value of another key.
#[derive(Clone, Copy, Debug, PartialEq, Eq)]
pub struct CrossRule {
    pub bound: Bound,
    pub other: Key,
}

impl CrossRule {
    /// Whether a value keeps the rule, by the value of the other key. It does where the other key has none.
    pub fn keeps(self, value: i64, other: Option<i64>) -> bool
        ensures { result ≡ option_map_or (λ other. keeps_bound self.bound other value) other true }
    {
        match other {
            None => true,
            Some(other) => self.bound.keeps(value, other),
        }
    }
}
