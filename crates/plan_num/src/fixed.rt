// Fixed-point numbers.
ghost use Rattle.std.specs.Prelude.{◌≡◌, ◌↔◌, pos, neg_ℤ, ◌≤ℤ◌, IsSome, IfSome};
ghost use Rattle.plan_num.specs.declared.number.TheConstants.{NUMBER_LIMIT};

use crate::number::NUMBER_LIMIT;
use std::marker::Model;

/// A number of millionths, at most 10^18 of them in absolute value. Contracts see it as that whole
/// number.
#[derive(Clone, Copy, Debug, PartialEq, Eq)]
pub struct Fixed {
    millionths: i64,
}

impl Model for Fixed {
    ghost use Rattle.std.specs.Prelude.{ℤ, pos, neg_ℤ, ◌≤ℤ◌};
    ghost use Rattle.plan_num.specs.declared.number.TheConstants.{NUMBER_LIMIT};

    ghost Value = { ℤ };

    ghost view = { λ f. f.millionths };

    ghost invariant = { λ f.
        (neg_ℤ (pos NUMBER_LIMIT) ≤ℤ f.millionths) × (f.millionths ≤ℤ pos NUMBER_LIMIT) };

    ghost inverse = { λ n. record { millionths = n } };
}

impl Fixed {
    /// The number of so many millionths; none exactly where they are more than 10^18 in absolute
    /// value.
    pub fn from_millionths(m: i64) -> Option<Fixed>
        ensures value { IfSome result (λ fixed. fixed ≡ m) }
        ensures within { IsSome result
            ↔ ((neg_ℤ (pos NUMBER_LIMIT) ≤ℤ m) × (m ≤ℤ pos NUMBER_LIMIT)) }
    {
        if m.unsigned_abs() > NUMBER_LIMIT {
            return None;
        }
        Some(Fixed { millionths: m })
    }

    /// How many millionths it is.
    pub fn millionths(self) -> i64
        ensures value { result ≡ self }
        ensures low { neg_ℤ (pos NUMBER_LIMIT) ≤ℤ result }
        ensures high { result ≤ℤ pos NUMBER_LIMIT }
    {
        self.millionths
    }
}
