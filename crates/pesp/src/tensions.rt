// The tension of an activity.
ghost use Rattle.std.specs.Prelude.{◌≡◌, ◌<◌, ◌≤ℤ◌, pos, unsigned_abs};
ghost use Rattle.pesp.specs.Timetables.{tension, IsTension};

/// The minutes that an activity takes between two times of a period: the least number that is not
/// below its lower bound and leads from the one time to the other.
pub fn tension(lower: i64, from: u32, to: u32, period: u32) -> i64
    requires from { from < period }
    requires to { to < period }
    requires low { pos 0 ≤ℤ lower }
    requires high { lower ≤ℤ pos 100000 }
    ensures value { result ≡ tension period lower from to }
    ensures natural { pos 0 ≤ℤ result }
    ensures least { IsTension period lower from to (unsigned_abs result) }
{
    lower + (i64::from(to) - i64::from(from) - lower).rem_euclid(i64::from(period))
}
