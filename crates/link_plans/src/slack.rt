// How much the potentials of a trip and of a place are more than the gain of its link.
ghost use Rattle.std.specs.Prelude.{ℕ, pos, max, ◌≡◌, ◌+◌, ◌-◌, ◌<◌, ◌≤◌, length, slice_set};
ghost use Rattle.link_plans.specs.declared.limits.TheConstants.{MOST_GAIN, MOST_POTENTIAL, MOST_SLACK};
ghost use Rattle.link_plans.specs.Potentials.{at, AreOver};
ghost use Rattle.link_plans.specs.Links.{links_in};
ghost use Rattle.link_plans.specs.Slacks.{Covers};

use crate::link_table::{Link, LinkTable};
use crate::numbers::Potentials;

/// How much the potential of a trip and that of the place to which its link leads are more than the
/// link gains.
pub fn link_slack(own: u64, potentials: &Potentials, link: Link) -> u64
    requires own { own ≤ MOST_POTENTIAL }
    requires to { link.to < length potentials.now.v }
    requires covered { link.gain ≤ own + at potentials.now.v link.to }
    ensures value { result ≡ own + at potentials.now.v link.to - link.gain }
    ensures small { result ≤ MOST_SLACK }
{
    own + potentials.natural_v(link.to) - link.gain
}

/// Raises the potential of a trip that has none so that it covers its links, by no more than it has to.
pub fn cover(trips: &LinkTable, potentials: &mut Potentials, trip: usize)
    requires each { AreOver (length trips.now) potentials.old }
    requires trip { trip < length trips.now }
    ensures { (most : ℕ) × ((most ≤ MOST_GAIN)
        × ((potentials.new ≡ record { u = slice_set potentials.old.u trip most; v = potentials.old.v })
        × Covers (links_in trips.now) potentials.new trip)) }
{
    let links = trips.row(trip);
    let mut most = 0;
    for link in links {
        let rest = link_rest(potentials, *link);
        most = greater(most, rest);
    }
    set_trip(potentials, trip, most);
}

// The greater of two numbers.
fn greater(a: u64, b: u64) -> u64
    ensures { result ≡ max a b }
{
    a.max(b)
}

/// The potential of a trip.
pub fn of_trip(potentials: &Potentials, trip: usize) -> u64
    requires { trip < length potentials.now.u }
    ensures value { result ≡ at potentials.now.u trip }
    ensures small { result ≤ MOST_POTENTIAL }
{
    potentials.u(trip).unsigned_abs()
}

/// Gives a trip a potential.
pub fn set_trip(potentials: &mut Potentials, trip: usize, number: u64)
    requires trip { trip < length potentials.old.u }
    requires small { number ≤ MOST_POTENTIAL }
    ensures { potentials.new ≡ record { u = slice_set potentials.old.u trip number; v = potentials.old.v } }
{
    potentials.set_u(trip, as_i64(number));
}

/// Gives a place a potential.
pub fn set_place(potentials: &mut Potentials, place: usize, number: u64)
    requires place { place < length potentials.old.v }
    requires small { number ≤ MOST_POTENTIAL }
    ensures { potentials.new ≡ record { u = potentials.old.u; v = slice_set potentials.old.v place number } }
{
    potentials.set_v(place, as_i64(number));
}

/// What a link gains beyond the potential of the place to which it leads.
pub fn link_rest(potentials: &Potentials, link: Link) -> u64
    requires { link.to < length potentials.now.v }
    ensures { result ≡ link.gain - at potentials.now.v link.to }
{
    link.gain.saturating_sub(potentials.natural_v(link.to))
}

/// A small number as a signed one.
pub fn as_i64(number: u64) -> i64
    requires { number ≤ MOST_SLACK }
    ensures { result ≡ pos number }
{
    number as i64
}
