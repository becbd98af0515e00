// Places that were tight when they were put here.
ghost use Rattle.std.specs.Prelude.{◌≡◌};
ghost use Rattle.plan_search.specs.TightPlaces.{put_before};

use crate::cells::{at, set, zeros};
use link_plans::LinkTable;
use plan_num::NoMemory;
use std::alloc::Global;
use std::marker::Model;

// Trips whose counts of links differ by less count as equal.
const ALIKE: usize = 64;

/// Places at which some trip of a tree was tight when they were put here. One of those whose trips
/// have the most links comes first, since such a trip finds a place without one soonest, and among
/// these the last one. What is taken promises nothing: who takes a place looks whether it still is
/// the nearest.
pub(crate) struct TightPlaces {
    // The group of each trip, by how many links it has.
    groups: Vec<usize>,
    // The last place of each group and the place before each, by one more than their numbers; 0 for
    // none.
    last: Vec<usize>,
    before: Vec<usize>,
    // No greater group has a place.
    most: usize,
}

impl Drop for TightPlaces {
    fn drop(self) {
        let TightPlaces {
            groups: _,
            last: _,
            before: _,
            most: _,
        } = self;
    }
}

impl Model for TightPlaces {
    ghost use Rattle.plan_search.specs.TightPlaces.{TightPlacesParts};

    ghost Value = { TightPlacesParts };

    ghost view = { λ places. record {
      groups = places.groups.items;
      last = places.last.items;
      before = places.before.items;
      most = places.most;
    } };
}

impl TightPlaces {
    /// No place.
    pub(crate) fn new(alloc: Global, trips: &LinkTable) -> Result<TightPlaces, NoMemory> {
        let count = trips.len();
        let mut groups = Vec::new(alloc);
        for trip in 0..count {
            groups.push(trips.row(trip).len() / ALIKE)?;
        }
        Ok(TightPlaces {
            groups,
            last: zeros(alloc, count / ALIKE + 1)?,
            before: zeros(alloc, count + 1)?,
            most: 0,
        })
    }

    /// Takes all places away.
    pub(crate) fn clear(&mut self) {
        for group in 0..self.last.len() {
            self.last[group] = 0;
        }
        self.most = 0;
    }

    /// Puts the place of a trip before the others of its group.
    pub(crate) fn put(&mut self, place: usize, trip: usize)
        ensures { self.new ≡ put_before place trip self.old }
    {
        let group = at(&self.groups, trip);
        let before = at(&self.last, group);
        set(&mut self.before, place, before);
        set(&mut self.last, group, place.saturating_add(1));
        self.most = self.most.max(group);
    }

    /// The next place.
    pub(crate) fn take(&mut self) -> Option<usize> {
        for _turn in 0..self.last.len() {
            let next = at(&self.last, self.most);
            if 0 < next {
                let before = at(&self.before, next - 1);
                set(&mut self.last, self.most, before);
                return Some(next - 1);
            }
            self.most = self.most.saturating_sub(1);
        }
        None
    }
}
