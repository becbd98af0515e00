// The least of some numbers, by ranges of places.
ghost use Rattle.std.specs.Prelude.{ℕ, ◌≡◌, ◌<◌, ◌≤◌, get_or, length};
ghost use Rattle.branch_and_bound_tests.specs.Least.{is_better, least, IsRange, LiesAt, ShowsAt};
ghost use Rattle.branch_and_bound_tests.specs.LeastLaws.{are_laws};

use branch_and_bound::Branching;
use plan_num::NoMemory;
use std::alloc::Global;
use std::marker::Model;

/// Some numbers, of which the least is wanted. Contracts see their list.
#[derive(Drop)]
pub struct Numbers {
    numbers: Vec<u32>,
}

impl Model for Numbers {
    ghost use Rattle.std.specs.Prelude.{ℕ, List};

    ghost Value = { List ℕ };

    ghost view = { λ numbers. numbers.numbers.items };
}

impl Numbers {
    /// Some numbers.
    pub fn of(numbers: Vec<u32>) -> Numbers
        ensures { result ≡ numbers.items }
    {
        Numbers { numbers }
    }

    // Whether the number at a place is less than that at the best one so far.
    fn is_better(&self, place: usize, best: Option<usize>) -> bool
        requires { place < length self.now }
        ensures { result ≡ is_better self.now place best }
    {
        match best {
            None => true,
            Some(best) => self.number(place) < self.number(best),
        }
    }

    // The number at a place; 0 where there is none.
    fn number(&self, place: usize) -> u32
        ensures { result ≡ get_or self.now place 0 }
    {
        self.numbers.get(place).copied().unwrap_or(0)
    }
}

impl Branching<(usize, usize), Option<usize>, usize> for Numbers {
    ghost problem = { least };

    ghost LiesIn = { λ numbers. LiesAt };

    ghost Shows = { ShowsAt };

    ghost Fits = { IsRange };

    fn root(&self, _alloc: Global) -> Result<(usize, usize), NoMemory> {
        Ok((0, self.numbers.len()))
    }

    fn look(
        &self,
        _alloc: Global,
        region: &(usize, usize),
        best: &Option<usize>,
    ) -> Result<(Option<usize>, Option<usize>), NoMemory> {
        let (from, to) = *region;
        if to - from > 1 {
            return Ok((Some(from + 1), None));
        }
        if from < to && self.is_better(from, *best) {
            return Ok((None, Some(from)));
        }
        Ok((None, None))
    }

    fn split(
        &self,
        _alloc: Global,
        region: (usize, usize),
        node: &Option<usize>,
    ) -> Result<Option<((usize, usize), (usize, usize))>, NoMemory> {
        let (from, to) = region;
        match *node {
            Some(at) if from < at && at < to => Ok(Some(((from, at), (at, to)))),
            _ => Ok(None),
        }
    }

    ghost laws = { are_laws };
}
