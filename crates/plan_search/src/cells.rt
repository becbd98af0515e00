// Numbers in lists whose places need not be there.
ghost use Rattle.std.specs.Prelude.{◌≡◌, get_or, replicate, slice_set, IfOk};

use plan_num::NoMemory;
use std::alloc::Global;

/// The number at a place; 0 where there is no such place.
pub(crate) fn at(numbers: &[usize], place: usize) -> usize
    ensures { result ≡ get_or numbers.now place 0 }
{
    numbers.get(place).copied().unwrap_or(0)
}

/// Puts a number at a place, where there is one.
pub(crate) fn set(numbers: &mut Vec<usize>, place: usize, number: usize)
    ensures { numbers.new.items ≡ slice_set numbers.old.items place number }
{
    if place < numbers.len() {
        numbers[place] = number;
    }
}

/// So many zeros.
pub(crate) fn zeros(alloc: Global, count: usize) -> Result<Vec<usize>, NoMemory>
    ensures { IfOk result (λ made. made.items ≡ replicate count 0) }
{
    let mut numbers = Vec::new(alloc);
    for _place in 0..count {
        numbers.push(0)?;
    }
    Ok(numbers)
}
