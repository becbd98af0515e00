// One pass along the steps in their forward order.
ghost use Rattle.std.specs.Prelude.{◌≡◌, ◌+◌, ◌<◌, ◌≤◌, length, All, IfOk};
ghost use Rattle.propagation.specs.LeastTimes.{later, time_at};
ghost use Rattle.propagation.specs.Links.{counts, head_pushed, pushed_along};
ghost use Rattle.propagation.specs.Problems.{minutes};
ghost use Rattle.propagation.specs.declared.times.TheConstants.{LATEST};

use crate::links::Link;
use crate::step::Step;
use plan_num::NoMemory;
use std::alloc::Global;

/// Times behind links, one after the other, where the links of chosen changes count.
pub fn pushed_along(
    alloc: Global,
    earliest: &[u64],
    links: &[Link],
    kept: &[bool],
) -> Result<Vec<u64>, NoMemory>
    requires few { length links.now ≤ 502000 }
    requires soon { All (λ time. time ≤ 8589934590) earliest.now }
    requires ends { All (λ link. (link.step.from < length earliest.now)
        × (link.step.to < length earliest.now)) links.now }
    ensures times { IfOk result
        (λ times. times.items ≡ pushed_along kept.now links.now earliest.now) }
    ensures small { IfOk result (λ times. All (λ time. time ≤ LATEST) times.items) }
{
    let mut times = Vec::from_slice(alloc, earliest)?;
    push_along(&mut times, links, kept);
    Ok(times)
}

/// Puts the earliest times behind links in the place of others.
pub fn push_again(times: &mut Vec<u64>, earliest: &[u64], links: &[Link], kept: &[bool])
    requires each { length times.old.items ≡ length earliest.now }
    requires few { length links.now ≤ 502000 }
    requires soon { All (λ time. time ≤ 8589934590) earliest.now }
    requires ends { All (λ link. (link.step.from < length earliest.now)
        × (link.step.to < length earliest.now)) links.now }
    ensures { times.new.items ≡ pushed_along kept.now links.now earliest.now }
{
    times.copy_from_slice(earliest);
    push_along(times, links, kept);
}

// Pushes times along links, one after the other, where the links of chosen changes count.
fn push_along(times: &mut Vec<u64>, links: &[Link], kept: &[bool])
    requires few { length links.now ≤ 502000 }
    requires soon { All (λ time. time ≤ 8589934590) times.old.items }
    requires ends { All (λ link. (link.step.from < length times.old.items)
        × (link.step.to < length times.old.items)) links.now }
    ensures times { times.new.items ≡ pushed_along kept.now links.now times.old.items }
    ensures small { All (λ time. time ≤ LATEST) times.new.items }
{
    for link in links {
        if counts(kept, link.change) {
            push_head(times, &link.step);
        }
    }
}

/// Whether the link of a change, or of none, counts.
pub fn counts(kept: &[bool], change: Option<u32>) -> bool
    ensures { result ≡ counts kept.now change }
{
    match change {
        None => true,
        Some(change) => kept.get(change as usize).copied().unwrap_or(false),
    }
}

// The head of a step, no earlier than the step asks.
fn push_head(times: &mut Vec<u64>, step: &Step)
    requires from { step.now.from < length times.old.items }
    requires to { step.now.to < length times.old.items }
    requires room { time_at times.old.items step.now.from ≤ 10000000000000000000 }
    ensures times { times.new.items ≡ head_pushed times.old.items step.now }
    ensures few { minutes step.now ≤ 8589934590 }
{
    let asked = times[step.from as usize] + step.minutes();
    let to = step.to as usize;
    times[to] = later(times[to], asked);
}

/// The later one of two times.
fn later(time: u64, other: u64) -> u64
    ensures { result ≡ later time other }
{
    if time < other { other } else { time }
}
