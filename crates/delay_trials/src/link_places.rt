// Where the links out of each event begin.
ghost use Rattle.std.specs.Prelude.{◌≡◌, ◌≤◌, length, IfOk};
ghost use Rattle.std.specs.List.Sorted.{IsNonDecreasingBy};
ghost use Rattle.delay_trials.specs.ChangeEnds.{AreFirst, IsFirst};
ghost use Rattle.propagation.specs.DayEvents.{forward_rank};
ghost use Rattle.delay_trials.specs.OnTrial.{WaitBy};

use bit_rows::Marking;
use plan_num::NoMemory;
use propagation::{DayEvent, Link, forward_rank};
use std::alloc::Global;

/// Where the links out of each event begin.
pub(crate) fn first_links(
    alloc: Global,
    events: &[DayEvent],
    links: &[Link],
) -> Result<Vec<usize>, NoMemory>
    requires few { length events.now ≤ 100000 }
    requires in_order { IsNonDecreasingBy (λ link. link.rank) links.now }
    ensures { IfOk result (λ firsts. AreFirst (λ link. link.rank) links.now
        (forward_rank events.now) (length events.now) firsts.items) }
{
    let mut firsts = Vec::with_capacity(alloc, events.len())?;
    for event in 0..events.len() as u32 {
        firsts.push(first_link(links, forward_rank(events, event)))?;
    }
    Ok(firsts)
}

// Where the links of events of at least a rank begin.
fn first_link(links: &[Link], rank: u64) -> usize
    requires { IsNonDecreasingBy (λ link. link.rank) links.now }
    ensures { IsFirst (λ link. link.rank) links.now rank result }
{
    links.partition_point(|link| link.rank < rank)
}

/// The links of a rank wait, which begin at a place.
pub(crate) fn wait_behind(waiting: &mut Marking, links: &[Link], first: usize, rank: u64)
    requires in_order { IsNonDecreasingBy (λ link. link.rank) links.now }
    requires first { IsFirst (λ link. link.rank) links.now rank first }
    requires each { length waiting.old ≡ length links.now }
    ensures { WaitBy (λ link. link.rank ≡ rank) links.now waiting.old waiting.new }
{
    let mut at = first;
    while at < links.len() && links[at].rank == rank {
        waiting.set(at, true);
        at += 1;
    }
}
