// The links out of each event, and all links event by event.
ghost use Rattle.std.specs.Prelude.{◌≡◌, ◌<◌, ◌++◌, length, All, IfOk, OnOk};
ghost use Rattle.propagation.specs.Outgoing.{AreChained, by_ranks, event_of, out_of};

use crate::links::Link;
use plan_num::NoMemory;
use std::alloc::Global;

/// The first link out of each event, and for each link the next one out of the same event, told by
/// their indexes. The number of links stands for none.
pub(crate) struct Outgoing {
    firsts: Vec<usize>,
    nexts: Vec<usize>,
}

impl Drop for Outgoing {
    fn drop(self) {
        let Outgoing {
            firsts: _,
            nexts: _,
        } = self;
    }
}

impl Outgoing {
    /// The links out of so many events, seen from the last link on.
    pub(crate) fn of_links(
        alloc: Global,
        links: &[Link],
        events: usize,
    ) -> Result<Outgoing, NoMemory>
        requires { All (λ link. link.step.from < events) links.now }
        ensures each { IfOk result (λ out. length out.firsts.items ≡ events) }
        ensures chained { IfOk result
            (λ out. AreChained links.now 0 out.firsts.items out.nexts.items) }
    {
        let mut firsts = vec![in alloc; links.len(); events]?;
        let mut nexts = vec![in alloc; links.len(); links.len()]?;
        let mut left = links.len();
        while left > 0 {
            left -= 1;
            let event = links[left].step.from as usize;
            nexts[left] = firsts[event];
            firsts[event] = left;
        }
        Ok(Outgoing { firsts, nexts })
    }

    /// The links out of the events of ranks, one event after the other.
    pub(crate) fn by_ranks(
        &self,
        alloc: Global,
        links: &[Link],
        ranks: &[u64],
    ) -> Result<Vec<Link>, NoMemory>
        requires chained { AreChained links.now 0 self.now.firsts.items self.now.nexts.items }
        requires events { All (λ rank. event_of rank < length self.now.firsts.items) ranks.now }
        ensures { IfOk result (λ all. all.items ≡ by_ranks links.now ranks.now) }
    {
        let mut all = Vec::with_capacity(alloc, links.len())?;
        for rank in ranks {
            self.push_links(&mut all, links, event_of(*rank))?;
        }
        Ok(all)
    }

    // The links out of an event, behind others.
    fn push_links(&self, all: &mut Vec<Link>, links: &[Link], event: usize) -> Result<(), NoMemory>
        requires chained { AreChained links.now 0 self.now.firsts.items self.now.nexts.items }
        requires there { event < length self.now.firsts.items }
        ensures { OnOk result (all.new.items ≡ all.old.items ++ out_of links.now event) }
    {
        let mut at = self.firsts[event];
        while at < links.len() {
            all.push(links[at])?;
            at = self.nexts[at];
        }
        Ok(())
    }
}

// The event of a rank, which tells its time and its kind above it.
fn event_of(rank: u64) -> usize
    ensures { result ≡ event_of rank }
{
    (rank % 2_147_483_648) as usize
}
