// Labels of all stops, and the walks that go on from them.
ghost use Rattle.std.specs.Prelude.{◌≡◌, ◌<◌, ◌≤◌, pos, length, map, replicate, slice_set, All, Some, IfOk, OnOk, IfSome, IfNone};
ghost use Rattle.std.specs.Option.{option_map};
ghost use Rattle.walks.specs.declared.label.Label.TheVariants.{Unseen, Reached, Settled};
ghost use Rattle.walks.specs.Labels.{sum_of, reach, IsNearestOf};

use crate::frontier::Frontier;
use crate::label::Label;
use plan_num::NoMemory;
use std::alloc::Global;
use std::marker::Model;

/// The label of each stop, and the walks that go on. Contracts see it as the list of labels.
pub(crate) struct Labels {
    labels: Vec<Label>,
    frontier: Frontier,
}

impl Drop for Labels {
    fn drop(self) {
        let Labels {
            labels: _,
            frontier: _,
        } = self;
    }
}

impl Model for Labels {
    ghost use Rattle.std.specs.Prelude.{List};
    ghost use Rattle.walks.specs.declared.label.Label.{Label};
    ghost use Rattle.walks.specs.Labels.{GoesOn};

    ghost Value = { List Label };

    ghost view = { λ labels. labels.labels.items };

    ghost invariant = { λ labels. GoesOn labels.labels.items labels.frontier };
}

impl Labels {
    /// The labels of so many stops, where one of them is reached by the walk without an edge.
    pub(crate) fn from_stop(alloc: Global, stops: usize, from: usize) -> Result<Labels, NoMemory>
        requires { from < stops }
        ensures { IfOk result
            (λ labels. labels ≡ slice_set (replicate stops Unseen) from (Reached 0)) }
    {
        let mut labels = vec![in alloc; Label::Unseen; stops]?;
        labels[from] = Label::Reached(0);
        let mut frontier = Frontier::new(alloc);
        frontier.push(0, from)?;
        Ok(Labels { labels, frontier })
    }

    /// One more walk comes to a stop.
    pub(crate) fn reach(&mut self, stop: usize, sum: u64) -> Result<(), NoMemory>
        requires { stop < length self.old }
        ensures { OnOk result (self.new ≡ reach sum self.old (Some stop)) }
    {
        if self.labels[stop].is_nearer(sum) {
            self.frontier.push(sum, stop)?;
            self.labels[stop] = Label::Reached(sum);
        }
        Ok(())
    }

    /// Settles the nearest stop that is reached and not settled, where there is one. Walks to stops
    /// that were reached by nearer ones since are passed over.
    pub(crate) fn settle_nearest(&mut self) -> Option<(usize, u64)>
        ensures nearest { IsNearestOf self.old (length self.old) result }
        ensures settled { IfSome result
            (λ near. self.new ≡ slice_set self.old near.0 (Settled near.1)) }
        ensures none { IfNone result (self.new ≡ self.old) }
    {
        while let Some((sum, stop)) = self.frontier.pop() {
            if self.labels[stop].is_reached_with(sum) {
                self.labels[stop] = Label::Settled(sum);
                return Some((stop, sum));
            }
        }
        None
    }

    /// The sums of the labels.
    pub(crate) fn sums(&self, alloc: Global) -> Result<Vec<Option<i64>>, NoMemory>
        requires { All (λ label. IfSome (sum_of label) (λ sum. sum ≤ 10000000000000)) self.now }
        ensures { IfOk result
            (λ sums. sums.items ≡ map (λ label. option_map pos (sum_of label)) self.now) }
    {
        let mut sums = Vec::with_capacity(alloc, self.labels.len())?;
        for label in &self.labels {
            sums.push(label.sum())?;
        }
        Ok(sums)
    }
}
