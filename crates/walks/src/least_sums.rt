// Least sums over walks: the nearest stop is settled again and again.
ghost use Rattle.std.specs.Prelude.{◌≡◌, ◌<◌, ◌≤◌, length, IfOk, OnOk};
ghost use Rattle.walks.specs.Labels.{weight_of, most_sum, AreDone, WentOn};
ghost use Rattle.walks.specs.Walks.{edge_length, edge_time, least_sums, AreLeastSums, AreSumsUpTo};

use crate::labels::Labels;
use crate::network::Network;
use crate::reach::Reach;
use crate::weight::Weight;
use plan_num::NoMemory;
use std::alloc::Global;

impl Network {
    /// The least lengths of walks from a stop, in millionths.
    pub fn least_lengths(&self, alloc: Global, from: usize) -> Result<Reach, NoMemory>
        requires { from < length self.now.stops }
        ensures sums { IfOk result (λ reach. reach ≡ least_sums self.now edge_length from) }
        ensures least { IfOk result (λ reach. AreLeastSums self.now edge_length from reach) }
        ensures size { IfOk result (λ reach. length reach ≡ length self.now.stops) }
        ensures small { IfOk result (λ reach. AreSumsUpTo 10000000000000 reach) }
    {
        self.least_sums(alloc, Weight::Length, from)
    }

    /// The least times of walks from a stop, in minutes: the sums of the least minutes of drives.
    pub fn least_times(&self, alloc: Global, from: usize) -> Result<Reach, NoMemory>
        requires { from < length self.now.stops }
        ensures sums { IfOk result (λ reach. reach ≡ least_sums self.now edge_time from) }
        ensures least { IfOk result (λ reach. AreLeastSums self.now edge_time from reach) }
        ensures size { IfOk result (λ reach. length reach ≡ length self.now.stops) }
        ensures small { IfOk result (λ reach. AreSumsUpTo 10000000 reach) }
    {
        self.least_sums(alloc, Weight::Time, from)
    }

    // The least sums of walks from a stop.
    fn least_sums(&self, alloc: Global, weight: Weight, from: usize) -> Result<Reach, NoMemory>
        requires { from < length self.now.stops }
        ensures sums { IfOk result (λ reach. reach ≡ least_sums self.now (weight_of weight) from) }
        ensures least { IfOk result (λ reach. AreLeastSums self.now (weight_of weight) from reach) }
        ensures size { IfOk result (λ reach. length reach ≡ length self.now.stops) }
        ensures small { IfOk result (λ reach. AreSumsUpTo (most_sum weight) reach) }
    {
        let labels = self.settle_all(alloc, weight, from)?;
        let sums = labels.sums(alloc)?;
        Ok(Reach { sums })
    }

    // The labels of all stops, where the nearest stop was settled again and again.
    fn settle_all(&self, alloc: Global, weight: Weight, from: usize) -> Result<Labels, NoMemory>
        requires { from < length self.now.stops }
        ensures { IfOk result (λ labels. AreDone self.now weight from labels) }
    {
        let mut labels = Labels::from_stop(alloc, self.stop_count(), from)?;
        while let Some((stop, sum)) = labels.settle_nearest() {
            self.go_on(weight, stop, sum, &mut labels)?;
        }
        Ok(labels)
    }

    // The walk to a stop goes on over each edge that can be driven from there.
    fn go_on(
        &self,
        weight: Weight,
        stop: usize,
        sum: u64,
        labels: &mut Labels,
    ) -> Result<(), NoMemory>
        requires all { length labels.old ≡ length self.now.stops }
        requires there { stop < length self.now.stops }
        requires small { sum ≤ 10000000000000 }
        ensures { OnOk result
            (WentOn (weight_of weight) self.now.edges stop sum labels.old labels.new) }
    {
        for index in self.edges_at(stop) {
            let edge = self.edge(*index);
            if let Some(next) = edge.across(stop) {
                labels.reach(next, sum + weight.of(&edge))?;
            }
        }
        Ok(())
    }
}
