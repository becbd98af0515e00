// Customers who want to go from stop to stop.
ghost use Rattle.std.specs.Prelude.{◌≡◌, ◌+◌, ◌<◌, ◌^◌, ℕ, Bool, [], if◌then◌else◌, length, slice_index_or, slice_set, vec_len, IfOk, OnOk};
ghost use Rattle.demand_paths.specs.Wanted.{sum_between, everyone, AreWanted};

use plan_num::NoMemory;
use std::alloc::Global;
use std::marker::Model;
use walks::Network;

/// How many customers, in millionths, want to go from each stop to each stop. Contracts see it as
/// the lists of them, by the first stop; a list is empty until someone starts there.
#[derive(Drop)]
pub struct Wanted {
    by_source: Vec<Vec<u64>>,
}

impl Model for Wanted {
    ghost use Rattle.std.specs.Prelude.{List, ℕ, map};

    ghost Value = { List (List ℕ) };

    ghost view = { λ wanted. map (λ customers. customers.items) wanted.by_source.items };
}

impl Wanted {
    /// Before anyone wants to go.
    pub fn new(alloc: Global, network: &Network) -> Result<Wanted, NoMemory>
        ensures wanted { IfOk result (AreWanted network.now) }
        ensures none { IfOk result (λ wanted. (passes : ℕ → ℕ → Bool)
            → sum_between passes 0 wanted ≡ 0) }
    {
        let mut by_source = Vec::with_capacity(alloc, network.stop_count())?;
        for _stop in 0..network.stop_count() {
            by_source.push(Vec::new(alloc))?;
        }
        Ok(Wanted { by_source })
    }

    /// Customers more want to go from one stop to another.
    pub fn add(
        &mut self,
        alloc: Global,
        network: &Network,
        from: usize,
        to: usize,
        customers: u64,
    ) -> Result<(), NoMemory>
        requires wanted { AreWanted network.now self.old }
        requires from { from < length network.now.stops }
        requires to { to < length network.now.stops }
        requires room { sum_between (λ _. everyone) 0 self.old + customers < 2 ^ 64 }
        ensures wanted { OnOk result (AreWanted network.now self.new) }
        ensures added { OnOk result ((passes : ℕ → ℕ → Bool) → sum_between passes 0 self.new
            ≡ sum_between passes 0 self.old + (if passes from to then customers else 0)) }
    {
        self.start(alloc, network, from)?;
        add_at(&mut self.by_source[from], to, customers);
        Ok(())
    }

    // There is a list of customers from a stop.
    fn start(&mut self, alloc: Global, network: &Network, from: usize) -> Result<(), NoMemory>
        requires wanted { AreWanted network.now self.old }
        requires from { from < length network.now.stops }
        ensures wanted { OnOk result (AreWanted network.now self.new) }
        ensures there { OnOk result (length (slice_index_or self.new from [])
            ≡ length network.now.stops) }
        ensures same { OnOk result ((passes : ℕ → ℕ → Bool) → sum_between passes 0 self.new
            ≡ sum_between passes 0 self.old) }
    {
        if !self.by_source[from].is_empty() {
            return Ok(());
        }
        self.by_source[from] = vec![in alloc; 0; network.stop_count()]?;
        Ok(())
    }

    /// The customers from a stop to each stop.
    pub(crate) fn from_stop(&self, from: usize) -> &[u64]
        requires { from < length self.now }
        ensures { result.now ≡ slice_index_or self.now from [] }
    {
        &self.by_source[from]
    }
}

// Customers more want to go to a stop.
fn add_at(customers: &mut Vec<u64>, to: usize, more: u64)
    requires to { to < vec_len customers.old }
    requires room { slice_index_or customers.old.items to 0 + more < 2 ^ 64 }
    ensures { customers.new.items ≡ slice_set customers.old.items to
        (slice_index_or customers.old.items to 0 + more) }
{
    customers[to] += more;
}
