// Calls that are listed to fail.
ghost use Rattle.std.specs.Prelude.{◌≡◌, ◌≤◌, IfOk, is_some, take, OnErr, OnOk};
ghost use Rattle.plan_files.specs.Counts.{Counts, last_count, next_count};
ghost use Rattle.plan_files.specs.Planned.{after_call, due, fault_of, no_plan, with_fault};
ghost use Rattle.plan_files.specs.Planned.{with_unkept};

use plan_num::NoMemory;
use std::alloc::Global;
use std::marker::Model;

/// A call that is to fail.
#[derive(Clone, Copy, Debug)]
pub(crate) struct ListedFault {
    // the number of the call
    pub call: u64,
    // how many of its bytes a failing call keeps, or None where it leaves all as it was
    pub kept: Option<u64>,
}

/// Counts calls, and knows which of them are to fail.
#[derive(Debug, Drop)]
pub(crate) struct FaultPlan {
    calls: u64,
    // the newest one first
    listed: Vec<ListedFault>,
    failed: u64,
    // failed calls that were to keep bytes, and for which memory was refused
    unkept: u64,
}

impl Model for FaultPlan {
    ghost use Rattle.plan_files.specs.Planned.{Planned};

    ghost Value = { Planned };

    ghost view = { λ plan. record {
      calls = plan.calls;
      listed = plan.listed.items;
      failed = plan.failed;
      unkept = plan.unkept;
    } };
}

impl FaultPlan {
    /// No call was made yet, and none is to fail.
    pub fn new(alloc: Global) -> FaultPlan
        ensures { result ≡ no_plan }
    {
        FaultPlan {
            calls: 0,
            listed: Vec::new(alloc),
            failed: 0,
            unkept: 0,
        }
    }

    /// How many calls were made.
    pub fn calls(&self) -> u64
        ensures { result ≡ self.now.calls }
    {
        self.calls
    }

    /// How many failed calls kept nothing, for want of memory.
    pub fn unkept(&self) -> u64
        ensures { result ≡ self.now.unkept }
    {
        self.unkept
    }

    /// Lists a call. On an error all is as before.
    pub fn fail_at(&mut self, call: u64, kept: Option<u64>) -> Result<(), NoMemory>
        ensures ok { OnOk result (self.new ≡ with_fault self.old call kept) }
        ensures err { OnErr result (self.new ≡ self.old) }
    {
        self.listed.insert(0, ListedFault { call, kept })?;
        Ok(())
    }

    /// Counts a call, and gives the fault that is due for it.
    pub fn next_call(&mut self) -> Option<ListedFault>
        ensures due { result ≡ due self.old }
        ensures after { self.new ≡ after_call self.old }
        ensures counts { Counts (is_some result) self.old.failed self.new.failed }
        ensures capped { self.new.failed ≤ last_count }
    {
        // What is read is known to be a number of 64 bits.
        let failed = self.failed;
        self.calls = next_count(self.calls);
        let fault = fault_of(&self.listed, self.calls);
        if fault.is_some() {
            self.failed = next_count(failed);
        }
        fault
    }

    /// Counts that a failed call kept nothing, for want of memory.
    pub fn count_unkept(&mut self)
        ensures { self.new ≡ with_unkept self.old }
    {
        self.unkept = next_count(self.unkept);
    }
}

// One more, up to where a counter stops.
fn next_count(count: u64) -> u64
    ensures { result ≡ next_count count }
{
    count.saturating_add(1)
}

// The newest fault that is listed for a call.
fn fault_of(listed: &[ListedFault], call: u64) -> Option<ListedFault>
    ensures { result ≡ fault_of listed.now call }
{
    listed.iter().copied().find(|fault| fault.call == call)
}

/// The first bytes, so many of them, or all where there are fewer.
pub(crate) fn front(bytes: &[u8], kept: u64) -> &[u8]
    ensures { result.now ≡ take kept bytes.now }
{
    if kept < bytes.len() as u64 {
        &bytes[..kept as usize]
    } else {
        bytes
    }
}
