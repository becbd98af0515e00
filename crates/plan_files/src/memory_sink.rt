// A sink in memory.
ghost use Rattle.std.specs.Prelude.{◌≡◌, ◌++◌, ◌≤◌, [], Some, is_some, take, OnErr, OnOk};
ghost use Rattle.plan_files.specs.Counts.{Counts, last_count};
ghost use Rattle.plan_files.specs.Planned.{due, no_plan, with_fault, FaultLeaves, LeavesFront};
ghost use Rattle.plan_files.specs.Sinks.{WriteLeaves, is_broken};

use crate::fault_plan::{FaultPlan, front};
use crate::sink::Sink;
use crate::sink_fault::SinkFault;
use plan_num::NoMemory;
use std::alloc::Global;
use std::marker::Model;

/// A sink that keeps the pieces in memory. Its writes are numbered from 1, and those that are
/// listed fail, and no others.
///
/// A write that is listed fails also where memory for the bytes that it is to append is refused.
/// Then it appends nothing, and `unkept` counts it.
#[derive(Debug, Drop)]
pub struct MemorySink {
    bytes: Vec<u8>,
    plan: FaultPlan,
}

impl Model for MemorySink {
    ghost use Rattle.plan_files.specs.Sinks.{Taken};

    ghost Value = { Taken };

    ghost view = { λ sink. record { bytes = sink.bytes.items; plan = sink.plan } };
}

impl MemorySink {
    /// Nothing was written yet, and no call is to fail.
    pub fn new(alloc: Global) -> MemorySink
        ensures bytes { result.bytes ≡ [] }
        ensures plan { result.plan ≡ no_plan }
    {
        MemorySink {
            bytes: Vec::new(alloc),
            plan: FaultPlan::new(alloc),
        }
    }

    /// The bytes that were written.
    pub fn bytes(&self) -> &[u8]
        ensures { result.now ≡ self.now.bytes }
    {
        self.bytes.as_slice()
    }

    /// Lists a write, which then fails: it appends the first `kept` bytes of its piece, or all
    /// where there are fewer. Where a write is listed twice the last time counts, and to list one
    /// that has passed does nothing. On an error nothing more is listed.
    pub fn fail_at(&mut self, call: u64, kept: u64) -> Result<(), NoMemory>
        ensures bytes { self.new.bytes ≡ self.old.bytes }
        ensures ok { OnOk result (self.new.plan ≡ with_fault self.old.plan call (Some kept)) }
        ensures err { OnErr result (self.new.plan ≡ self.old.plan) }
    {
        self.plan.fail_at(call, Some(kept))
    }

    /// How many failed writes appended nothing because memory for it was refused.
    pub fn unkept(&self) -> u64
        ensures { result ≡ self.now.plan.unkept }
    {
        self.plan.unkept()
    }

    // Appends what a failed write keeps, or counts that memory for it was refused.
    fn keep_front(&mut self, piece: &[u8], kept: Option<u64>)
        ensures { LeavesFront (λ count. self.old.bytes ++ take count piece.now) kept
            self.old.bytes self.new.bytes self.old.plan self.new.plan }
    {
        if let Some(kept) = kept {
            if self.bytes.extend_from_slice(front(piece, kept)).is_err() {
                self.plan.count_unkept();
            }
        }
    }
}

impl Sink for MemorySink {
    ghost written = { λ sink. Some sink.bytes };

    ghost faults = { λ sink. sink.plan.failed };

    fn write(&mut self, piece: &[u8]) -> Result<(), SinkFault>
        ensures written { WriteLeaves piece.now (Some self.old.bytes) (Some self.new.bytes) result }
        ensures faults { Counts (is_broken result) self.old.plan.failed self.new.plan.failed }
        ensures capped { self.new.plan.failed ≤ last_count }

        // It fails exactly where a fault is due, which says what is appended then.
        ensures fails { is_broken result ≡ is_some (due self.old.plan) }
        ensures left { FaultLeaves (λ kept. self.old.bytes ++ take kept piece.now)
            (due self.old.plan) self.old.bytes self.new.bytes self.old.plan self.new.plan }
    {
        match self.plan.next_call() {
            None => {
                self.bytes.extend_from_slice(piece)?;
                Ok(())
            }
            Some(fault) => {
                self.keep_front(piece, fault.kept);
                Err(SinkFault::Failed)
            }
        }
    }
}
