// Reports, and how they are written.
ghost use Rattle.command_line.specs.Reports.{Reported, FaultReported};
ghost use Rattle.command_line.specs.Statuses.{IsReport};

use crate::status::Status;
use plan_files::{Sink, SinkFault};

/// Writes a report by one call, and answers the status that it ends with.
pub fn tell<K: Sink>(out: &mut K, report: &[u8], status: Status) -> Status
    requires { IsReport status }
    ensures { Reported report.now status (K.written out.old) (K.written out.new)
        (K.faults out.old) (K.faults out.new) result }
{
    match out.write(report) {
        Ok(()) => status,
        Err(SinkFault::Failed) => Status::SinkFault,
        Err(SinkFault::NoMemory) => Status::NoMemory,
    }
}

/// Writes the report of a file fault. Where the sink fails too, the answer stays the file fault.
pub fn tell_fault<K: Sink>(out: &mut K) -> Status
    ensures { FaultReported (K.written out.old) (K.written out.new)
        (K.faults out.old) (K.faults out.new) result }
{
    match out.write(b"file fault\n") {
        Ok(()) | Err(SinkFault::Failed) => Status::FileFault,
        Err(SinkFault::NoMemory) => Status::NoMemory,
    }
}
