// The standard output as a sink.
ghost use Rattle.std.specs.Prelude.{◌≡◌, None};

use crate::faults::count_fault;
use crate::sink::Sink;
use crate::sink_fault::SinkFault;
use plan_num::Tally;
use std::io;
use std::io::{ErrorKind, Write};

/// The standard output. What it takes is not told.
#[derive(Drop)]
pub struct StdSink<'a, R: Print> {
    rt: &'a R,
    faults: Tally,
}

impl<'a, R: Print> StdSink<'a, R> {
    /// No write has failed yet.
    pub fn new(rt: &'a R) -> StdSink<'a, R>
        ensures { result.faults ≡ 0 }
    {
        StdSink {
            rt,
            faults: Tally::new(),
        }
    }
}

impl<R: Print> Sink for StdSink<'_, R> {
    ghost written = { λ _. None };

    ghost faults = { λ sink. sink.faults };

    fn write(&mut self, piece: &[u8]) -> Result<(), SinkFault> {
        // What is read is known to be a number of 64 bits.
        let _seen = self.faults.seen();
        match print_whole(self.rt, piece) {
            Ok(()) => Ok(()),
            Err(_) => {
                count_fault(&mut self.faults);
                Err(SinkFault::Failed)
            }
        }
    }
}

// Writes until the whole piece is out. A write that takes nothing is an error.
fn print_whole<R: Print>(rt: &R, piece: &[u8]) -> io::Result<()> {
    let mut output = io::writer(rt);
    let mut rest = piece;
    for _ in 0..u64::MAX {
        if rest.is_empty() {
            return output.flush();
        }
        match output.write(rest) {
            Ok(0) => return Err(io::Error::from(ErrorKind::WriteZero)),
            Ok(count) => rest = &rest[count..],
            Err(error) if error.kind() == ErrorKind::Interrupted => {}
            Err(error) => return Err(error),
        }
    }
    Err(io::Error::from(ErrorKind::TimedOut))
}
