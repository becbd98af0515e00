// The standard output as a sink.
use plan_files::{Sink, SinkFault, StdSink};
use std::cell::Cell;
use std::fmt::Display;
use std::io;
use std::io::ErrorKind;
use std::test::Fail;

// Takes a few bytes at a time, and nothing once it is full. Every other write is refused, or
// interrupted.
#[derive(Drop)]
struct Output {
    room: Cell<usize>,
    is_ready: Cell<bool>,
    reason: ErrorKind,
}

impl Print for Output {
    fn print<D: Display + Drop>(&self, _value: D) -> io::Result<()> {
        Err(io::Error::from(ErrorKind::Unsupported))
    }

    fn println<D: Display + Drop>(&self, _value: D) -> io::Result<()> {
        Err(io::Error::from(ErrorKind::Unsupported))
    }

    fn write_all(&self, _bytes: &[u8]) -> io::Result<()> {
        Err(io::Error::from(ErrorKind::Unsupported))
    }

    fn write_some(&self, bytes: &[u8]) -> io::Result<usize> {
        let is_ready = self.is_ready.get();
        self.is_ready.set(!is_ready);
        if !is_ready {
            return Err(io::Error::from(self.reason));
        }
        let room = self.room.get();
        let count = bytes.len().min(2).min(room);
        self.room.set(room - count);
        Ok(count)
    }
}

// Has room for six bytes.
fn small_output(reason: ErrorKind) -> Output {
    Output {
        room: Cell::new(6),
        is_ready: Cell::new(false),
        reason,
    }
}

#[test]
fn each_error_is_a_failure(rt: HostRuntime) {
    for reason in [ErrorKind::BrokenPipe, ErrorKind::OutOfMemory] {
        let output = small_output(reason);
        let mut sink = StdSink::new(&output);
        assert_eq!(rt; sink.write(b"done\n"), Err(SinkFault::Failed), "{reason:?}");
    }
}

#[test]
fn the_real_output_takes_a_piece(rt: HostRuntime) -> Result<(), Fail> {
    let mut output = StdSink::new(&rt);
    output.write(b"cost: 2 lines\n")?;
    Ok(())
}

#[test]
fn writes_whole_pieces(rt: HostRuntime) {
    let full = small_output(ErrorKind::Interrupted);
    let mut sink = StdSink::new(&full);
    let rows = [
        ("done\n", Ok(()), 1),
        ("", Ok(()), 1),
        ("abc", Err(SinkFault::Failed), 0),
        ("", Ok(()), 0),
        ("d", Err(SinkFault::Failed), 0),
    ];
    for (piece, wanted, room) in rows {
        assert_eq!(rt; sink.write(piece.as_bytes()), wanted, "{piece:?}");
        assert_eq!(rt; full.room.get(), room, "{piece:?}");
    }
}
