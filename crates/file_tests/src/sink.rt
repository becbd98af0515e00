// Sinks in memory.
ghost use Rattle.std.specs.Prelude.{◌≡◌, [], false};
ghost use Rattle.plan_files.specs.Sinks.{is_broken};

use crate::script::{cases, cut, same};
use plan_files::{MemorySink, Sink, SinkFault};
use plan_num::NoMemory;
use std::alloc::Global;
use std::process::Abort;
use std::test::Fail;

fn write_all<S: Sink>(sink: &mut S, pieces: &[&str]) -> Result<(), SinkFault> {
    for piece in pieces {
        sink.write(piece.as_bytes())?;
    }
    Ok(())
}

// Where no write is listed none fails, so a caller knows.
fn write_steadily(sink: &mut MemorySink, piece: &[u8]) -> Result<(), SinkFault>
    requires { sink.old.plan.listed ≡ [] }
    ensures steady { is_broken result ≡ false }
    ensures listed { sink.new.plan.listed ≡ [] }
{
    sink.write(piece)
}

#[test]
fn keeps_pieces(rt: HostRuntime) -> Result<(), Fail> {
    let mut sink = MemorySink::new(rt.alloc());
    assert_eq!(rt; sink.bytes(), b"".as_slice());
    write_steadily(&mut sink, b"cost: 2 lines\n")?;
    write_all(&mut sink, &["", "done\n"])?;
    assert_eq!(rt; sink.bytes(), b"cost: 2 lines\ndone\n".as_slice());
    Ok(())
}

// A sink of which these writes fail, with the number of bytes that each appends.
fn faulty(alloc: Global, faults: &[(u64, u64)]) -> Result<MemorySink, NoMemory> {
    let mut sink = MemorySink::new(alloc);
    for (call, kept) in faults {
        sink.fail_at(*call, *kept)?;
    }
    Ok(sink)
}

// A piece for each write, its answer, and what the sink has then.
const WRITES: &str = "cost\n|done|cost\n~\
    2 lines\n|sink fault|cost\n2 lin~\
    es\n|done|cost\n2 lines\n~\
    done\n|sink fault|cost\n2 lines\ndone\n~\
    more|sink fault|cost\n2 lines\ndone\n~\
    |done|cost\n2 lines\ndone\n~";

// The answer of a write in words.
fn answer_told(written: Result<(), SinkFault>) -> &'static str {
    match written {
        Ok(()) => "done",
        Err(SinkFault::Failed) => "sink fault",
        Err(SinkFault::NoMemory) => "out of memory",
    }
}

// Makes one of the writes.
fn writes_as_told(rt: &impl Abort, sink: &mut MemorySink, case: &str) {
    let (piece, rest) = cut(case, '|');
    let (wanted, left) = cut(rest, '|');
    same(rt, answer_told(sink.write(piece.as_bytes())), wanted, case);
    same(
        rt,
        str::from_utf8(sink.bytes()).unwrap_or("no text"),
        left,
        case,
    );
}

// The fifth write is listed twice, and the last time counts.
#[test]
fn listed_writes_fail(rt: HostRuntime) -> Result<(), Fail> {
    let mut sink = faulty(rt.alloc(), &[(2, 5), (4, 9), (5, 9), (5, 0)])?;
    let writes = cases(rt.alloc(), WRITES, '~')?;
    for case in &writes {
        writes_as_told(&rt, &mut sink, *case);
    }
    assert_eq!(rt; writes.len(), 6);
    assert_eq!(rt; sink.unkept(), 0);
    Ok(())
}
