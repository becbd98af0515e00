// Files in memory, and words for faults.
use crate::calls::plays;
use crate::folder::COMPARED;
use crate::script::same;
use plan_files::{FileFault, SinkFault, SteadyFiles};
use std::alloc::Global;
use std::test::Fail;

#[test]
fn names_faults(rt: HostRuntime) -> Result<(), Fail> {
    let files = [FileFault::Failed, FileFault::NoMemory];
    for (fault, wanted) in files.iter().zip(&["file fault", "out of memory"]) {
        same(&rt, fault.to_string(rt.alloc())?.as_str(), *wanted, "");
    }
    let sinks = [SinkFault::Failed, SinkFault::NoMemory];
    for (fault, wanted) in sinks.iter().zip(&["sink fault", "out of memory"]) {
        same(&rt, fault.to_string(rt.alloc())?.as_str(), *wanted, "");
    }
    Ok(())
}

const WRITTEN: &str = "get|basis/Stop.giv|9|absent\n\
    remove|basis/Stop.giv||done\n\
    put|basis/Stop.giv|1; A|done\n\
    put|basis/Edge.giv||done\n\
    get|basis/Stop.giv|4|1; A\n\
    get|basis/Stop.giv|3|too long\n\
    get|basis/Edge.giv|0|\n\
    put|basis/Stop.giv|2|done\n\
    get|basis/Stop.giv|1|2\n\
    remove|basis/Edge.giv||done\n\
    get|basis/Edge.giv|9|absent\n\
    get|basis/Stop.giv|9|2\n";

// The writes of that script.
const WRITES: &str = "remove basis/Stop.giv\n\
    put basis/Stop.giv\n\
    put basis/Edge.giv\n\
    put basis/Stop.giv\n\
    remove basis/Edge.giv\n";

// The writes that were made, a line for each.
fn writes_of(alloc: Global, files: &SteadyFiles) -> Result<String, Fail> {
    let mut text = String::new(alloc);
    for index in 0..files.write_count() {
        text.push_str(if files.write_is_put(index) {
            "put "
        } else {
            "remove "
        })?;
        text.push_str(files.write_name(index))?;
        text.push_str("\n")?;
    }
    Ok(text)
}

#[test]
fn compares_files(rt: HostRuntime) -> Result<(), Fail> {
    let mut files = SteadyFiles::new(rt.alloc());
    plays(&rt, &mut files, COMPARED, 0)
}

#[test]
fn keeps_writes(rt: HostRuntime) -> Result<(), Fail> {
    let mut files = SteadyFiles::new(rt.alloc());
    plays(&rt, &mut files, WRITTEN, 0)?;
    let stop = files.file("basis/Stop.giv").ok_or("no file")?;
    assert_eq!(rt; stop.as_bytes(), b"2".as_slice());
    assert!(rt; files.file("basis/Edge.giv").is_none());
    assert_eq!(rt; files.write_count(), 5);
    let told = writes_of(rt.alloc(), &files)?;
    same(&rt, told.as_str(), WRITES, "");
    Ok(())
}
