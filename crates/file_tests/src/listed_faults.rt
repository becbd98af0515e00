// Files in memory of which listed calls fail.
use crate::calls::plays;
use crate::script::same;
use plan_files::MemoryFiles;
use plan_num::NoMemory;
use std::alloc::Global;
use std::process::Abort;
use std::test::Fail;

// Files of which these calls fail, with the number of bytes that a put keeps.
fn faulty(alloc: Global, faults: &[(u64, Option<u64>)]) -> Result<MemoryFiles, NoMemory> {
    let mut files = MemoryFiles::new(alloc);
    for (call, kept) in faults {
        files.fail_at(*call, *kept)?;
    }
    Ok(files)
}

// The writes that answered Ok, a line for each.
fn writes_of(alloc: Global, files: &MemoryFiles) -> Result<String, Fail> {
    let mut text = String::new(alloc);
    for index in 0..files.write_count() {
        text.push_str(if files.write_is_put(index) {
            "put "
        } else {
            "remove "
        })?;
        text.push_str(files.write_name(index))?;
        text.push_str("\n")?;
    }
    Ok(text)
}

// A put over a file fails, and leaves this. The next one does not.
fn after_a_failed_put(
    rt: &(impl AllocGlobal + Abort),
    kept: Option<u64>,
    left: &str,
) -> Result<MemoryFiles, Fail> {
    let mut files = faulty(rt.alloc(), &[(2, kept)])?;
    let script = format!(in rt.alloc();
        "put|Report|old|done\n\
        put|Report|new|file fault\n\
        get|Report|9|{left}\n\
        put|Report|next|done\n\
        get|Report|9|next\n"
    )?;
    plays(rt, &mut files, script.as_str(), 1)?;
    Ok(files)
}

// The writes that answered Ok are these, among so many calls.
fn has_writes(
    rt: &(impl AllocGlobal + Abort),
    files: &MemoryFiles,
    calls: u64,
    writes: &str,
) -> Result<(), Fail> {
    let told = writes_of(rt.alloc(), files)?;
    same(rt, told.as_str(), writes, "");
    assert_eq!(rt; files.calls(), calls);
    Ok(())
}

#[test]
fn failed_puts_leave_a_front_part(rt: HostRuntime) -> Result<(), Fail> {
    for (kept, left) in [
        (None, "old"),
        (Some(0), ""),
        (Some(1), "n"),
        (Some(9), "new"),
    ] {
        let files = after_a_failed_put(&rt, kept, left)?;
        has_writes(&rt, &files, 5, "put Report\nput Report\n")?;
        assert_eq!(rt; files.unkept(), 0);
    }
    Ok(())
}

// The seventh call is listed twice, and the last time counts.
const OTHER_FAULTS: [(u64, Option<u64>); 5] = [
    (2, Some(1)),
    (3, None),
    (5, Some(0)),
    (7, Some(9)),
    (7, Some(2)),
];

const OTHER_CALLS: &str = "put|basis/Stop.giv|1; A|done\n\
    get|basis/Stop.giv|9|file fault\n\
    remove|basis/Stop.giv||file fault\n\
    get|basis/Stop.giv|9|1; A\n\
    remove|basis/Edge.giv||file fault\n\
    remove|basis/Stop.giv||done\n\
    put|basis/Edge.giv|2; B|file fault\n\
    get|basis/Stop.giv|9|absent\n";

#[test]
fn other_failed_calls_change_nothing(rt: HostRuntime) -> Result<(), Fail> {
    let mut files = faulty(rt.alloc(), &OTHER_FAULTS)?;
    plays(&rt, &mut files, OTHER_CALLS, 4)?;
    has_writes(
        &rt,
        &files,
        8,
        "put basis/Stop.giv\nremove basis/Stop.giv\n",
    )?;
    same(&rt, file_of(&files, "basis/Edge.giv"), "2;", "");
    same(&rt, file_of(&files, "basis/Stop.giv"), "absent", "");
    Ok(())
}

// The bytes under a name.
fn file_of<'a>(files: &'a MemoryFiles, name: &str) -> &'a str {
    match files.file(name) {
        Some(text) => str::from_utf8(text.as_bytes()).unwrap_or("no text"),
        None => "absent",
    }
}

// Lists calls that have passed.
fn list_passed(files: &mut MemoryFiles) -> Result<(), NoMemory> {
    for call in 0..3 {
        files.fail_at(call, None)?;
    }
    Ok(())
}

#[test]
fn a_call_that_has_passed_does_not_fail(rt: HostRuntime) -> Result<(), Fail> {
    let mut files = MemoryFiles::new(rt.alloc());
    plays(&rt, &mut files, "put|Report|1|done\nget|Report|1|1\n", 0)?;
    list_passed(&mut files)?;
    plays(&rt, &mut files, "put|Report|2|done\nget|Report|1|2\n", 0)?;
    assert_eq!(rt; files.calls(), 4);
    Ok(())
}
