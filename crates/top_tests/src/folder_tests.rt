// Runs over a real folder, and to the standard output.
use crate::call::call;
use lintim_cli::{Status, demo_files};
use plan_files::{Files, FolderFiles, Got, MemorySink, Sink, StdSink, SteadyFiles};
use plan_num::NoMemory;
use std::alloc::Global;
use std::fs;
use std::test::Fail;

const FOLDERS: [&str; 7] = [
    "basis",
    "line-planning",
    "timetabling",
    "delay-management",
    "vehicle-scheduling",
    "statistic",
    "keep",
];

// The folders of a dataset are taken away, where they are there.
fn clear(rt: &HostRuntime) {
    for folder in FOLDERS {
        let _ = fs::remove_dir_all(rt, folder);
    }
}

// A demo dataset with the files that its stages make.
fn made_demo(alloc: Global) -> Result<SteadyFiles, NoMemory> {
    let mut files = demo_files(alloc, 3)?;
    let mut out = MemorySink::new(alloc);
    call(alloc, "make", &mut files, &mut out)?;
    Ok(files)
}

// Puts each file that a demo dataset has, as it was put there last.
fn put_all<F: Files>(files: &mut F, demo: &SteadyFiles) -> Result<(), Fail> {
    for index in 0..demo.write_count() {
        let name = demo.write_name(index);
        if let Some(text) = demo.file(name) {
            files.put(name, text.as_bytes())?;
        }
    }
    Ok(())
}

// Whether a file is there with these bytes.
fn holds<F: Files>(alloc: Global, files: &mut F, name: &str, bytes: &[u8]) -> Result<bool, Fail> {
    match files.get(alloc, name, 1_000_000)? {
        Got::Bytes(found) => Ok(found.as_bytes() == bytes),
        Got::Absent | Got::TooLong => Ok(false),
    }
}

// Whether each file that a demo dataset has is there.
fn hold_all<F: Files>(alloc: Global, files: &mut F, demo: &SteadyFiles) -> Result<bool, Fail> {
    for index in 0..demo.write_count() {
        let name = demo.write_name(index);
        if let Some(text) = demo.file(name) {
            if !holds(alloc, files, name, text.as_bytes())? {
                return Ok(false);
            }
        }
    }
    Ok(true)
}

// Whether a run ends so, with this report.
fn makes<F: Files>(
    alloc: Global,
    files: &mut F,
    status: Status,
    report: &[u8],
) -> Result<bool, NoMemory> {
    let mut out = MemorySink::new(alloc);
    Ok(call(alloc, "make", files, &mut out)? == status && out.bytes().ends_with(report))
}

// Whether a run over the files that people write makes in a folder what it makes in memory.
fn is_filled<F: Files>(alloc: Global, files: &mut F) -> Result<bool, Fail> {
    put_all(files, &demo_files(alloc, 3)?)?;
    Ok(makes(alloc, files, Status::Done, b"done\n")? && hold_all(alloc, files, &made_demo(alloc)?)?)
}

// A folder takes the place of a made file.
fn block<F: Files>(files: &mut F) -> Result<(), Fail> {
    files.remove("basis/Pool-Cost.giv")?;
    Ok(files.put("basis/Pool-Cost.giv/inside", b"kept")?)
}

// Whether the answer is a file fault where a folder stands in the place of a made file, and nothing is
// lost.
fn is_broken<F: Files>(alloc: Global, files: &mut F) -> Result<bool, Fail> {
    block(files)?;
    Ok(
        makes(alloc, files, Status::FileFault, b"file fault\n")?
            && holds(alloc, files, "basis/Pool-Cost.giv/inside", b"kept")?,
    )
}

#[test]
fn a_real_folder_is_used(rt: HostRuntime) -> Result<(), Fail> {
    clear(&rt);
    let mut files = FolderFiles::here(&rt, rt.alloc());
    assert!(&rt; is_filled(rt.alloc(), &mut files)?);
    assert!(&rt; is_broken(rt.alloc(), &mut files)?);
    clear(&rt);
    Ok(())
}

// A run without files reports to the standard output what it misses.
#[test]
fn a_report_goes_to_the_standard_output(rt: HostRuntime) -> Result<(), Fail> {
    let mut files = SteadyFiles::new(rt.alloc());
    let mut out = StdSink::new(&rt);
    let ended = call(rt.alloc(), "make", &mut files, &mut out)?;
    assert_eq!(&rt; ended, Status::BadInput);
    out.write(b"and more\n")?;
    Ok(())
}
