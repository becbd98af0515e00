// Demo datasets: two small ones written out, and the largest one counted.
use crate::script::same;
use demo_dataset::demo_files;
use plan_files::SteadyFiles;
use std::alloc::{AllocError, Global};
use std::process::Abort;
use std::test::Fail;

const STOP: &str = "basis/Stop.giv";

const EDGE: &str = "basis/Edge.giv";

const POOL: &str = "basis/Pool.giv";

const DEMAND: &str = "basis/OD.giv";

// The rows of a file.
fn rows_of<'a>(files: &'a SteadyFiles, name: &str) -> Result<&'a str, Fail> {
    let text = files.file(name).ok_or("no file")?;
    Ok(str::from_utf8(text.as_bytes()).ok().ok_or("no text")?)
}

// The five files have these texts, and there are no other writes.
fn has_texts(
    rt: &(impl AllocGlobal + Abort),
    files: &SteadyFiles,
    texts: [&str; 5],
) -> Result<(), Fail> {
    assert_eq!(rt; files.write_count(), 5);
    let names = ["basis/Config.cnf", STOP, EDGE, POOL, DEMAND];
    for (name, text) in names.iter().zip(&texts) {
        same(rt, rows_of(files, *name)?, *text, *name);
    }
    Ok(())
}

#[test]
fn one_stop_has_no_edges(rt: HostRuntime) -> Result<(), Fail> {
    let files = demo_files(rt.alloc(), 1)?;
    has_texts(&rt, &files, ["", "1; s; s; 0; 0\n", "", "", ""])
}

#[test]
fn four_stops_have_six_lines(rt: HostRuntime) -> Result<(), Fail> {
    let files = demo_files(rt.alloc(), 2)?;
    let stops = "1; s; s; 0; 0\n2; s; s; 0; 0\n3; s; s; 0; 0\n4; s; s; 0; 0\n";
    let edges = "1; 1; 2; 1; 4; 5\n2; 3; 4; 1; 5; 6\n3; 1; 3; 1; 3; 4\n4; 2; 4; 1; 4; 5\n";
    let lines = "1; 1; 1\n2; 1; 2\n3; 1; 3\n4; 1; 4\n5; 1; 1\n5; 2; 4\n6; 1; 3\n6; 2; 2\n";
    let demand = "1; 2; 67\n2; 1; 67\n3; 4; 63\n4; 3; 63\n1; 3; 59\n3; 1; 59\n2; 4; 55\n4; 2; 55\n";
    has_texts(&rt, &files, ["", stops, edges, lines, demand])
}

// How many rows a file has, with the first and the last one.
fn rows_told(alloc: Global, rows: &str) -> Result<String, AllocError> {
    let count = rows.lines().count();
    let first = rows.lines().next().unwrap_or("");
    let last = rows.lines().last().unwrap_or("");
    format!(in alloc; "{count}: {first} to {last}")
}

#[test]
fn the_largest_has_eighteen_lines(rt: HostRuntime) -> Result<(), Fail> {
    let files = demo_files(rt.alloc(), 8)?;
    for (name, wanted) in [
        (STOP, "64: 1; s; s; 0; 0 to 64; s; s; 0; 0"),
        (EDGE, "112: 1; 1; 2; 1; 4; 5 to 112; 56; 64; 1; 4; 5"),
        (POOL, "140: 1; 1; 1 to 18; 14; 56"),
        (DEMAND, "224: 1; 2; 67 to 64; 56; 33"),
    ] {
        let told = rows_told(rt.alloc(), rows_of(&files, name)?)?;
        same(&rt, told.as_str(), wanted, name);
    }
    Ok(())
}
