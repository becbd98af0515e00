// Calls on files, as lines of a script.
ghost use Rattle.std.specs.Prelude.{◌≡◌};
ghost use Rattle.plan_files.specs.Counts.{Counts};
ghost use Rattle.plan_files.specs.Folder.{has_failed};

use crate::script::{cases, cut, same};
use plan_files::{FileFault, Files, Got};
use plan_num::{Ledger, Tally, Text};
use std::alloc::{AllocError, Global};
use std::process::Abort;
use std::test::Fail;

// What a call answered: what was got, or nothing for a call that changes files.
type Answer = Result<Option<Got>, FileFault>;

// A call on the file of a name, and its answer in words.
#[derive(Drop)]
struct Line<'a> {
    name: &'a str,
    call: Call<'a>,
    wanted: &'a str,
}

#[derive(Drop)]
enum Call<'a> {
    Put(&'a str),
    Get(u64),
    Has(&'a str),
    Behind(&'a str),
    Remove,
}

// The line `put|name|text|answer`, `get|name|limit|answer` or `remove|name||answer`; or
// `has|name|text|answer`, where the answer is `done` for yes and `absent` for no; or
// `behind|name|front,more|answer` with a front of two pieces.
fn line_of(text: &str) -> Line<'_> {
    let (word, rest) = cut(text, '|');
    let (name, rest) = cut(rest, '|');
    let (given, wanted) = cut(rest, '|');
    let call = call_of(word, given);
    Line { name, call, wanted }
}

fn call_of<'a>(word: &str, given: &'a str) -> Call<'a> {
    match word.as_bytes() {
        [b'p', ..] => Call::Put(given),
        [b'g', ..] => Call::Get(limit_of(given)),
        [b'h', ..] => Call::Has(given),
        [b'b', ..] => Call::Behind(given),
        _ => Call::Remove,
    }
}

fn limit_of(given: &str) -> u64 {
    given.parse::<u64>().unwrap_or(0)
}

// Makes the call of a line. Where it fails, and only there, the count of faults rises.
fn make<F: Files>(alloc: Global, files: &mut F, line: &Line<'_>) -> Answer
    ensures { Counts (has_failed result) (F.faults files.old) (F.faults files.new) }
{
    match &line.call {
        Call::Put(text) => changed(files.put(line.name, text.as_bytes())),
        Call::Get(limit) => got(files.get(alloc, line.name, *limit)),
        Call::Has(text) => seen(files.has_bytes(alloc, line.name, text.as_bytes())),
        Call::Behind(front) => {
            let (first, second) = cut(front, ',');
            let pieces = [first.as_bytes(), second.as_bytes()];
            left(files.get_behind(alloc, line.name, &pieces))
        }
        Call::Remove => changed(files.remove(line.name)),
    }
}

// The answer of a call that changes files.
fn changed(made: Result<(), FileFault>) -> Answer
    ensures { has_failed result ≡ has_failed made }
{
    match made {
        Ok(()) => Ok(None),
        Err(fault) => Err(fault),
    }
}

// The answer of a `get`.
fn got(found: Result<Got, FileFault>) -> Answer
    ensures { has_failed result ≡ has_failed found }
{
    match found {
        Ok(got) => Ok(Some(got)),
        Err(fault) => Err(fault),
    }
}

// The answer of a `has_bytes`.
fn seen(has: Result<bool, FileFault>) -> Answer
    ensures { has_failed result ≡ has_failed has }
{
    match has {
        Ok(true) => Ok(None),
        Ok(false) => Ok(Some(Got::Absent)),
        Err(fault) => Err(fault),
    }
}

// The answer of a `get_behind`.
fn left(found: Result<Option<Vec<u8>>, FileFault>) -> Answer
    ensures { has_failed result ≡ has_failed found }
{
    match found {
        Ok(Some(bytes)) => Ok(Some(Got::Bytes(Text::from_vec(bytes)))),
        Ok(None) => Ok(Some(Got::Absent)),
        Err(fault) => Err(fault),
    }
}

// An answer in words, or the bytes that were got.
fn told(alloc: Global, answer: &Answer) -> Result<String, AllocError> {
    match answer {
        Ok(None) => String::from_str(alloc, "done"),
        Ok(Some(Got::Bytes(text))) => String::from_utf8_lossy(alloc, text.as_bytes()),
        Ok(Some(Got::Absent)) => String::from_str(alloc, "absent"),
        Ok(Some(Got::TooLong)) => String::from_str(alloc, "too long"),
        Err(fault) => format!(in alloc; "{fault}"),
    }
}

// Looks at an answer, and counts it where it is a failure for another cause than want of memory.
fn look(
    rt: &(impl AllocGlobal + Abort),
    answer: &Answer,
    line: &Line<'_>,
    failed: &mut Tally,
) -> Result<(), Fail> {
    if let Err(FileFault::Failed) = answer {
        failed.note();
    }
    let told = told(rt.alloc(), answer)?;
    same(rt, told.as_str(), line.wanted, line.name);
    Ok(())
}

/// Makes the calls of a script in order, and looks at each answer. So many calls fail.
pub(crate) fn plays<F: Files>(
    rt: &(impl AllocGlobal + Abort),
    files: &mut F,
    script: &str,
    failed: u64,
) -> Result<(), Fail> {
    let mut found = Tally::new();
    for text in &cases(rt.alloc(), script, '\n')? {
        let line = line_of(*text);
        let answer = make(rt.alloc(), files, &line);
        look(rt, &answer, &line, &mut found)?;
    }
    assert_eq!(rt; found.seen(), failed);
    Ok(())
}
