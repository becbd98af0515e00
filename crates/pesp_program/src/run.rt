// A run of the program.
use crate::command::{Command, Task, command_of};
use crate::report::{Ended, USAGE, apart_line, checked_line, judged_line, stop_line};
use crate::stop::Stop;
use pesp_judge::Judged;
use pesp_texts::{CheckedBound, check_texts, judge_texts, with_semicolons};
use plan_files::{FileFault, Files, FolderFiles, Got, Sink, StdSink};
use std::alloc::Global;
use std::rt::Env;
use std::{env, rt};

// A file has at most so many bytes.
const LONG: u64 = 67_108_864;

/// Answers the words of the command line, and gives the exit status: 0, or 9 where times are no
/// timetable or a certificate proves nothing, 2 where the words are no command, 3 where a text is
/// refused, 6 and 7 where a file or the output fails, and 8 where memory is refused.
pub(crate) fn run<R: AllocGlobal + Env + Eprint + rt::Files + Print>(rt: &R) -> u8 {
    let alloc = rt.alloc();
    let mut files = FolderFiles::here(rt, alloc);
    let mut out = StdSink::new(rt);
    let status = answer(rt, alloc, &mut files, &mut out);
    if let Some(failure) = files.failure() {
        let _told = eprintln!(rt; "pesp-judge: {failure}");
    }
    status
}

// Answers the words of the command line.
fn answer<R: AllocGlobal + Env, F: Files, K: Sink>(
    rt: &R,
    alloc: Global,
    files: &mut F,
    out: &mut K,
) -> u8 {
    let Ok(line) = env::args(rt) else {
        return 2;
    };
    let words: Vec<String> = match line.skip(1).collect(alloc) {
        Ok(words) => words,
        Err(_) => return 8,
    };
    match command_of(&words) {
        None => tell(out, USAGE.as_bytes(), 2),
        Some(command) => tell_ended(alloc, out, judge_files(alloc, files, command)),
    }
}

// Writes what a run ended with.
fn tell_ended<K: Sink>(alloc: Global, out: &mut K, ended: Result<Ended, Stop<'_>>) -> u8 {
    let ended = match ended {
        Ok(ended) => Ok(ended),
        Err(stop) => stop_line(alloc, stop),
    };
    match ended {
        Ok(ended) => tell(out, ended.text.as_bytes(), ended.status),
        Err(_) => 8,
    }
}

// Writes a report, and gives the status.
fn tell<K: Sink>(out: &mut K, report: &[u8], status: u8) -> u8 {
    match out.write(report) {
        Ok(()) => status,
        Err(_) => 7,
    }
}

// Judges what a command names.
fn judge_files<'a, F: Files>(
    alloc: Global,
    files: &mut F,
    command: Command<'a>,
) -> Result<Ended, Stop<'a>> {
    let instance = rows_in(alloc, files, command.instance)?;
    match command.task {
        Task::Check(times) => check(alloc, files, command, &instance, times),
        Task::Bound(certificate) => bound(alloc, files, command, &instance, certificate),
        Task::Both(times, certificate) => {
            let Found { ended, cost } = check_cost(alloc, files, command, &instance, times)?;
            let checked = checked_of(alloc, files, command, &instance, certificate)?;
            both(alloc, ended, cost, checked)
        }
    }
}

// Judges times.
fn check<'a, F: Files>(
    alloc: Global,
    files: &mut F,
    command: Command<'a>,
    instance: &[u8],
    name: &'a str,
) -> Result<Ended, Stop<'a>> {
    let Found { ended, cost: _ } = check_cost(alloc, files, command, instance, name)?;
    Ok(ended)
}

// What is said of times, and what they cost where they are a timetable.
#[derive(Drop)]
struct Found {
    ended: Ended,
    cost: Option<i128>,
}

// Judges times, and gives their cost.
fn check_cost<'a, F: Files>(
    alloc: Global,
    files: &mut F,
    command: Command<'a>,
    instance: &[u8],
    name: &'a str,
) -> Result<Found, Stop<'a>> {
    let times = rows_in(alloc, files, name)?;
    match judge_texts(alloc, instance, &times, command.period) {
        Err(stop) => Err(Stop::of(stop, command.instance, name)),
        Ok(it) => {
            let cost = match it.judged {
                Judged::Kept(cost) => Some(cost),
                Judged::Broken(_) => None,
            };
            Ok(Found {
                ended: judged_line(alloc, instance, command.instance, &it)?,
                cost,
            })
        }
    }
}

// Checks a certificate.
fn bound<'a, F: Files>(
    alloc: Global,
    files: &mut F,
    command: Command<'a>,
    instance: &[u8],
    name: &'a str,
) -> Result<Ended, Stop<'a>> {
    let it = checked_of(alloc, files, command, instance, name)?;
    checked_line(alloc, it)
}

// What is found of a certificate.
fn checked_of<'a, F: Files>(
    alloc: Global,
    files: &mut F,
    command: Command<'a>,
    instance: &[u8],
    name: &'a str,
) -> Result<CheckedBound, Stop<'a>> {
    let certificate = bytes_of(alloc, files, name)?;
    match check_texts(alloc, instance, &certificate, command.period) {
        Err(stop) => Err(Stop::of(stop, command.instance, name)),
        Ok(it) => Ok(it),
    }
}

// What is said of times and of a certificate, and how far both are apart.
fn both<'a>(
    alloc: Global,
    ended: Ended,
    cost: Option<i128>,
    it: CheckedBound,
) -> Result<Ended, Stop<'a>> {
    let Ended { text, status } = ended;
    let mut text = text;
    let line = checked_line(alloc, it)?;
    text.push_str(&line.text)?;
    if it.fault.is_none() && !it.above_all {
        push_apart(alloc, &mut text, cost, it.claim)?;
    }
    Ok(Ended {
        text,
        status: status.max(line.status),
    })
}

// Appends how far times and a bound are apart, where the times are a timetable.
fn push_apart<'a>(
    alloc: Global,
    text: &mut String,
    cost: Option<i128>,
    claim: i64,
) -> Result<(), Stop<'a>> {
    match cost {
        None => Ok(()),
        Some(cost) => {
            let line = apart_line(alloc, cost, claim)?;
            text.push_str(&line)?;
            Ok(())
        }
    }
}

// The rows of a file, with semicolons between their fields.
fn rows_in<'a, F: Files>(alloc: Global, files: &mut F, name: &'a str) -> Result<Vec<u8>, Stop<'a>> {
    let mut text = bytes_of(alloc, files, name)?;
    match with_semicolons(alloc, &mut text) {
        Ok(()) => Ok(text),
        Err(stop) => Err(Stop::of_text(stop, name)),
    }
}

// The bytes of a file.
fn bytes_of<'a, F: Files>(
    alloc: Global,
    files: &mut F,
    name: &'a str,
) -> Result<Vec<u8>, Stop<'a>> {
    match files.get(alloc, name, LONG) {
        Ok(Got::Bytes(text)) => Ok(Vec::from_slice(alloc, text.as_bytes())?),
        Ok(Got::Absent) => Err(Stop::Missing(name)),
        Ok(Got::TooLong) => Err(Stop::TooLong(name)),
        Err(FileFault::NoMemory) => Err(Stop::NoMemory),
        Err(FileFault::Failed) => Err(Stop::FileFault),
    }
}
