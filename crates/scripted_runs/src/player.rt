// A player of scripts.
use crate::names::{KEPT, MADE};
use lintim_cli::{Status, lintim};
use plan_files::{Files, Sink};
use plan_num::{Steps, Tally};
use script_files::{Script, SpyFiles, SpySink, Trouble};
use std::alloc::{AllocError, Global};
use std::mem;

// Runs the program. Nothing is promised of this call, so that no proof of a script's command goes
// over all that the program promises.
fn invoke<F: Files, K: Sink>(
    alloc: Global,
    words: &[String],
    files: &mut F,
    out: &mut K,
    steps: &mut Steps<Tally>,
) -> Status {
    lintim(alloc, words, files, out, steps)
}

fn words_of(alloc: Global, line: &str) -> Result<Vec<String>, AllocError> {
    let mut words = Vec::new(alloc);
    for word in line.split_whitespace() {
        words.push(String::from_str(alloc, word)?)?;
    }
    Ok(words)
}

// How a run ended.
#[derive(Clone, Copy)]
pub(crate) struct Ended {
    pub(crate) status: u8,
    pub(crate) steps: u64,
}

// The files of a script, and its last run.
#[derive(Drop)]
pub(crate) struct Player<'a> {
    pub(crate) alloc: Global,
    pub(crate) worked: &'a str,
    pub(crate) files: SpyFiles,
    pub(crate) out: SpySink,
    pub(crate) ended: Ended,
    pub(crate) noted: SpyFiles,
    pub(crate) writes_before: usize,
    pub(crate) calls_before: u64,
    pub(crate) lines_before: Vec<u8>,
    pub(crate) sink_kept: Option<u64>,
}

impl<'a> Player<'a> {
    // A player over an empty folder, with the worked texts.
    pub(crate) fn new(alloc: Global, worked: &'a str) -> Player<'a> {
        Player {
            alloc,
            worked,
            files: SpyFiles::new(alloc),
            out: SpySink::new(alloc),
            ended: Ended {
                status: 0,
                steps: 0,
            },
            noted: SpyFiles::new(alloc),
            writes_before: 0,
            calls_before: 0,
            lines_before: Vec::new(alloc),
            sink_kept: None,
        }
    }

    // Goes through a script, and gives the first line that does not hold, if there is one.
    pub(crate) fn play<'b>(&mut self, text: &'b str) -> Result<Option<&'b str>, Trouble> {
        let mut script = Script::new(text);
        for _line in 0..text.len() {
            let Some(line) = script.line() else { break };
            if !self.obey(line, &mut script)? {
                return Ok(Some(line));
            }
        }
        Ok(None)
    }

    // What is told of a line that does not hold.
    pub(crate) fn tell(&self, line: &str) -> Result<String, Trouble> {
        let mut told = String::from_str(self.alloc, line)?;
        for part in [self.out.sink.bytes(), self.files.lines.as_slice()] {
            told.push_str("\n")?;
            told.push_str(str::from_utf8(part).unwrap_or("no text"))?;
        }
        Ok(told)
    }

    // Does what a line says, and tells whether all is as it has to be.
    fn obey(&mut self, line: &str, script: &mut Script) -> Result<bool, Trouble> {
        let (word, rest) = line.split_once(' ').unwrap_or((line, ""));
        match word {
            "" | "//" => Ok(true),
            "run" => self.run(rest),
            "reads" => self.reads(rest, script),
            "stops" => self.stops_at_each_call(rest),
            "ends" => Ok(self.ends(rest)),
            "piece" => Ok(self.is_one_piece(rest)),
            "calls" => Ok(self.has_called(rest)),
            "called" => self.has_made_calls(rest, script),
            "writes" => Ok(self.has_written(script)),
            "made" => Ok(self.has_made(rest)),
            _ => self.obey_on_a_report(word, rest, script),
        }
    }

    fn obey_on_a_report(
        &mut self,
        word: &str,
        rest: &str,
        script: &mut Script,
    ) -> Result<bool, Trouble> {
        let report = self.out.sink.bytes();
        match word {
            "report" => Ok(report == script.text(self.alloc)?.as_slice()),
            "begins" => Ok(report.starts_with(&script.text(self.alloc)?)),
            "closes" => Ok(report.ends_with(&script.text(self.alloc)?)),
            "says" => Ok(report == rest.as_bytes()),
            _ => self.obey_on_a_file(word, rest, script),
        }
    }

    fn obey_on_a_file(
        &mut self,
        word: &str,
        name: &str,
        script: &mut Script,
    ) -> Result<bool, Trouble> {
        match word {
            "holds" => Ok(self.text_of(name) == Some(script.text(self.alloc)?.as_slice())),
            "worked" => self.is_worked(name),
            "is" => Ok(self.is(name)),
            "size" => Ok(self.has_size(name)),
            "lacks" => Ok(self.text_of(name).is_none()),
            "same" => Ok(self.is_same(name)),
            _ => self.change(word, name, script),
        }
    }

    pub(crate) fn run(&mut self, line: &str) -> Result<bool, Trouble> {
        self.writes_before = self.files.files.write_count();
        self.calls_before = self.files.files.calls();
        mem::swap(&mut self.lines_before, &mut self.files.lines);
        self.files.lines.clear();
        self.out = SpySink::new(self.alloc);
        if let Some(kept) = self.sink_kept {
            self.out.sink.fail_at(1, kept)?;
            self.sink_kept = None;
        }
        let words = words_of(self.alloc, line)?;
        self.call(&words);
        Ok(true)
    }

    fn call(&mut self, words: &[String]) {
        let mut steps = Steps::new(Tally::new());
        let status = invoke(
            self.alloc,
            words,
            &mut self.files,
            &mut self.out,
            &mut steps,
        );
        self.ended = Ended {
            status: status.number(),
            steps: steps.ledger().seen(),
        };
    }

    // Runs a word that only reads.
    fn reads(&mut self, words: &str, script: &mut Script) -> Result<bool, Trouble> {
        let (word, status) = words.rsplit_once(' ').unwrap_or((words, ""));
        self.run(word)?;
        let report = script.text(self.alloc)?;
        let is_told = status.parse::<u8>() == Ok(self.ended.status) && self.ended.steps == 0;
        let is_quiet = self.files.files.write_count() == self.writes_before;
        Ok(is_told && is_quiet && self.out.sink.bytes() == report.as_slice())
    }

    // The text of a file, if it is there.
    pub(crate) fn text_of(&self, name: &str) -> Option<&[u8]> {
        self.files.files.file(name).map(|text| text.as_bytes())
    }

    // Notes the made and the keep files.
    pub(crate) fn remember(&mut self) -> Result<(), Trouble> {
        for name in MADE.iter().chain(KEPT.iter()) {
            if let Some(text) = self.files.files.file(name) {
                self.noted.files.put(name, text.as_bytes())?;
            }
        }
        Ok(())
    }
}
