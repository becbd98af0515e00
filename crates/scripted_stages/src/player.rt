// A player of scripts.
use crate::setup::Setup;
use crate::told::outcome;
use giv_files::Stage;
use script_files::{Trouble, is_piece, piece_of};
use std::alloc::{AllocError, Global};

/// The first line of a script that does not hold, and what is told in its place. Some texts have
/// names.
pub(crate) fn first_wrong(
    alloc: Global,
    named: &str,
    script: &str,
) -> Result<Option<String>, Trouble> {
    let mut player = Player::new(alloc, named);
    let mut left = script;
    for number in 0..script.len() {
        let Some((line, rest)) = left.split_once('\n') else {
            break;
        };
        if !player.holds(line, rest)? {
            return Ok(Some(player.wrong(number, line)?));
        }
        left = rest;
    }
    if player.is_done() {
        return Ok(None);
    }
    Ok(Some(player.wrong(script.len(), "the end")?))
}

// Where a player stands: before the first row of a stage, in a row, or after its call.
#[derive(Clone, Copy)]
enum Place {
    Common,
    Row,
    Told,
}

#[derive(Drop)]
struct Player<'a> {
    alloc: Global,
    named: &'a str,
    place: Place,
    common: Setup<'a>,
    setup: Setup<'a>,
    told: Vec<u8>,
    // How much of what is told was compared.
    done: usize,
}

impl<'a> Player<'a> {
    fn new(alloc: Global, named: &'a str) -> Player<'a> {
        Player {
            alloc,
            named,
            place: Place::Told,
            common: Setup::new(Stage::Load),
            setup: Setup::new(Stage::Load),
            told: Vec::new(alloc),
            done: 0,
        }
    }

    // Whether what a line says is so, or can be done; after it stands the rest of the script.
    fn holds(&mut self, line: &'a str, rest: &'a str) -> Result<bool, Trouble> {
        if line.is_empty() || line.starts_with('#') {
            return Ok(true);
        }
        let (word, what) = line.split_once(' ').unwrap_or((line, ""));
        match word {
            "stage" => Ok(self.is_done() && self.begin(what)),
            "row" => Ok(self.begin_row()),
            _ => match self.place {
                Place::Told => Ok(self.tells(line)),
                Place::Row if word == "make" => self.make(),
                Place::Row if word == "check" => self.check(),
                _ => Ok(is_piece(self.named, line) || self.setup.takes(word, what, rest)),
            },
        }
    }

    // A stage begins.
    fn begin(&mut self, name: &str) -> bool {
        for stage in Stage::all() {
            if stage.name() == name {
                self.setup = Setup::new(*stage);
                self.place = Place::Common;
                return true;
            }
        }
        false
    }

    // A row begins, after one that is done.
    fn begin_row(&mut self) -> bool {
        match self.place {
            Place::Common => self.common = self.setup.again(),
            Place::Row => return false,
            Place::Told => self.setup = self.common.again(),
        }
        let is_done = self.done == self.told.len();
        self.place = Place::Row;
        is_done
    }

    fn make(&mut self) -> Result<bool, Trouble> {
        let bundle = self.setup.bundle(self.alloc, self.named)?;
        self.told = outcome(self.alloc, &bundle)?;
        self.done = 0;
        self.place = Place::Told;
        Ok(true)
    }

    fn check(&mut self) -> Result<bool, Trouble> {
        let verdict = self.setup.verdict(self.alloc, self.named)?;
        self.told = Vec::from_slice(self.alloc, verdict.as_bytes())?;
        self.done = 0;
        self.place = Place::Told;
        Ok(true)
    }

    // Whether what is told goes on with what a line stands for.
    fn tells(&mut self, line: &str) -> bool {
        if line == ".." {
            self.done = self.told.len();
            return true;
        }
        let (lines, end) = piece_of(self.named, line).unwrap_or((line, "\n"));
        for line in lines.split(" | ") {
            if !self.goes_on(line.as_bytes()) || !self.goes_on(end.as_bytes()) {
                return false;
            }
        }
        true
    }

    // Whether what is told goes on with some bytes, which are then compared.
    fn goes_on(&mut self, bytes: &[u8]) -> bool {
        let goes_on = self.left().starts_with(bytes);
        if goes_on {
            self.done = self.done.saturating_add(bytes.len());
        }
        goes_on
    }

    // What is told and was not compared yet.
    fn left(&self) -> &[u8] {
        self.told.get(self.done..).unwrap_or(&[])
    }

    // What does not hold.
    fn wrong(&self, number: usize, line: &str) -> Result<String, AllocError> {
        let told = self.next_told();
        format!(in self.alloc; "line {number}: {line}; told: {told}")
    }

    // The first line of what is told and was not compared yet.
    fn next_told(&self) -> &str {
        let line = self.left().split(|byte| *byte == b'\n').next();
        std::str::from_utf8(line.unwrap_or(&[])).unwrap_or("")
    }

    // Whether all that the last call told was compared.
    fn is_done(&self) -> bool {
        matches!(self.place, Place::Told) && self.done == self.told.len()
    }
}
