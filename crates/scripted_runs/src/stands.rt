// What a script says of a run, and of the files after it.
use crate::names::{HAND, KEPT, MADE, TREE, files_up_to};
use crate::player::Player;
use script_files::{Script, Trouble, text_named};

impl Player<'_> {
    // Whether the last run ended with this exit status and counted so many steps.
    pub(crate) fn ends(&self, numbers: &str) -> bool {
        let Some((status, steps)) = numbers.split_once(' ') else {
            return false;
        };
        let is_counted = steps == "*" || steps.parse::<u64>() == Ok(self.ended.steps);
        status.parse::<u8>() == Ok(self.ended.status) && is_counted
    }

    // Whether the report was written by one call, of so many bytes.
    pub(crate) fn is_one_piece(&self, size: &str) -> bool {
        match self.out.pieces.as_slice() {
            [piece] => size.parse::<usize>() == Ok(*piece),
            _ => false,
        }
    }

    // How many calls on files the last run made.
    pub(crate) fn calls_made(&self) -> u64 {
        self.files.files.calls().saturating_sub(self.calls_before)
    }

    // Whether the last run made so many calls on files.
    pub(crate) fn has_called(&self, count: &str) -> bool {
        count.parse::<u64>() == Ok(self.calls_made())
    }

    // Whether the last run made the calls of these rows, or so many of them, or those of the run before,
    // and no others.
    pub(crate) fn has_made_calls(&self, count: &str, script: &mut Script) -> Result<bool, Trouble> {
        if count == "again" {
            return Ok(self.files.lines == self.lines_before);
        }
        let rows = script.text(self.alloc)?;
        if count.is_empty() {
            return Ok(self.files.lines == rows);
        }
        Ok(self.has_called(count) && rows.starts_with(&self.files.lines))
    }

    pub(crate) fn is_worked(&self, words: &str) -> Result<bool, Trouble> {
        match words {
            "made" => self.are_worked(&MADE),
            "hand" => self.are_worked(&HAND),
            _ => self.is_text(words),
        }
    }

    fn are_worked(&self, names: &[&str]) -> Result<bool, Trouble> {
        for name in names {
            if !self.is_text(name)? {
                return Ok(false);
            }
        }
        Ok(true)
    }

    fn is_text(&self, words: &str) -> Result<bool, Trouble> {
        let (name, label) = words.split_once(' ').unwrap_or((words, words));
        let text = text_named(self.alloc, self.worked, label)?;
        Ok(self.text_of(name) == Some(text.as_slice()))
    }

    pub(crate) fn is(&self, line: &str) -> bool {
        let (name, text) = line.split_once(' ').unwrap_or((line, ""));
        self.text_of(name) == Some(text.as_bytes())
    }

    pub(crate) fn has_size(&self, words: &str) -> bool {
        let (name, size) = words.split_once(' ').unwrap_or((words, ""));
        self.text_of(name).map(|text| text.len()) == size.parse::<usize>().ok()
    }

    // Whether the made files up to a stage are there, and no others.
    pub(crate) fn has_made(&self, words: &str) -> bool {
        let (stage, mark) = words.split_once(' ').unwrap_or((words, ""));
        let count = files_up_to(stage);
        MADE.iter().enumerate().all(|(at, name)| {
            let is_made = at < count && !(mark == "unmarked" && *name == TREE);
            self.files.files.file(name).is_some() == is_made
        })
    }

    pub(crate) fn is_same(&self, group: &str) -> bool {
        let names: &[&str] = if group == "keep" { &KEPT } else { &MADE };
        names.iter().all(|name| {
            let before = self.noted.files.file(name).map(|text| text.as_bytes());
            self.text_of(name) == before
        })
    }

    // Whether the last run made exactly these writes, in order.
    pub(crate) fn has_written(&self, script: &mut Script) -> bool {
        let mut at = self.writes_before;
        for _row in 0..script.most() {
            let Some(row) = script.row() else { break };
            let (sign, name) = row.split_once(' ').unwrap_or((row, ""));
            let Some(after) = self.wrote(at, sign == "+", name) else {
                return false;
            };
            at = after;
        }
        at == self.files.files.write_count()
    }

    // The place after the writes of a name, or of a group of names, where they were made.
    fn wrote(&self, at: usize, is_put: bool, words: &str) -> Option<usize> {
        match words.split_once(" from ") {
            Some(("made", first)) => self.wrote_from(at, is_put, first, &MADE),
            Some((_, first)) => self.wrote_from(at, is_put, first, &KEPT),
            None => self.wrote_one(at, is_put, words),
        }
    }

    fn wrote_from(&self, from: usize, is_put: bool, first: &str, names: &[&str]) -> Option<usize> {
        let (mut at, mut is_on) = (from, false);
        for name in names {
            is_on = is_on || *name == first;
            if is_on {
                at = self.wrote_one(at, is_put, name)?;
            }
        }
        Some(at)
    }

    fn wrote_one(&self, at: usize, is_put: bool, name: &str) -> Option<usize> {
        let files = &self.files.files;
        if at >= files.write_count() || files.write_is_put(at) != is_put {
            return None;
        }
        if files.write_name(at) == name {
            Some(at + 1)
        } else {
            None
        }
    }
}
