// The lines of a script.
use std::alloc::{AllocError, Global};

/// What is left of a script. Its lines stand as they are; those that begin with a bar are the text
/// of the command before them.
#[derive(Drop)]
pub struct Script<'a> {
    left: &'a str,
}

impl<'a> Script<'a> {
    /// A whole script.
    pub fn new(text: &'a str) -> Script<'a> {
        Script { left: text }
    }

    /// As many lines as there can be left.
    pub fn most(&self) -> usize {
        self.left.len()
    }

    /// The next line, where there is one.
    pub fn line(&mut self) -> Option<&'a str> {
        let (line, left) = self.left.split_once('\n')?;
        self.left = left;
        Some(line)
    }

    /// The next line without its bar, where it begins with one.
    pub fn row(&mut self) -> Option<&'a str> {
        let (line, left) = self.left.split_once('\n')?;
        let row = line.strip_prefix('|')?;
        self.left = left;
        Some(row.strip_prefix(' ').unwrap_or(row))
    }

    /// The text of the next lines that begin with a bar.
    pub fn text(&mut self, alloc: Global) -> Result<Vec<u8>, AllocError> {
        let mut text = Vec::new(alloc);
        for _row in 0..self.most() {
            let Some(row) = self.row() else { break };
            text.extend_from_slice(row.as_bytes())?;
            text.push(b'\n')?;
        }
        Ok(text)
    }
}

/// A text by its name, among texts before each of which a line with its name stands. Else an empty
/// one.
pub fn text_named(alloc: Global, texts: &str, name: &str) -> Result<Vec<u8>, AllocError> {
    let mut script = Script::new(texts);
    for _line in 0..texts.len() {
        let Some(line) = script.line() else { break };
        if line == name {
            return script.text(alloc);
        }
    }
    Ok(Vec::new(alloc))
}

/// A text with a number in the place of each mark.
pub fn with_number(
    alloc: Global,
    text: &str,
    mark: &str,
    number: u32,
) -> Result<String, AllocError> {
    let word = format!(in alloc; "{number}")?;
    let mut whole = String::new(alloc);
    for (at, part) in text.split(mark).enumerate() {
        if at > 0 {
            whole.push_str(&word)?;
        }
        whole.push_str(part)?;
    }
    Ok(whole)
}
