// Texts of files in a script. After a bar stand lines, with a bar between each two of them; after a
// dot stands a last line without an end; after a plus the name of a text; and after a star what many
// rows are made of.
use crate::many_rows::push_rows;
use crate::trouble::Trouble;
use std::alloc::{AllocError, Global};

/// Whether a line stands for a text.
pub fn is_piece(named: &str, line: &str) -> bool {
    line.starts_with("* ") || piece_of(named, line).is_some()
}

/// The text that stands for a line of a script, and how each of its lines ends.
pub fn piece_of<'a>(named: &'a str, line: &'a str) -> Option<(&'a str, &'static str)> {
    let (mark, text) = line.split_once(' ')?;
    match mark {
        "|" => Some((text, "\n")),
        "." => Some((text, "")),
        "+" => Some((text_with_name(named, text)?, "")),
        _ => None,
    }
}

// The text with a name.
fn text_with_name<'a>(named: &'a str, name: &str) -> Option<&'a str> {
    for part in named.split("\n== ").skip(1) {
        if let Some((title, text)) = part.split_once('\n') {
            if title == name {
                return Some(text);
            }
        }
    }
    None
}

/// The text that a script begins with, which ends with the first line that stands for none.
pub fn text_of(alloc: Global, named: &str, script: &str) -> Result<String, Trouble> {
    let mut text = String::new(alloc);
    let mut left = script;
    for _turn in 0..script.len() {
        let Some((line, rest)) = left.split_once('\n') else {
            break;
        };
        if !push_piece(alloc, &mut text, named, line)? {
            break;
        }
        left = rest;
    }
    Ok(text)
}

// Puts the text that stands for a line, if the line stands for one.
fn push_piece(alloc: Global, text: &mut String, named: &str, line: &str) -> Result<bool, Trouble> {
    if let Some(what) = line.strip_prefix("* ") {
        push_rows(alloc, text, what)?;
        return Ok(true);
    }
    match piece_of(named, line) {
        Some((lines, end)) => {
            push_lines(text, lines, end)?;
            Ok(true)
        }
        None => Ok(false),
    }
}

// Lines that have a bar between each two of them.
fn push_lines(text: &mut String, lines: &str, end: &str) -> Result<(), AllocError> {
    for line in lines.split(" | ") {
        text.push_str(line)?;
        text.push_str(end)?;
    }
    Ok(())
}
