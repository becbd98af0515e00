// Texts of many rows, which try the limits of what is read.
use crate::script::with_number;
use std::alloc::{AllocError, Global};

/// One byte more than a file may have that people write.
pub const TOO_LONG: usize = (64 << 20) + 1;

/// A row so many times, each with its number, from 1 on, in the place of each `<k>`.
pub fn many(alloc: Global, count: u32, row: &str) -> Result<Vec<u8>, AllocError> {
    let mut text = Vec::new(alloc);
    for number in 1..=count {
        let row = with_number(alloc, row, "<k>", number)?;
        text.extend_from_slice(row.as_bytes())?;
        text.push(b'\n')?;
    }
    Ok(text)
}

/// A tree that splits off the greatest frequency of each of some lines until none is left.
pub fn splits(alloc: Global, lines: u32) -> Result<Vec<u8>, AllocError> {
    let mut text = Vec::new(alloc);
    for line in 1..=lines {
        for at in (0..1000u32).rev() {
            add_split(alloc, &mut text, line, at)?;
        }
    }
    Ok(text)
}

fn add_split(alloc: Global, text: &mut Vec<u8>, line: u32, at: u32) -> Result<(), AllocError> {
    let row = format!(in alloc; "split; {line}; {at}; 0\n")?;
    text.extend_from_slice(row.as_bytes())?;
    Ok(())
}
