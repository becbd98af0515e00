// Blocks: texts, each under a line that tells how long it is.
ghost use Rattle.std.specs.Prelude.{◌≡◌, ◌==◌, ◌<◌, ◌^◌, ◌++◌, ◌∷◌, ℕ, List, IfOk, OnOk, Some};
ghost use Rattle.std.specs.Prelude.{decimal, option_and_then, option_map};
ghost use Rattle.std.specs.List.{position};
ghost use Rattle.stage_keep.specs.Entries.{Block, block_bytes, opening};
ghost use Rattle.stage_keep.specs.EntryReading.{behind, block_at, cut};
ghost use Rattle.stage_keep.specs.InnerReading.{line_behind, line_of};

use itoa::Buffer;
use plan_num::NoMemory;
use std::alloc::Global;
use std::str::from_utf8;

/// Appends a block.
pub(crate) fn push_block(bytes: &mut Vec<u8>, head: &[u8], text: &[u8]) -> Result<(), NoMemory>
    ensures { OnOk result (bytes.new.items ≡ bytes.old.items
        ++ block_bytes (record { head = head.now; text = text.now })) }
{
    push_opening(bytes, head, text.len())?;
    bytes.extend_from_slice(text)?;
    Ok(())
}

/// Appends the line of a head with the length of its text.
pub(crate) fn push_opening(bytes: &mut Vec<u8>, head: &[u8], size: usize) -> Result<(), NoMemory>
    ensures { OnOk result (bytes.new.items ≡ bytes.old.items ++ opening head.now size) }
{
    let mut buffer = Buffer::new();
    bytes.extend_from_slice(head)?;
    bytes.push(b' ')?;
    bytes.extend_from_slice(buffer.format(size).as_bytes())?;
    bytes.push(b'\n')?;
    Ok(())
}

/// The text of a block with the head that stands at the front of the bytes, and what is behind it.
pub(crate) fn block_at<'a>(
    alloc: Global,
    head: &[u8],
    bytes: &'a [u8],
) -> Result<Option<(&'a [u8], &'a [u8])>, NoMemory>
    ensures { IfOk result (λ found. option_map (λ block. (block.0.now, block.1.now)) found
        ≡ block_at head.now bytes.now) }
{
    let Some(size) = size_behind(head, bytes) else {
        return Ok(None);
    };
    let mut line = Vec::new(alloc);
    push_opening(&mut line, head, size)?;
    Ok(cut_behind(line.as_slice(), size, bytes))
}

// So many bytes behind a front of the bytes, and what is behind them.
fn cut_behind<'a>(line: &[u8], size: usize, bytes: &'a [u8]) -> Option<(&'a [u8], &'a [u8])>
    ensures { option_map (λ block. (block.0.now, block.1.now)) result
        ≡ option_and_then (cut size) (behind line.now bytes.now) }
{
    let text = behind(line, bytes)?;
    if size <= text.len() {
        Some(text.split_at(size))
    } else {
        None
    }
}

// The length that the line of the head tells, where it stands at the front of the bytes.
fn size_behind(head: &[u8], bytes: &[u8]) -> Option<usize>
    ensures { (size : ℕ) (rest : List ℕ) → size < 2 ^ 64
        → bytes.now ≡ opening head.now size ++ rest → result ≡ Some size }
{
    let line = line_behind(head, bytes)?;
    size_of(line)
}

// The first line of the bytes, behind the head and a space.
#[tactic(auto, unfolding(crate::specs::InnerReading::line_behind))]
fn line_behind<'a>(head: &[u8], bytes: &'a [u8]) -> Option<&'a [u8]>
    ensures { option_map (λ line. line.now) result ≡ line_behind head.now bytes.now }
{
    let spaced = behind(head, bytes)?;
    let lines = behind(b" ".as_slice(), spaced)?;
    line_end(lines)
}

// What is behind a front of the bytes.
pub(crate) fn behind<'a>(front: &[u8], bytes: &'a [u8]) -> Option<&'a [u8]>
    ensures { option_map (λ rest. rest.now) result ≡ behind front.now bytes.now }
{
    bytes.strip_prefix(front)
}

// The first line of a text, where that ends at a line feed.
#[tactic(auto, unfolding(crate::specs::InnerReading::line_of))]
fn line_end(text: &[u8]) -> Option<&[u8]>
    ensures { option_map (λ line. line.now) result ≡ line_of text.now }
{
    let end = feed_place(text)?;
    text.get(..end)
}

// The place of the first line feed.
fn feed_place(text: &[u8]) -> Option<usize>
    ensures { result ≡ position (λ byte. byte == 10) text.now }
{
    text.iter().position(|byte| *byte == b'\n')
}

// The number that the digits spell.
fn size_of(digits: &[u8]) -> Option<usize>
    ensures { (size : ℕ) → size < 2 ^ 64 → digits.now ≡ decimal size → result ≡ Some size }
{
    match from_utf8(digits) {
        Ok(text) => text.parse().ok(),
        Err(_) => None,
    }
}
