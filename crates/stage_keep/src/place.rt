// Where texts stand among bytes.
ghost use Rattle.std.specs.Prelude.{◌≡◌, ◌<◌, ◌+◌, ◌≤◌, All, length, map, option_map, IfOk, IfSome, Some, None};
ghost use Rattle.std.specs.Prelude.{if◌then◌else◌};
ghost use Rattle.std.specs.Str.{bytes_eq};
ghost use Rattle.stage_keep.specs.Entries.{last_line};
ghost use Rattle.stage_keep.specs.EntryReading.{texts_at};
ghost use Rattle.stage_keep.specs.Places.{IsWithin, part_of};

use crate::block::block_at;
use plan_num::{NoMemory, Text};
use std::alloc::Global;

/// Where a text stands among bytes.
#[derive(Clone, Copy)]
pub(crate) struct Place {
    pub start: usize,
    pub size: usize,
}

impl Place {
    /// The text that stands there.
    pub(crate) fn part_of<'a>(&self, bytes: &'a [u8]) -> &'a [u8]
        requires { IsWithin bytes.now self.now }
        ensures { result.now ≡ part_of bytes.now self.now }
    {
        &bytes[self.start..self.start + self.size]
    }

    /// The same, in the memory of the bytes.
    pub(crate) fn cut_out(&self, bytes: Vec<u8>) -> Text
        requires { IsWithin bytes.items self.now }
        ensures { result ≡ part_of bytes.items self.now }
    {
        let mut bytes = bytes;
        bytes.truncate(self.start + self.size);
        Text::behind(bytes, self.start)
    }
}

/// The places of the texts of the blocks with these heads, where they are the bytes with the last
/// line behind.
pub(crate) fn places_at(
    alloc: Global,
    heads: &[Text],
    bytes: &[u8],
) -> Result<Option<Vec<Place>>, NoMemory>
    ensures texts { IfOk result (λ found. option_map (λ places. map (part_of bytes.now) places.items) found
        ≡ texts_at heads.now bytes.now) }
    ensures each { IfOk result (λ found. IfSome found (λ places. length places.items ≡ length heads.now)) }
    ensures within { IfOk result (λ found. IfSome found (λ places. All (IsWithin bytes.now) places.items)) }
{
    let mut places = Vec::new(alloc);
    let mut rest = bytes;
    for head in heads {
        let Some((text, more)) = block_at(alloc, head.as_bytes(), rest)? else {
            return Ok(None);
        };
        places.push(Place {
            start: bytes.len() - more.len() - text.len(),
            size: text.len(),
        })?;
        rest = more;
    }
    Ok(if_ended(places, rest))
}

// The places, where the rest is the last line alone.
fn if_ended(places: Vec<Place>, rest: &[u8]) -> Option<Vec<Place>>
    ensures { result ≡ (if bytes_eq rest.now last_line then Some places else None) }
{
    if rest == b"end\n".as_slice() {
        Some(places)
    } else {
        None
    }
}

/// The index of a place whose text is no shorter than any other.
pub(crate) fn longest_of(places: &[Place]) -> usize
    requires { 0 < length places.now }
    ensures { result < length places.now }
{
    let mut longest = 0;
    for (index, place) in places.iter().enumerate() {
        if places[longest].size < place.size {
            longest = index;
        }
    }
    longest
}
