// Reading files of the real folder.
ghost use Rattle.std.specs.Prelude.{◌≤◌, length, IfOk};
ghost use Rattle.plan_files.specs.Folder.{KeepsLimit};

use crate::again::uninterrupted;
use crate::place::{Place, place_of, stands_at};
use crate::store::Got;
use crate::trouble::Trouble;
use plan_num::{NoMemory, Text};
use std::alloc::Global;
use std::fs::OpenFile;
use std::io::{ErrorKind, Read, Seek, SeekFrom};
use std::{fs, io, rt};

/// Why a file was not opened that another program put there in the meantime.
pub(crate) const REPLACED: &str = "replaced while it was opened";

/// Something stands there, and is no file of the dataset.
pub(crate) fn no_file() -> Trouble {
    Trouble::because("not a regular file to which folders lead")
}

/// Reads at most one byte more than the file had when it was opened, and none before what was
/// opened is known to be the file that stands there.
pub(crate) fn read_file<R: rt::Files>(
    rt: &R,
    alloc: Global,
    name: &str,
    limit: u64,
) -> Result<Got, Trouble>
    ensures { IfOk result (KeepsLimit limit) }
{
    let Some((mut file, length)) = open_regular(rt, name)? else {
        return Ok(Got::Absent);
    };
    if length > limit {
        return Ok(Got::TooLong);
    }
    let bytes = read_rest(alloc, &mut file, length)?;
    Ok(Got::Bytes(Text::from_vec(bytes)))
}

/// Whether a file has these bytes. It is read through a small buffer, and not at all where its
/// length is another one.
pub(crate) fn has_bytes<R: rt::Files>(
    rt: &R,
    alloc: Global,
    name: &str,
    bytes: &[u8],
) -> Result<bool, Trouble> {
    let Some((mut file, length)) = open_regular(rt, name)? else {
        return Ok(false);
    };
    if length != bytes.len() as u64 {
        return Ok(false);
    }
    let mut buffer = small_buffer(alloc)?;
    if !has_next(&mut file, bytes, &mut buffer)? {
        return Ok(false);
    }
    let none = read_rest(alloc, &mut file, 0)?;
    Ok(none.is_empty())
}

/// The bytes behind some pieces, where a file begins with them, one after the other. Of the pieces
/// nothing is kept.
pub(crate) fn bytes_behind<R: rt::Files>(
    rt: &R,
    alloc: Global,
    name: &str,
    front: &[&[u8]],
) -> Result<Option<Vec<u8>>, Trouble> {
    let Some((mut file, length)) = open_regular(rt, name)? else {
        return Ok(None);
    };
    let mut buffer = small_buffer(alloc)?;
    let mut left = length;
    for piece in front {
        let size = piece.len() as u64;
        if size > left || !has_next(&mut file, piece, &mut buffer)? {
            return Ok(None);
        }
        left -= size;
    }
    Ok(Some(read_rest(alloc, &mut file, left)?))
}

// A file with fewer bytes may as well be read as a whole.
const LONG: u64 = 67_108_864;

/// Reads the two ends of a long file.
pub(crate) fn may_have_ends<R: rt::Files>(
    rt: &R,
    alloc: Global,
    name: &str,
    front: &[u8],
    back: &[u8],
) -> Result<bool, Trouble> {
    match place_of(rt, name)? {
        Place::Vacant => return Ok(false),
        Place::Regular(seen) if seen.len() < LONG => return Ok(true),
        Place::Regular(_) => {}
        Place::Other => return Err(no_file()),
    }
    let (mut file, length) = open_there(rt, name)?;
    let back_length = back.len() as u64;
    if length < back_length.saturating_add(front.len() as u64) {
        return Ok(false);
    }
    let mut buffer = small_buffer(alloc)?;
    if !has_next(&mut file, front, &mut buffer)? {
        return Ok(false);
    }
    file.seek(SeekFrom::Start(length - back_length))?;
    Ok(has_next(&mut file, back, &mut buffer)?)
}

// Opens a file for reading, where one stands there, and tells its length.
fn open_regular<R: rt::Files>(rt: &R, name: &str) -> Result<Option<(R::File, u64)>, Trouble> {
    match place_of(rt, name)? {
        Place::Vacant => Ok(None),
        Place::Regular(_) => Ok(Some(open_there(rt, name)?)),
        Place::Other => Err(no_file()),
    }
}

// Opens a file for reading, and tells its length. It is the file that stands there.
fn open_there<R: rt::Files>(rt: &R, name: &str) -> Result<(R::File, u64), Trouble> {
    let file = uninterrupted(|| fs::open(rt, name))?;
    let found = uninterrupted(|| file.metadata())?;
    if stands_at(rt, name, &found)? {
        Ok((file, found.len()))
    } else {
        Err(Trouble::because(REPLACED))
    }
}

// Reads what is left of a file, which is so many bytes.
fn read_rest<F: Read>(alloc: Global, file: &mut F, size: u64) -> Result<Vec<u8>, Trouble>
    ensures { IfOk result (λ bytes. length bytes.items ≤ size) }
{
    let most = size.saturating_add(1);
    let mut bytes = room_for(alloc, most as usize)?;
    file.by_ref().take(most).read_to_end(&mut bytes)?;
    if bytes.len() as u64 > size {
        return Err(Trouble::because("grew while it was read"));
    }
    Ok(bytes)
}

// Room for so many bytes. Where they are more than there is memory for, none of them is read.
fn room_for(alloc: Global, count: usize) -> Result<Vec<u8>, NoMemory> {
    Ok(Vec::with_capacity(alloc, count)?)
}

// How many bytes are compared at a time.
const PART: usize = 65_536;

// Room for the bytes that are compared at a time.
fn small_buffer(alloc: Global) -> Result<Vec<u8>, NoMemory> {
    Ok(vec![in alloc; 0; PART]?)
}

// Whether these are the next bytes of a file, which are read part by part.
fn has_next<F: Read>(file: &mut F, bytes: &[u8], buffer: &mut [u8]) -> io::Result<bool> {
    for part in bytes.chunks(PART) {
        let Some(there) = buffer.get_mut(..part.len()) else {
            return Ok(false);
        };
        match file.read_exact(there) {
            Ok(()) if *there == *part => {}
            Ok(()) => return Ok(false),
            Err(error) if error.kind() == ErrorKind::UnexpectedEof => return Ok(false),
            Err(error) => return Err(error),
        }
    }
    Ok(true)
}
