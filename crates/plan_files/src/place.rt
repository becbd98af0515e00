// What stands under a name of the real folder.
use crate::again::uninterrupted;
use std::fs::Metadata;
use std::io::ErrorKind;
use std::os::unix::fs::MetadataExt;
use std::path::Path;
use std::{fs, io, rt};

/// What stands under a name.
#[derive(Drop)]
pub(crate) enum Place {
    /// Nothing, and nothing that is no folder stands on the way.
    Vacant,
    /// A regular file, to which folders lead.
    Regular(Metadata),
    /// Something else, as a link.
    Other,
}

/// Looks at a name, and at each folder on the way to it. It follows no link, so one is a place of
/// another kind.
pub(crate) fn place_of<R: rt::Files>(rt: &R, name: &str) -> io::Result<Place> {
    for folder in Path::new(name).ancestors().skip(1) {
        if let Some(found) = look_at(rt, folder.as_str())? {
            if !found.is_dir() {
                return Ok(Place::Other);
            }
        }
    }
    match look_at(rt, name)? {
        None => Ok(Place::Vacant),
        Some(found) if found.is_file() => Ok(Place::Regular(found)),
        Some(_) => Ok(Place::Other),
    }
}

/// Whether what was opened by a name is the regular file that stands there, to which folders lead.
/// Where another program put a link or a fifo in its place before it was opened, it is not.
pub(crate) fn stands_at<R: rt::Files>(rt: &R, name: &str, opened: &Metadata) -> io::Result<bool> {
    match place_of(rt, name)? {
        Place::Regular(seen) => {
            Ok(opened.is_file() && seen.dev() == opened.dev() && seen.ino() == opened.ino())
        }
        Place::Vacant | Place::Other => Ok(false),
    }
}

// What the system tells of a path, where something is there.
fn look_at<R: rt::Files>(rt: &R, path: &str) -> io::Result<Option<Metadata>> {
    match uninterrupted(|| fs::symlink_metadata(rt, path)) {
        Ok(found) => Ok(Some(found)),
        Err(error) if tells_nothing_there(error.kind()) => Ok(None),
        Err(error) => Err(error),
    }
}

// Whether an error says that nothing is there: no such file, or a name that no file of the system
// can have, as one that is too long or has a zero byte.
fn tells_nothing_there(kind: ErrorKind) -> bool {
    matches!(
        kind,
        ErrorKind::NotFound | ErrorKind::InvalidFilename | ErrorKind::InvalidInput
    )
}
