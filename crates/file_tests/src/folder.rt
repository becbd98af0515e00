// The real folder.
use crate::calls::plays;
use plan_files::{Files, FolderFiles};
use std::env::set_current_dir;
use std::fs;
use std::os::unix::fs::symlink;
use std::test::Fail;

// The test's own folder, among what is made and never kept.
const FOLDER: &str = "out/folder_test";

const WRITTEN: &str = "get|basis/Edge.giv|9|absent\n\
    remove|basis/Edge.giv||done\n\
    put|basis/Edge.giv|1; 2; 3|done\n\
    get|basis/Edge.giv|7|1; 2; 3\n\
    get|basis/Edge.giv|6|too long\n\
    put|basis/Edge.giv|4|done\n\
    get|basis/Edge.giv|7|4\n\
    remove|basis/Edge.giv||done\n\
    get|basis/Edge.giv|9|absent\n\
    remove|basis/Edge.giv||done\n\
    put|Report||done\n\
    get|Report|0|\n";

/// Files that are compared: whole, and by a front of two pieces.
pub(crate) const COMPARED: &str = "has|basis/Edge.giv|1; 2; 3|absent\n\
    behind|basis/Edge.giv|1,; 2|absent\n\
    put|basis/Edge.giv|1; 2; 3|done\n\
    has|basis/Edge.giv|1; 2; 3|done\n\
    has|basis/Edge.giv|1; 2; 4|absent\n\
    has|basis/Edge.giv|1; 2; |absent\n\
    has|basis/Edge.giv|1; 2; 3; |absent\n\
    has|basis/Edge.giv||absent\n\
    behind|basis/Edge.giv|,|1; 2; 3\n\
    behind|basis/Edge.giv|1,; 2|; 3\n\
    behind|basis/Edge.giv|1; 2; 3,|\n\
    behind|basis/Edge.giv|1,; 3|absent\n\
    behind|basis/Edge.giv|2,; 2|absent\n\
    behind|basis/Edge.giv|1; 2; ,3; 4|absent\n\
    remove|basis/Edge.giv||done\n";

// The length of the last one is told as 0, and there is more to read.
const REFUSED: &str = "get|basis|9|file fault\n\
    put|basis|5|file fault\n\
    remove|basis||file fault\n\
    get|Report/Edge.giv|9|file fault\n\
    put|Report/Edge.giv|5|file fault\n\
    remove|Report/Edge.giv||file fault\n\
    get|/dev/null|9|file fault\n\
    put|/dev/null|5|file fault\n\
    remove|/dev/null||file fault\n\
    get|/proc/version|9|file fault\n\
    has|basis||file fault\n\
    has|/proc/version||file fault\n\
    behind|basis|,|file fault\n\
    behind|/proc/version|,|file fault\n";

const WRITTEN_AFTER: &str = "get|Report|0|\n\
    put|basis/Edge.giv|6|done\n\
    get|basis/Edge.giv|9|6\n";

#[test]
fn works_in_a_real_folder(rt: HostRuntime) -> Result<(), Fail> {
    // what an earlier run left where it stopped half-way
    let _ = fs::remove_dir_all(&rt, FOLDER);
    fs::create_dir_all(&rt, FOLDER)?;
    set_current_dir(&rt, FOLDER)?;
    let mut files = FolderFiles::here(&rt, rt.alloc());
    for (script, failed) in [
        (WRITTEN, 0),
        (COMPARED, 0),
        (REFUSED, 14),
        (WRITTEN_AFTER, 0),
    ] {
        plays(&rt, &mut files, script, failed)?;
    }
    set_current_dir(&rt, "../..")?;
    fs::remove_dir_all(&rt, FOLDER)?;
    Ok(())
}

// A file of some parts, and one byte of it changed.
#[test]
fn compares_part_by_part(rt: HostRuntime) -> Result<(), Fail> {
    let alloc = rt.alloc();
    fs::create_dir_all(&rt, "out")?;
    let digits = "0123456789";
    let front = digits.repeat(alloc, 6_554)?;
    let more = digits.repeat(alloc, 13_445)?;
    let text = format!(in alloc; "{front}{more}{digits}")?;
    let other = format!(in alloc; "{front}{more}0123456780")?;
    fs::write(&rt, "out/parts", text.as_str())?;
    let mut files = FolderFiles::here(&rt, alloc);
    assert_eq!(rt;
        files.has_bytes(alloc, "out/parts", text.as_bytes()),
        Ok(true)
    );
    assert_eq!(rt;
        files.has_bytes(alloc, "out/parts", other.as_bytes()),
        Ok(false)
    );
    let found = files.get_behind(alloc, "out/parts", &[front.as_bytes(), more.as_bytes()]);
    assert!(rt; matches!(&found, Ok(Some(rest)) if rest.as_slice() == digits.as_bytes()));
    let found = files.get_behind(alloc, "out/parts", &[more.as_bytes(), b"1".as_slice()]);
    assert!(rt; matches!(found, Ok(None)));
    fs::remove_file(&rt, "out/parts")?;
    Ok(())
}

// Links, and a file with two names, in a folder of their own.
fn make_links(rt: &HostRuntime) -> Result<(), Fail> {
    fs::create_dir_all(rt, "out/links/basis")?;
    fs::write(rt, "out/links/basis/Edge.giv", "1; 2")?;
    fs::write(rt, "out/links/basis/Two.giv", "two")?;
    fs::hard_link(rt, "out/links/basis/Two.giv", "out/links/Second.giv")?;
    symlink(rt, "Edge.giv", "out/links/basis/Soft.giv")?;
    symlink(rt, "nowhere", "out/links/basis/Lost.giv")?;
    symlink(rt, "basis", "out/links/line")?;
    Ok(())
}

// A soft link under the name, one that leads nowhere, one in the place of a folder, and a file
// with two names.
const LINKED: &str = "get|out/links/basis/Soft.giv|9|file fault\n\
    put|out/links/basis/Soft.giv|5|file fault\n\
    remove|out/links/basis/Soft.giv||file fault\n\
    get|out/links/basis/Lost.giv|9|file fault\n\
    put|out/links/basis/Lost.giv|5|file fault\n\
    remove|out/links/basis/Lost.giv||file fault\n\
    get|out/links/line/Edge.giv|9|file fault\n\
    put|out/links/line/Edge.giv|5|file fault\n\
    remove|out/links/line/Edge.giv||file fault\n\
    get|out/links/line/more/Load.giv|9|file fault\n\
    put|out/links/line/more/Load.giv|5|file fault\n\
    remove|out/links/line/more/Load.giv||file fault\n\
    put|out/links/basis/Two.giv|5|file fault\n\
    put|out/links/Second.giv|5|file fault\n";

// One name of two goes, and the other has the file alone.
const UNHARMED: &str = "get|out/links/basis/Edge.giv|9|1; 2\n\
    get|out/links/basis/nowhere|9|absent\n\
    get|out/links/basis/more/Load.giv|9|absent\n\
    get|out/links/basis/Two.giv|9|two\n\
    get|out/links/Second.giv|9|two\n\
    remove|out/links/Second.giv||done\n\
    get|out/links/basis/Two.giv|9|two\n\
    put|out/links/basis/Two.giv|one|done\n\
    get|out/links/basis/Two.giv|9|one\n";

#[test]
fn harms_nothing_through_links(rt: HostRuntime) -> Result<(), Fail> {
    // what an earlier run left where it stopped half-way
    let _ = fs::remove_dir_all(&rt, "out/links");
    make_links(&rt)?;
    let mut files = FolderFiles::here(&rt, rt.alloc());
    for (script, failed) in [(LINKED, 14), (UNHARMED, 0)] {
        plays(&rt, &mut files, script, failed)?;
    }
    fs::remove_dir_all(&rt, "out/links")?;
    Ok(())
}

#[test]
fn names_that_no_file_can_have(rt: HostRuntime) -> Result<(), Fail> {
    let alloc = rt.alloc();
    let letters = "a".repeat(alloc, 256)?;
    let below = format!(in alloc; "{letters}/Edge.giv")?;
    let path = "a/".repeat(alloc, 3_000)?;
    let mut files = FolderFiles::here(&rt, alloc);
    for name in [letters.as_str(), below.as_str(), path.as_str(), "a\0b"] {
        let script = format!(in alloc;
            "get|{name}|9|absent\nremove|{name}||done\nput|{name}|5|file fault\n"
        )?;
        plays(&rt, &mut files, script.as_str(), 1)?;
    }
    Ok(())
}
