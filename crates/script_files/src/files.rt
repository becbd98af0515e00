// Playing the files that the command line names.
use crate::trouble::Trouble;
use crate::turns::first_broken;
use std::rt::{Env, Files};
use std::{env, fs};

/// What plays scripts.
pub trait Play {
    /// What does not hold of a script, if something does not: its first such line, and more.
    fn play(&mut self, script: &str) -> Result<Option<String>, Trouble>;
}

/// Plays the files that the command line names, and prints a line for each script: that it holds, or
/// what does not. Whether all of them hold.
pub fn play_files<R: AllocGlobal + Env + Files + Print, P: Play>(
    rt: &R,
    player: &mut P,
) -> Result<bool, Trouble> {
    let mut holds = true;
    for name in env::args(rt)?.skip(1) {
        let text = fs::read_to_string(rt, &name)?;
        let is_well = play_file(rt, player, &name, &text)?;
        holds = holds && is_well;
    }
    Ok(holds)
}

// Plays the scripts of a file.
fn play_file<R: AllocGlobal + Print, P: Play>(
    rt: &R,
    player: &mut P,
    name: &str,
    text: &str,
) -> Result<bool, Trouble> {
    let mut holds = true;
    for part in text.split("\n== ").skip(1) {
        let (title, script) = part.split_once('\n').unwrap_or((part, ""));
        let is_well = play_script(rt, player, name, title, script)?;
        holds = holds && is_well;
    }
    Ok(holds)
}

// Plays a script.
fn play_script<R: AllocGlobal + Print, P: Play>(
    rt: &R,
    player: &mut P,
    name: &str,
    title: &str,
    script: &str,
) -> Result<bool, Trouble> {
    match first_broken(rt.alloc(), player, script)? {
        None => {
            println!(rt; "{name}: {title}: holds")?;
            Ok(true)
        }
        Some(told) => {
            println!(rt; "{name}: {title}: this does not hold: {told}")?;
            Ok(false)
        }
    }
}
