// Scripts that are played once or for each of some numbers, and those that must not hold.
use crate::files::Play;
use crate::script::with_number;
use crate::trouble::Trouble;
use std::alloc::Global;

// What does not hold of a script, if something does not. Where the script begins with numbers, it is
// played for each of them.
pub(crate) fn first_broken<P: Play>(
    alloc: Global,
    player: &mut P,
    script: &str,
) -> Result<Option<String>, Trouble> {
    if !script.starts_with("times ") {
        return found(alloc, player, script);
    }
    let body = body_of(script);
    for line in script.lines() {
        let Some(numbers) = line.strip_prefix("times ") else {
            break
        };
        if let Some(broken) = played_in_turn(alloc, player, body, Numbers::of(numbers))? {
            return Ok(Some(broken));
        }
    }
    Ok(None)
}

// A script without the lines of numbers before it.
fn body_of(script: &str) -> &str {
    let mut left = script;
    for _line in 0..script.len() {
        match left.split_once('\n') {
            Some((line, after)) if line.starts_with("times ") => left = after,
            _ => break,
        }
    }
    left
}

// The numbers for which a script is played: from the first one to the last one, by a step.
#[derive(Clone, Copy)]
struct Numbers {
    first: u32,
    last: u32,
    step: u32,
}

impl Numbers {
    // The numbers of some words.
    fn of(words: &str) -> Numbers {
        let (first, rest) = words.split_once(' ').unwrap_or((words, words));
        let (last, step) = rest.split_once(' ').unwrap_or((rest, "1"));
        Numbers {
            first: first.parse::<u32>().unwrap_or(0),
            last: last.parse::<u32>().unwrap_or(0),
            step: step.parse::<u32>().unwrap_or(1),
        }
    }

    // Whether a number that is not below the first one is among them.
    fn has(&self, number: u32) -> bool {
        self.step > 0 && number.saturating_sub(self.first) % self.step == 0
    }
}

// Plays a script for each of some numbers, and tells what does not hold.
fn played_in_turn<P: Play>(
    alloc: Global,
    player: &mut P,
    body: &str,
    numbers: Numbers,
) -> Result<Option<String>, Trouble> {
    for number in numbers.first..=numbers.last {
        if numbers.has(number) {
            let script = with_number(alloc, body, "<n>", number)?;
            if let Some(broken) = found(alloc, player, &script)? {
                return Ok(Some(broken));
            }
        }
    }
    Ok(None)
}

// Plays a script, and tells what does not hold. A script that must not hold says what is to be told.
fn found<P: Play>(alloc: Global, player: &mut P, script: &str) -> Result<Option<String>, Trouble> {
    let Some((wanted, body)) = script
        .strip_prefix("finds ")
        .and_then(|it| it.split_once('\n'))
    else {
        return player.play(script);
    };
    match player.play(body)? {
        Some(told) if told.starts_with(wanted) => Ok(None),
        Some(told) => Ok(Some(told)),
        None => Ok(Some(String::from_str(alloc, "it holds, and must not")?)),
    }
}
