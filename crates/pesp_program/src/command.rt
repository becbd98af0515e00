// The words of the command line.

/// What is asked: whether times are a timetable, whether a certificate proves its bound, or both.
#[derive(Clone, Copy)]
pub(crate) enum Task<'a> {
    Check(&'a str),
    Bound(&'a str),
    Both(&'a str, &'a str),
}

/// What is asked of which problem, in which period.
#[derive(Clone, Copy)]
pub(crate) struct Command<'a> {
    pub(crate) instance: &'a str,
    pub(crate) task: Task<'a>,
    pub(crate) period: u32,
}

// The period where none is said, as everywhere in PESPlib.
const PERIOD: u32 = 60;

/// The command of some words, where they are one: `check` or `bound` and two files, or three files,
/// and after them perhaps a period.
pub(crate) fn command_of(words: &[String]) -> Option<Command<'_>> {
    match words {
        [first, second, third] => Some(command_for(first, second, third, PERIOD)),
        [first, second, third, period] => {
            let period = period_of(period)?;
            Some(command_for(first, second, third, period))
        }
        _ => None,
    }
}

// The command of three words and a period.
fn command_for<'a>(first: &'a str, second: &'a str, third: &'a str, period: u32) -> Command<'a> {
    match first {
        "check" => Command {
            instance: second,
            task: Task::Check(third),
            period,
        },
        "bound" => Command {
            instance: second,
            task: Task::Bound(third),
            period,
        },
        _ => Command {
            instance: first,
            task: Task::Both(second, third),
            period,
        },
    }
}

// A period from 1 to 720 minutes.
fn period_of(word: &str) -> Option<u32> {
    match word.parse::<u32>() {
        Ok(period) if 1 <= period && period <= 720 => Some(period),
        _ => None,
    }
}
