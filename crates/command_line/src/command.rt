// The commands of the program.
ghost use Rattle.std.specs.Prelude.{◌≡◌, IfSome};
ghost use Rattle.std.specs.Option.{option_map};
ghost use Rattle.command_line.specs.declared.command.Command.TheVariants as commands;
ghost use Rattle.command_line.specs.CommandWords.{HasDemo, HasRanges, command_of, demo_number, plain_command};

use crate::form::Form;
use crate::mode::Mode;
use crate::parse::form_of;

/// What the program is asked for.
#[derive(Debug, Drop)]
pub enum Command {
    /// To run the planning stages.
    Run(Mode),
    /// To judge the files that stand there.
    Check,
    /// To tell what is kept of the stages.
    Status,
    /// To run the planning stages over a dataset that is made from a number.
    Demo(u8),
    /// To answer a question beside the stages.
    Ask(Form),
}

/// The command that words ask for.
pub fn command_of(words: &[String]) -> Option<Command>
    ensures command { result ≡ command_of words.now }
    ensures demo { IfSome result HasDemo }
    ensures ranges { IfSome result HasRanges }
{
    match plain_command(words) {
        Some(command) => Some(command),
        None => match form_of(words) {
            Some(form) => Some(Command::Ask(form)),
            None => None,
        },
    }
}

// The command of words that ask for the stages.
fn plain_command(words: &[String]) -> Option<Command>
    ensures command { result ≡ plain_command words.now }
    ensures demo { IfSome result HasDemo }
    ensures ranges { IfSome result HasRanges }
{
    match words {
        [word] if word.as_str() == "make" => Some(Command::Run(Mode::Make)),
        [word] if word.as_str() == "fresh" => Some(Command::Run(Mode::Fresh)),
        [word] if word.as_str() == "check" => Some(Command::Check),
        [word] if word.as_str() == "status" => Some(Command::Status),
        [word, number] if word.as_str() == "demo" => demo_of(number.as_str()),
        _ => None,
    }
}

// The demo of a number that is spelled by one digit from 1 to 8.
fn demo_of(number: &str) -> Option<Command>
    ensures command { result ≡ option_map commands.Demo (demo_number number.now) }
    ensures demo { IfSome result HasDemo }
    ensures ranges { IfSome result HasRanges }
{
    match number.as_bytes() {
        [digit @ b'1'..=b'8'] => Some(Command::Demo(*digit - b'0')),
        _ => None,
    }
}
