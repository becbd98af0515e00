// Journeys as text.
ghost use Rattle.std.specs.Prelude.{◌≡◌, ◌++◌, ◌+◌, codes, decimal, IfOk, OnOk};
ghost use Rattle.std.specs.List.{flat_map};
ghost use Rattle.journeys.specs.JourneyTexts.{event_line, journey_lines, journey_text};

use crate::net::JourneyNet;
use connections::{EventList, Found};
use itoa::Buffer;
use plan_num::{NoMemory, Text};
use std::alloc::Global;

/// What is told of a journey and of the events that can be reached before it arrives: a line for
/// each of its events, or that there is none, and then a line for each of these.
#[tactic(auto, unfolding(crate::specs::JourneyTexts::journey_text))]
pub fn print_journey(alloc: Global, net: &JourneyNet, found: &Found) -> Result<Text, NoMemory>
    ensures { IfOk result (λ text. text ≡ journey_text net.now found.now) }
{
    let mut text = Vec::from_slice(alloc, b"# kind; event; stop; time\n")?;
    push_journey(&mut text, net, &found.journey)?;
    push_lines(&mut text, net, b"reached", &found.reached)?;
    Ok(Text::from_vec(text))
}

// Appends the lines of a journey, or that there is none.
fn push_journey(text: &mut Vec<u8>, net: &JourneyNet, journey: &EventList) -> Result<(), NoMemory>
    ensures { OnOk result
        (text.new.items ≡ text.old.items ++ journey_lines net.now journey.now) }
{
    if journey.len() == 0 {
        text.extend_from_slice(b"# no journey\n")?;
        return Ok(());
    }
    push_lines(text, net, b"ride", journey)
}

// Appends the lines of events behind a word.
fn push_lines(
    text: &mut Vec<u8>,
    net: &JourneyNet,
    word: &[u8],
    events: &EventList,
) -> Result<(), NoMemory>
    ensures { OnOk result (text.new.items
        ≡ text.old.items ++ flat_map (event_line net.now word.now) events.now) }
{
    for event in events.as_slice() {
        push_line(text, net, word, *event)?;
    }
    Ok(())
}

// Appends the line of an event behind a word.
fn push_line(
    text: &mut Vec<u8>,
    net: &JourneyNet,
    word: &[u8],
    event: usize,
) -> Result<(), NoMemory>
    ensures { OnOk result (text.new.items ≡ text.old.items ++ event_line net.now word.now event) }
{
    let at = net.event_or_none(event);
    text.extend_from_slice(word)?;
    push_cell(text, event as u128 + 1)?;
    push_cell(text, u128::from(at.stop))?;
    push_cell(text, u128::from(at.time))?;
    text.push(b'\n')?;
    Ok(())
}

// Appends a number as a further cell.
fn push_cell(text: &mut Vec<u8>, number: u128) -> Result<(), NoMemory>
    ensures { OnOk result (text.new.items ≡ text.old.items ++ (codes "; " ++ decimal number)) }
{
    let mut buffer = Buffer::new();
    text.extend_from_slice(b"; ")?;
    text.extend_from_slice(buffer.format(number).as_bytes())?;
    Ok(())
}
