// The line of a stage in a report.
ghost use Rattle.std.specs.Prelude.{◌≡◌, IfOk};
ghost use Rattle.giv_files.specs.ReportLines.{count_text, report_line};

use crate::stage::Stage;
use itoa::Buffer;
use plan_num::{NoMemory, Text};
use std::alloc::Global;

/// A number with what it counts, as `2 edges`.
pub fn count_text(alloc: Global, count: usize, what: &str) -> Result<Text, NoMemory>
    ensures { IfOk result (λ text. text ≡ count_text count what.now) }
{
    let mut buffer = Buffer::new();
    let mut text = Vec::from_slice(alloc, buffer.format(count).as_bytes())?;
    text.extend_from_slice(b" ")?;
    text.extend_from_slice(what.as_bytes())?;
    Ok(Text::from_vec(text))
}

/// The line of a stage in a report, without its end: the name of the stage, a colon, and the parts
/// with commas between.
pub fn report_line(alloc: Global, stage: Stage, parts: &[Text]) -> Result<Text, NoMemory>
    ensures { IfOk result (λ line. line ≡ report_line stage parts.now) }
{
    let mut line = Vec::from_slice(alloc, stage.name().as_bytes())?;
    let mut mark: &[u8] = b": ";
    for part in parts {
        line.extend_from_slice(mark)?;
        line.extend_from_slice(part.as_bytes())?;
        mark = b", ";
    }
    Ok(Text::from_vec(line))
}
