// Lines that tell why something is not done.
ghost use Rattle.std.specs.Prelude.{◌≡◌, IfOk};
ghost use Rattle.stage_chain.specs.Reports.{cause_text, line_of, missing_text, too_long_text};

use crate::cause::Cause;
use crate::report::{push_cause, push_missing, push_too_long};
use plan_num::{NoMemory, Text};
use std::alloc::Global;

/// The line that tells why a chain ends early.
pub fn cause_line(alloc: Global, cause: &Cause) -> Result<Text, NoMemory>
    ensures { IfOk result (λ line. line ≡ line_of (cause_text cause.now)) }
{
    let mut line = Vec::new(alloc);
    push_cause(alloc, &mut line, cause)?;
    line.push(b'\n')?;
    Ok(Text::from_vec(line))
}

/// The line that tells that a file is not there.
pub fn missing_line(alloc: Global, name: &str) -> Result<Text, NoMemory>
    ensures { IfOk result (λ line. line ≡ line_of (missing_text name.now)) }
{
    let mut line = Vec::new(alloc);
    push_missing(&mut line, name.as_bytes())?;
    line.push(b'\n')?;
    Ok(Text::from_vec(line))
}

/// The line that tells that a file has too many bytes.
pub fn too_long_line(alloc: Global, name: &str) -> Result<Text, NoMemory>
    ensures { IfOk result (λ line. line ≡ line_of (too_long_text name.now)) }
{
    let mut line = Vec::new(alloc);
    push_too_long(&mut line, name.as_bytes())?;
    line.push(b'\n')?;
    Ok(Text::from_vec(line))
}
