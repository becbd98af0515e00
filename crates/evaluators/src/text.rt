// The text of a statistic.
ghost use Rattle.std.specs.Prelude.{◌≡◌, ◌++◌, IfOk, OnOk};
ghost use Rattle.evaluators.specs.Bounds.{IsSmall};
ghost use Rattle.evaluators.specs.StatisticStage.{statistic_made, statistic_text, value_line};

use crate::measure::Measure;
use crate::statistic::Statistic;
use giv_files::{Made, MadeFile, MadeList};
use plan_num::{NoMemory, Text, print_fixed};
use std::alloc::Global;
use tables::FileId;

/// What is made of a statistic: its file, and the line of the report.
pub(crate) fn statistic_made(alloc: Global, all: &Statistic) -> Result<Made, NoMemory>
    requires { IsSmall all.now }
    ensures { IfOk result (λ made. made ≡ statistic_made all.now) }
{
    let mut files = MadeList::new(alloc);
    files.push(MadeFile {
        file: FileId::Statistic,
        text: statistic_text(alloc, all)?,
    })?;
    Ok(Made {
        files,
        report: Text::copy(alloc, b"statistic: 14 values")?,
    })
}

// The text of a statistic.
fn statistic_text(alloc: Global, all: &Statistic) -> Result<Text, NoMemory>
    requires { IsSmall all.now }
    ensures { IfOk result (λ text. text ≡ statistic_text all.now) }
{
    let mut bytes = Vec::from_slice(alloc, b"# key; value\n")?;
    for measure in Measure::all() {
        push_line(alloc, &mut bytes, all, *measure)?;
    }
    Ok(Text::from_vec(bytes))
}

// Appends the line of a measure.
fn push_line(
    alloc: Global,
    bytes: &mut Vec<u8>,
    all: &Statistic,
    measure: Measure,
) -> Result<(), NoMemory>
    requires { IsSmall all.now }
    ensures { OnOk result (bytes.new.items ≡ bytes.old.items ++ value_line all.now measure) }
{
    let value = print_fixed(alloc, all.value(measure))?;
    bytes.extend_from_slice(measure.name().as_bytes())?;
    bytes.extend_from_slice(b"; ")?;
    bytes.extend_from_slice(value.as_bytes())?;
    bytes.push(b'\n')?;
    Ok(())
}
