// Runs over files and a sink that never fail.
ghost use Rattle.std.specs.Prelude.{◌≢◌};

use lintim_cli::{Status, demo_files, lintim};
use plan_files::{SteadyFiles, SteadySink};
use plan_num::{Silent, Steps};
use std::alloc::Global;
use std::test::Fail;

// No fault of a file or of the sink is answered there.
#[tactic(auto, using(crate::proofs::Steady::no_file_fault, crate::proofs::Steady::no_sink_fault))]
fn steady(
    alloc: Global,
    words: &[String],
    files: &mut SteadyFiles,
    out: &mut SteadySink,
    steps: &mut Steps<Silent>,
) -> Status
    ensures no_file_fault { result ≢ Status.FileFault }
    ensures no_sink_fault { result ≢ Status.SinkFault }
{
    lintim(alloc, words, files, out, steps)
}

#[test]
fn nothing_fails_in_memory(rt: HostRuntime) -> Result<(), Fail> {
    let alloc = rt.alloc();
    let mut files = demo_files(alloc, 3)?;
    let mut out = SteadySink::new(alloc);
    let mut steps = Steps::new(Silent);
    let words = vec![in alloc; String::from_str(alloc, "make")?]?;
    assert!(&rt; steady(alloc, &words, &mut files, &mut out, &mut steps) == Status::Done);
    assert!(&rt; out.bytes().ends_with(b"done\n"));
    Ok(())
}
