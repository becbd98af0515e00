// The top call as tests make it.
use lintim_cli::{Status, lintim};
use plan_files::{Files, Sink};
use plan_num::{NoMemory, Silent, Steps};
use std::alloc::Global;

// Runs one word. Nothing is promised of this call, so that no proof of a test goes over all that the
// program promises.
pub(crate) fn call<F: Files, K: Sink>(
    alloc: Global,
    word: &str,
    files: &mut F,
    out: &mut K,
) -> Result<Status, NoMemory> {
    let words = vec![in alloc; String::from_str(alloc, word)?]?;
    let mut steps = Steps::new(Silent);
    Ok(lintim(alloc, &words, files, out, &mut steps))
}
