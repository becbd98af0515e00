// The calls that judge what stages make. Each is a function of its own, which promises nothing.
use crate::told::refusal_text;
use delay_management::check_reasons;
use giv_files::{Bundle, Stage, StageFault};
use line_search::check_concept;
use pesp_search::check_timetable;
use script_files::Trouble;
use std::alloc::{AllocError, Global};
use std::fmt;
use vehicle_flow::check_schedule;

/// What is told of texts that are judged in the place of what the stage of a bundle makes.
pub(crate) fn judged(
    alloc: Global,
    bundle: &Bundle,
    first: &[u8],
    second: Option<&[u8]>,
) -> Result<String, Trouble> {
    match bundle.stage() {
        Stage::Concept => concept(alloc, bundle, first, second),
        Stage::Timetable => timetable(alloc, bundle, first),
        Stage::Vehicles => schedule(alloc, bundle, first, second),
        Stage::Disposition => disposition(alloc, bundle, first, second.unwrap_or(b"")),
        _ => Err(Trouble),
    }
}

fn concept(
    alloc: Global,
    bundle: &Bundle,
    concept: &[u8],
    tree: Option<&[u8]>,
) -> Result<String, Trouble> {
    if bundle.stage() != Stage::Concept || !bundle.fits() {
        return Err(Trouble);
    }
    verdict(alloc, check_concept(alloc, bundle, concept, tree))
}

fn timetable(alloc: Global, bundle: &Bundle, times: &[u8]) -> Result<String, Trouble> {
    if bundle.stage() != Stage::Timetable || !bundle.fits() {
        return Err(Trouble);
    }
    verdict(alloc, check_timetable(alloc, bundle, times))
}

fn schedule(
    alloc: Global,
    bundle: &Bundle,
    schedule: &[u8],
    potentials: Option<&[u8]>,
) -> Result<String, Trouble> {
    if bundle.stage() != Stage::Vehicles || !bundle.fits() {
        return Err(Trouble);
    }
    verdict(alloc, check_schedule(alloc, bundle, schedule, potentials))
}

fn disposition(
    alloc: Global,
    bundle: &Bundle,
    times: &[u8],
    reasons: &[u8],
) -> Result<String, Trouble> {
    if bundle.stage() != Stage::Disposition || !bundle.fits() {
        return Err(Trouble);
    }
    verdict(alloc, check_reasons(alloc, bundle, times, reasons))
}

// What is told of the first rule that is broken.
fn verdict<F: fmt::Debug + Drop>(
    alloc: Global,
    found: Result<Option<F>, StageFault>,
) -> Result<String, Trouble> {
    match found {
        Ok(None) => Ok(String::from_str(alloc, "passes\n")?),
        Ok(Some(fault)) => Ok(broken(alloc, &fault)?),
        Err(fault) => refusal_text(alloc, fault),
    }
}

fn broken<F: fmt::Debug>(alloc: Global, fault: &F) -> Result<String, AllocError> {
    format!(in alloc; "breaks {fault:?}\n")
}
