// Answers over texts: times judged, and bounds checked.
ghost use Rattle.std.specs.Prelude.{◌≡◌, ◌<◌, ◌<ℤ◌, ◌≤ℤ◌, None, true, IfOk, ℕ, List, pos};
ghost use Rattle.pesp.specs.Timetables.{IsTimetable};
ghost use Rattle.pesp_judge.specs.Weighted.{IsBound, Judges, problem_of};
ghost use Rattle.pesp_texts.specs.Texts.{Bounds, NoTimetable, Says, SaysTimes};

use crate::certificate::read_certificate;
use crate::fault::{TextFault, TextStop};
use crate::instance::{Instance, read_instance};
use crate::times::read_times;
use pesp::{PespActivity, tension};
use pesp_judge::{BoundFault, Judged, check_bound, greatest_slack, judge};
use plan_num::NoMemory;
use std::alloc::Global;

/// Why texts are not answered: memory was refused, or the text of the problem is refused, or the
/// other one.
#[derive(Clone, Copy, Debug, PartialEq, Eq)]
pub enum AnswerStop {
    NoMemory,
    Instance(TextFault),
    Other(TextFault),
}

/// A problem, times, and what is said of them.
pub struct JudgedTimes {
    pub instance: Instance,
    pub times: Vec<u32>,
    pub judged: Judged,
}

impl Drop for JudgedTimes {
    fn drop(self) {
        let JudgedTimes {
            instance: _,
            times: _,
            judged: _,
        } = self;
    }
}

impl JudgedTimes {
    /// The minutes that an activity takes between the times of its events.
    pub fn minutes(&self, activity: &PespActivity) -> i64 {
        let times = (self.times.get(activity.from), self.times.get(activity.to));
        let period = self.instance.weighted.period();
        match times {
            (Some(from), Some(to)) if may_take(activity, *from, *to, period) => {
                tension(activity.lower, *from, *to, period)
            }
            _ => activity.lower,
        }
    }
}

// Whether an activity has minutes between two times.
fn may_take(activity: &PespActivity, from: u32, to: u32, period: u32) -> bool
    ensures from { result ≡ true → from < period }
    ensures to { result ≡ true → to < period }
    ensures low { result ≡ true → pos 0 ≤ℤ activity.now.lower }
    ensures high { result ≡ true → activity.now.lower ≤ℤ pos 100000 }
{
    from < period && to < period && 0 <= activity.lower && activity.lower <= 100_000
}

/// A claim, and what is wrong with its certificate. Where nothing is, no timetable costs less; and
/// where the claim is above all that slacks can cost, there is none.
#[derive(Clone, Copy, Debug)]
pub struct CheckedBound {
    pub claim: i64,
    pub fault: Option<BoundFault>,
    pub above_all: bool,
}

/// Judges the times of one text by the problem of another.
pub fn judge_texts(
    alloc: Global,
    instance: &[u8],
    times: &[u8],
    period: u32,
) -> Result<JudgedTimes, AnswerStop>
    ensures problem { IfOk result (λ it.
        Says instance.now period it.instance.names.keys it.instance.weighted) }
    ensures times { IfOk result (λ it.
        SaysTimes times.now period it.instance.names.keys it.times.items) }
    ensures judged { IfOk result (λ it. Judges it.instance.weighted it.times.items it.judged) }
{
    let instance = instance_of(alloc, instance, period)?;
    let times = times_of(alloc, times, &instance)?;
    let judged = judge(&instance.weighted, &times);
    Ok(JudgedTimes {
        instance,
        times,
        judged,
    })
}

/// Checks the certificate of one text by the problem of another.
pub fn check_texts(
    alloc: Global,
    instance: &[u8],
    certificate: &[u8],
    period: u32,
) -> Result<CheckedBound, AnswerStop>
    ensures bound { IfOk result (λ it. it.fault ≡ None → Bounds instance.now period it.claim) }
    ensures none { IfOk result (λ it. it.fault ≡ None → it.above_all ≡ true →
        NoTimetable instance.now period) }
{
    let instance = instance_of(alloc, instance, period)?;
    checked(alloc, &instance, certificate)
}

// Checks the certificate of a text by a problem.
fn checked(
    alloc: Global,
    instance: &Instance,
    certificate: &[u8],
) -> Result<CheckedBound, AnswerStop>
    ensures bound { IfOk result (λ it. it.fault ≡ None → IsBound instance.now.weighted it.claim) }
    ensures none { IfOk result (λ it. it.fault ≡ None → it.above_all ≡ true →
        (times : List ℕ) → IsTimetable (problem_of instance.now.weighted) times → ⊥) }
{
    match read_certificate(alloc, certificate) {
        Err(stop) => Err(other(stop)),
        Ok(certificate) => match check_bound(alloc, &instance.weighted, &certificate) {
            Err(NoMemory) => Err(AnswerStop::NoMemory),
            Ok(fault) => Ok(CheckedBound {
                claim: certificate.claim,
                fault,
                above_all: is_above(certificate.claim, greatest_slack(&instance.weighted)),
            }),
        },
    }
}

// Whether a claim is above the most that slacks can cost.
fn is_above(claim: i64, most: u64) -> bool
    ensures { result ≡ true → pos most <ℤ claim }
{
    i128::from(claim) > i128::from(most)
}

// The problem of a text.
fn instance_of(alloc: Global, text: &[u8], period: u32) -> Result<Instance, AnswerStop>
    ensures { IfOk result (λ instance.
        Says text.now period instance.names.keys instance.weighted) }
{
    match read_instance(alloc, text, period) {
        Ok(instance) => Ok(instance),
        Err(TextStop::NoMemory) => Err(AnswerStop::NoMemory),
        Err(TextStop::Refused(fault)) => Err(AnswerStop::Instance(fault)),
    }
}

// The times of a text.
fn times_of(alloc: Global, text: &[u8], instance: &Instance) -> Result<Vec<u32>, AnswerStop>
    ensures { IfOk result (λ times. SaysTimes text.now instance.now.weighted.period
        instance.now.names.keys times.items) }
{
    match read_times(alloc, text, instance) {
        Ok(times) => Ok(times),
        Err(stop) => Err(other(stop)),
    }
}

// Why the other text is not read.
fn other(stop: TextStop) -> AnswerStop {
    match stop {
        TextStop::NoMemory => AnswerStop::NoMemory,
        TextStop::Refused(fault) => AnswerStop::Other(fault),
    }
}
