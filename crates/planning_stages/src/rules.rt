// The rules of a check that the files of each stage keep.
ghost use Rattle.std.specs.Prelude.{◌≡◌};
ghost use Rattle.planning_stages.specs.Rules.{bare_rule, concept_rule, reason_rule, schedule_rule};
ghost use Rattle.planning_stages.specs.Rules.{timetable_rule};

use delay_management::ReasonFault;
use line_search::ConceptFault;
use pesp_search::TimetableFault;
use stage_chain::Rule;
use vehicle_flow::ScheduleFault;

/// The rule that a concept or the tree beside it breaks.
pub(crate) fn concept_rule(fault: ConceptFault) -> Rule
    ensures { result ≡ concept_rule fault }
{
    match fault {
        ConceptFault::Row => Rule::Row,
        ConceptFault::Lines => Rule::Lines,
        ConceptFault::Bounds => Rule::Bounds,
        ConceptFault::Tree => Rule::Tree,
        ConceptFault::Split => Rule::Split,
        ConceptFault::Empty => Rule::Empty,
        ConceptFault::Multiplier => Rule::Multiplier,
        ConceptFault::Bound => Rule::Bound,
        ConceptFault::Point => Rule::Point,
    }
}

/// The rule that a timetable breaks.
pub(crate) fn timetable_rule(fault: TimetableFault) -> Rule
    ensures { result ≡ timetable_rule fault }
{
    match fault {
        TimetableFault::Row => Rule::Row,
        TimetableFault::Events => Rule::Events,
        TimetableFault::Tension => Rule::Tension,
    }
}

/// The rule that a vehicle schedule or the potentials beside it break.
pub(crate) fn schedule_rule(fault: ScheduleFault) -> Rule
    ensures { result ≡ schedule_rule fault }
{
    match fault {
        ScheduleFault::Row => Rule::Row,
        ScheduleFault::Trips => Rule::Trips,
        ScheduleFault::Follow => Rule::Follow,
        ScheduleFault::Certificate => Rule::Certificate,
        ScheduleFault::Potentials => Rule::Potentials,
        ScheduleFault::Pair => Rule::Pair,
        ScheduleFault::Sum => Rule::Sum,
    }
}

/// The rule that a disposition or the reasons beside it break.
pub(crate) fn reason_rule(fault: ReasonFault) -> Rule
    ensures { result ≡ reason_rule fault }
{
    match fault {
        ReasonFault::TimesRow => Rule::Row,
        ReasonFault::Events => Rule::Events,
        ReasonFault::Early { .. } => Rule::Early,
        ReasonFault::ReasonsRow => Rule::Reasons,
        ReasonFault::Reason { .. } => Rule::Reason,
    }
}

/// The rule that a disposition breaks without reasons beside it, by what it breaks with an empty text
/// of reasons.
pub(crate) fn bare_rule(found: Option<ReasonFault>) -> Rule
    ensures { result ≡ bare_rule found }
{
    match found {
        Some(ReasonFault::TimesRow) => Rule::Row,
        Some(ReasonFault::Events) => Rule::Events,
        Some(ReasonFault::Early { .. }) => Rule::Early,
        Some(ReasonFault::ReasonsRow) => Rule::Certificate,
        Some(ReasonFault::Reason { .. }) => Rule::Certificate,
        None => Rule::Certificate,
    }
}
