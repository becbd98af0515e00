// What a check answers.
use crate::rule::Rule;
use giv_files::Stage;
use plan_num::Text;

/// How a check ended.
#[derive(Clone, Copy, Debug, PartialEq, Eq)]
pub enum CheckEnd {
    /// All files that were judged keep their rules.
    Passed,
    /// What people write is refused.
    BadInput,
    /// The files of a stage break a rule.
    Failed { stage: Stage, rule: Rule },
}

/// How a check ended, and its report.
#[derive(Debug, Drop)]
pub struct CheckOutcome {
    pub end: CheckEnd,
    pub report: Text,
}
