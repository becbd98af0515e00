// What is told of a question.
use command_line::QueryEnd;
use plan_num::Text;

/// How a question ended, and its report.
#[derive(Debug, Drop)]
pub struct Answer {
    pub end: QueryEnd,
    pub report: Text,
}
