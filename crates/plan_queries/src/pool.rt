// Pools of lines over a folder.
ghost use Rattle.std.specs.Prelude.{◌≡◌, false, IfOk, IfSome, Ok};
ghost use Rattle.plan_files.specs.Reads.{OnlyReads};
ghost use Rattle.ptn_network.specs.Networks.{network_of};
ghost use Rattle.plan_num.specs.Terminals.{AreTerminals};
ghost use Rattle.pool_maker.specs.RightPools.{IsRightPool};
ghost use Rattle.stage_chain.specs.Ends.{is_broken, Gives};
ghost use Rattle.command_line.specs.declared.ends.QueryEnd.TheVariants as ends;
ghost use Rattle.command_line.specs.declared.form.Form.TheVariants as forms;
ghost use Rattle.plan_queries.specs.Queries.{AnswersRight, IsRightIn, pool_over, pool_told};

use crate::answer::Answer;
use crate::fault::end_of_fault;
use command_line::QueryEnd;
use giv_files::Stage;
use plan_files::Files;
use plan_num::Text;
use pool_maker::make_pool;
use stage_chain::{ChainEnd, standing_text};
use std::alloc::Global;
use tables::FileId;

/// The pool of shortest lines between terminals.
pub(crate) fn pool<F: Files>(
    alloc: Global,
    files: &mut F,
    terminals: &[i64],
) -> Result<Answer, ChainEnd>
    requires { AreTerminals terminals.now }
    ensures tells { IfSome (F.contents files.old) (λ folder.
        Gives (pool_told terminals.now folder) result) }
    ensures right { IfSome (F.contents files.old) (λ folder.
        AnswersRight (IsRightIn (forms.Pool terminals.now) folder) result) }
    ensures ends { IfOk result (λ answer. answer.end ≡ ends.Done) }
    ensures only_reads { OnlyReads F.contents F.writes F.faults files.old files.new
        (is_broken result) }
{
    let stops = standing_text(alloc, files, FileId::Stop)?;
    let edges = standing_text(alloc, files, FileId::Edge)?;
    over(alloc, &stops, &edges, terminals)
}

// The pool over the texts of stops and of edges.
fn over(alloc: Global, stops: &Text, edges: &Text, terminals: &[i64]) -> Result<Answer, ChainEnd>
    requires { AreTerminals terminals.now }
    ensures tells { Gives (pool_over terminals.now (Ok stops.now) (Ok edges.now)) result }
    ensures right { AnswersRight
        (IsRightPool (network_of stops.now edges.now) terminals.now) result }
    ensures ends { IfOk result (λ answer. answer.end ≡ ends.Done) }
    ensures fault_free { is_broken result ≡ false }
{
    match make_pool(alloc, stops.as_bytes(), edges.as_bytes(), terminals) {
        Ok(report) => Ok(Answer {
            end: QueryEnd::Done,
            report,
        }),
        Err(fault) => Err(end_of_fault(Stage::Load, fault)),
    }
}
