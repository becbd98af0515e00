// Journeys over a folder.
ghost use Rattle.std.specs.Prelude.{◌≡◌, false, IfOk, IfSome};
ghost use Rattle.plan_files.specs.Reads.{OnlyReads};
ghost use Rattle.stage_chain.specs.Ends.{is_broken, Gives};
ghost use Rattle.command_line.specs.declared.ends.QueryEnd.TheVariants as ends;
ghost use Rattle.command_line.specs.declared.form.Form.TheVariants as forms;
ghost use Rattle.plan_queries.specs.Queries.{AnswersRight, IsRightIn, JourneyIsRight, JourneyTells};
ghost use Rattle.plan_queries.specs.Queries.{Tells, TellsJourney, times_in};

use crate::answer::Answer;
use crate::fault::end_of_fault;
use command_line::QueryEnd;
use giv_files::Stage;
use journeys::{JourneyNet, print_journey};
use plan_files::Files;
use plan_num::Text;
use stage_chain::{ChainEnd, standing_text};
use std::alloc::Global;
use tables::FileId;

// The texts of a day: its events and activities, and disposed times where these are asked for.
#[derive(Drop)]
struct DayTexts {
    events: Text,
    activities: Text,
    times: Option<Text>,
}

/// The journey from a stop to another one that starts at a time or later and arrives first, and what
/// can be reached before it.
pub(crate) fn journey<F: Files>(
    alloc: Global,
    files: &mut F,
    from: i64,
    to: i64,
    start: i64,
    disposed: bool,
) -> Result<Answer, ChainEnd>
    ensures tells { IfSome (F.contents files.old) (λ folder.
        Tells (JourneyTells from to start disposed folder) result) }
    ensures right { IfSome (F.contents files.old) (λ folder.
        AnswersRight (IsRightIn (forms.Journey from to start disposed) folder) result) }
    ensures ends { IfOk result (λ answer. answer.end ≡ ends.Done) }
    ensures only_reads { OnlyReads F.contents F.writes F.faults files.old files.new
        (is_broken result) }
{
    let events = standing_text(alloc, files, FileId::EventsX)?;
    let activities = standing_text(alloc, files, FileId::ActivitiesX)?;
    let times = times(alloc, files, disposed)?;
    let day = DayTexts {
        events,
        activities,
        times,
    };
    over(alloc, from, to, start, &day)
}

// The disposed times, where they are asked for.
fn times<F: Files>(alloc: Global, files: &mut F, disposed: bool) -> Result<Option<Text>, ChainEnd>
    ensures times { IfSome (F.contents files.old) (λ folder.
        Gives (times_in disposed folder) result) }
    ensures only_reads { OnlyReads F.contents F.writes F.faults files.old files.new
        (is_broken result) }
{
    if disposed {
        Ok(Some(standing_text(alloc, files, FileId::Disposed)?))
    } else {
        Ok(None)
    }
}

// The journey over the texts of a day.
fn over(alloc: Global, from: i64, to: i64, start: i64, day: &DayTexts) -> Result<Answer, ChainEnd>
    ensures tells { Tells
        (TellsJourney from to start day.now.events day.now.activities day.now.times) result }
    ensures right { AnswersRight
        (JourneyIsRight from to start day.now.events day.now.activities day.now.times) result }
    ensures ends { IfOk result (λ answer. answer.end ≡ ends.Done) }
    ensures fault_free { is_broken result ≡ false }
{
    let times = match &day.times {
        Some(times) => Some(times.as_bytes()),
        None => None,
    };
    let (events, activities) = (day.events.as_bytes(), day.activities.as_bytes());
    match JourneyNet::from_texts(alloc, events, activities, times) {
        Ok(net) => {
            let found = net.earliest(alloc, from, to, start)?;
            Ok(Answer {
                end: QueryEnd::Done,
                report: print_journey(alloc, &net, &found)?,
            })
        }
        Err(fault) => Err(end_of_fault(Stage::Disposition, fault)),
    }
}
