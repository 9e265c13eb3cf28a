//! The text of `breaks`: each break between cash flows and a schedule. Its format is our rule.
ghost use Rattle.std.specs.Prelude.{◌≡◌, IfOk};
ghost use Rattle.irs_answers.specs.Tasks.{IsStatusOf, breaks_of};
ghost use Rattle.irs_answers.specs.Forms.{source_by};
ghost use Rattle.irs_answers.specs.Private.Outcomes.{MeetsReply, IsCarriedOut, FlowsAlone, IsOfReadText};
ghost use Rattle.irs_answers.specs.Messages.{reply_status, reply_text};

use crate::flows::stated_flows;
use crate::forms::Source;
use crate::refusals::Refusal;
use crate::replies::Reply;
use irs_base::Day;
use irs_breaks::{BreakList, breaks, breaks_text};
use irs_schedule::Schedule;
use std::alloc::Global;

/// The breaks between the cash flows of a text and a schedule, for what is due from a day on, or for all.
pub(crate) fn breaks_answer(
    alloc: Global,
    from: &Option<Day>,
    flows: &Source,
    schedule: &Schedule,
) -> Result<Reply, Refusal>
    ensures meets { MeetsReply (breaks_of from.now schedule.now (source_by flows.now)) result }
    ensures carried { IfOk result IsCarriedOut }
    ensures placed { FlowsAlone (source_by flows.now) result }
{
    let stated = stated_flows(alloc, flows)?;
    let list = breaks(alloc, from, schedule, &stated)?;
    let text = breaks_text(alloc, from, &list)?;
    Ok(listed(&list, text))
}

// The reply with the text of a list: its status is 1 where there is a break, and 0 where there is none.
fn listed(list: &BreakList, text: Vec<u8>) -> Reply
    ensures status { IsStatusOf list.now (reply_status result) }
    ensures text { reply_text result ≡ text.items }
    ensures carried { IsCarriedOut result }
    ensures plain { IsOfReadText result }
{
    if list.any() {
        Reply::Breaks(text)
    } else {
        Reply::Text(text)
    }
}
