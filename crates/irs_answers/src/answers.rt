//! The last step of each task, where no rule is broken.
ghost use Rattle.std.specs.Prelude.{IfOk};
ghost use Rattle.irs_base.specs.Outcomes.{answer};
ghost use Rattle.irs_emit.specs.Emitted.{emit_text};
ghost use Rattle.irs_emit_xml.specs.Flows.{flows_text};
ghost use Rattle.irs_answers.specs.Tasks.{TellsAccrued, accruing, audit_of, IsLawfulTask};
ghost use Rattle.irs_answers.specs.Private.Outcomes.{IsAccruing, JudgedIf, MeetsReply, IsCarriedOut, AllPlaced};
ghost use Rattle.irs_answers.specs.Private.Outcomes.{FlowsAlone, NoneUnread};
ghost use Rattle.irs_answers.specs.Messages.{IsJudged, all_kept};
ghost use Rattle.irs_answers.specs.Due.{PassesEachStep, answer_for, told_by, facts_by};
ghost use Rattle.irs_answers.specs.Forms.{source_by, given_with};
ghost use Rattle.irs_terms.specs.Lawful.{IsLawfulSwap};

use crate::accruing::accrued_page;
use crate::breaking::breaks_answer;
use crate::common::Common;
use crate::derived::{average_answer, interpolate_answer, overnight_answer};
use crate::due::Found;
use crate::files::TaskFiles;
use crate::flows::verdict_on;
use crate::forms::Source;
use crate::netting::net_answer;
use crate::observing::observations_answer;
use crate::refusals::Refusal;
use crate::replies::Reply;
use crate::tasks::Task;
use irs_base::Day;
use irs_emit::emit_flows;
use irs_emit_xml::emit_xml;
use irs_schedule::Schedule;
use std::alloc::Global;

/// What a task comes to, by what its files say.
pub(crate) fn answer_by(
    alloc: Global,
    task: &Task,
    files: &TaskFiles,
    common: &Common,
    found: Found<'_>,
) -> Result<Reply, Refusal>
    requires asked { IsLawfulTask task.now }
    requires lawful { IsLawfulSwap found.swap }
    requires passes { PassesEachStep task.now (given_with files.now common.now.files) (facts_by found) }
    ensures meets { MeetsReply
        (answer_for task.now (given_with files.now common.now.files) (facts_by found.entry)) result }
    ensures judged { JudgedIf task.now result }
    ensures carried { IfOk result IsCarriedOut }
    ensures placed { AllPlaced (source_by files.now.document) (source_by files.now.flows) result }
{
    match *task {
        Task::Check => check_answer(alloc),
        Task::Schedule => Ok(Reply::Rows(found.schedule)),
        Task::Audit => audit_answer(alloc, &files.flows, &found.schedule),
        Task::Breaks(from) => breaks_answer(alloc, &from, &files.flows, &found.schedule),
        Task::Emit => emit_answer(alloc, &found.schedule),
        Task::EmitXml => emit_xml_answer(alloc, &found.schedule),
        Task::Accrue(date) => accrue_answer(alloc, &found, date),
        Task::Net => net_answer(alloc, &found),
        Task::Observations(stream) => observations_answer(alloc, stream, &found),
        Task::Overnight(stream) => overnight_answer(alloc, stream, &found),
        Task::Average { stream, mean, step } => average_answer(alloc, stream, mean, step, &found),
        Task::Interpolate {
            stream,
            side,
            low,
            high,
        } => interpolate_answer(alloc, stream, side, low, high, &found),
    }
}

fn check_answer(alloc: Global) -> Result<Reply, Refusal>
    ensures meets { MeetsReply (answer (0, all_kept)) result }
    ensures carried { IfOk result IsCarriedOut }
    ensures placed { NoneUnread result }
{
    Ok(Reply::done(alloc, b"ok\n")?)
}

fn audit_answer(alloc: Global, flows: &Source, schedule: &Schedule) -> Result<Reply, Refusal>
    ensures meets { MeetsReply (audit_of schedule.now (source_by flows.now)) result }
    ensures judged { IfOk result IsJudged }
    ensures carried { IfOk result IsCarriedOut }
    ensures placed { FlowsAlone (source_by flows.now) result }
{
    Ok(Reply::Verdict(verdict_on(alloc, schedule, flows)?))
}

fn emit_answer(alloc: Global, schedule: &Schedule) -> Result<Reply, Refusal>
    ensures meets { MeetsReply (answer (0, emit_text schedule.now)) result }
    ensures carried { IfOk result IsCarriedOut }
    ensures placed { NoneUnread result }
{
    Ok(Reply::Text(emit_flows(alloc, schedule)?))
}

fn emit_xml_answer(alloc: Global, schedule: &Schedule) -> Result<Reply, Refusal>
    ensures meets { MeetsReply (answer (0, flows_text schedule.now)) result }
    ensures carried { IfOk result IsCarriedOut }
    ensures placed { NoneUnread result }
{
    Ok(Reply::Text(emit_xml(alloc, schedule)?))
}

fn accrue_answer(alloc: Global, found: &Found<'_>, date: Day) -> Result<Reply, Refusal>
    requires { IsAccruing (accruing found.now.swap found.now.calendars.now found.now.fixings.now) found.now.schedule }
    ensures meets { let x = accruing found.now.swap found.now.calendars.now found.now.fixings.now in
        MeetsReply (told_by (TellsAccrued date x found.now.schedule)) result }
    ensures carried { IfOk result IsCarriedOut }
    ensures placed { NoneUnread result }
{
    Ok(Reply::Text(accrued_page(alloc, found, date)?))
}
