//! The cash flows of a task, and the verdict on them.
ghost use Rattle.std.specs.Prelude.{IfOk, IfErr};
ghost use Rattle.irs_answers.specs.Tasks.{audit_of};
ghost use Rattle.irs_answers.specs.Forms.{source_by};
ghost use Rattle.irs_answers.specs.Messages.{verdict_status, verdict_text};
ghost use Rattle.irs_answers.specs.Due.{RefusedBy};
ghost use Rattle.irs_answers.specs.Private.Outcomes.{FlowsRefused, SpellsFlows, IsOfFlows};

use crate::forms::{ReadErr, Source, read_document};
use crate::refusals::Refusal;
use irs_audit::{Verdict, audit};
use irs_flows::{Flows, read_flows};
use irs_schedule::Schedule;
use std::alloc::Global;

/// Whether the flows of a file agree with a schedule, or why they aren't compared.
pub(crate) fn verdict_on(
    alloc: Global,
    schedule: &Schedule,
    source: &Source,
) -> Result<Verdict, Refusal>
    ensures verdict { let due = audit_of schedule.now (source_by source.now) in
        IfOk result (λ w. due.Answers (verdict_status w, verdict_text w)) }
    ensures refused { IfErr result (λ r. RefusedBy (audit_of schedule.now (source_by source.now)) r) }
    ensures placed { IfErr result (λ r. IsOfFlows (source_by source.now) r) }
{
    let flows = stated_flows(alloc, source)?;
    Ok(audit(schedule, &flows))
}

/// The flows that a text states, or how it has no reading, or its first fault.
pub(crate) fn stated_flows(alloc: Global, source: &Source) -> Result<Flows, Refusal>
    ensures spells { IfOk result (λ flows. SpellsFlows (source_by source.now) flows) }
    ensures fault { IfErr result (λ r. FlowsRefused (source_by source.now) r) }
{
    match read_document(alloc, source) {
        Ok(document) => Ok(read_flows(alloc, &document)?),
        Err(ReadErr::Unreadable(unread)) => Err(Refusal::UnreadableFlows(unread)),
        Err(ReadErr::Memory) => Err(Refusal::Memory),
    }
}
