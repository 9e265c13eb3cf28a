//! What a task comes to: the text, the schedule, the verdict or the refusal that is to be written.
ghost use Rattle.std.specs.Prelude.{◌≡◌, Some, IfOk};
ghost use Rattle.irs_answers.specs.Messages.{verdict_text, IsJudged, reply_status, reply_text, calendars_text};
ghost use Rattle.irs_answers.specs.Messages.{fixings_text, flows_fault_text, refusal_text};
ghost use Rattle.irs_answers.specs.Due.{answer_of};
ghost use Rattle.irs_answers.specs.declared.refusals.Refusal.TheVariants.{Calendars as OfCalendars, Fixings as OfFixings};
ghost use Rattle.irs_answers.specs.declared.refusals.Refusal.TheVariants.{Flows as OfFlows};
ghost use Rattle.irs_answers.specs.declared.replies.Reply.TheVariants.{Refused};
ghost use Rattle.irs_answers.specs.Private.Outcomes.{IsOfReadText, IsCarriedOut};

use crate::flow_messages::{bad_flows_line, departure_line, not_read_line, yes_line};
use crate::messages::{bad_calendar_line, bad_fixings_line, refused_line, unreadable_line};
use crate::refusals::Refusal;
use irs_audit::Verdict;
use irs_base::{Line, Memory};
use irs_calendar::CalErr;
use irs_flows::FlowErr;
use irs_resets::FixErr;
use irs_schedule::Schedule;
use std::alloc::Global;

/// What a task comes to. Its status, its text and what a sentence says of it are made from this one value.
#[derive(Drop)]
pub enum Reply {
    /// The text of a task that is done.
    Text(Vec<u8>),
    /// The schedule of a task that is done; the text is that of the schedule.
    Rows(Schedule),
    /// The text of a list of breaks that has some.
    Breaks(Vec<u8>),
    /// What an audit found; the text is its line.
    Verdict(Verdict),
    /// Why the task isn't carried out; the text is its line.
    Refused(Refusal),
}

impl Reply {
    /// A text of a task that is done. `Memory` comes where memory ran out.
    pub(crate) fn done(alloc: Global, text: &[u8]) -> Result<Reply, Memory>
        ensures done { IfOk result (λ r. (reply_status r ≡ 0) × (reply_text r ≡ text.now)) }
        ensures carried { IfOk result IsCarriedOut }
        ensures plain { IfOk result (λ r. IsOfReadText r) }
    {
        Ok(Reply::Text(Vec::from_slice(alloc, text)?))
    }
}

/// Replaces what the line holds with the line of a verdict. It takes no memory.
pub fn verdict_line(verdict: Verdict, line: &mut Line)
    ensures { line.new ≡ verdict_text verdict }
{
    match verdict {
        Verdict::Yes { rows, unfixed } => yes_line(rows, unfixed, line),
        Verdict::No(departure) => departure_line(departure, line),
    }
}

impl Refusal {
    /// The reply that a refusal is. `Memory` comes where memory ran out, which has no line.
    pub fn reply(self) -> Result<Reply, Memory>
        ensures answer { IfOk result (λ r. answer_of self ≡ Some (reply_status r, reply_text r)) }
        ensures judged { IfOk result IsJudged }
        ensures refused { IfOk result (λ r. r ≡ Refused self) }
    {
        match self {
            Refusal::Unreadable(_) => Ok(Reply::Refused(self)),
            Refusal::Rule(_) => Ok(Reply::Refused(self)),
            Refusal::Calendars(e) => calendars_reply(e),
            Refusal::Fixings(e) => fixings_reply(e),
            Refusal::UnreadableFlows(_) => Ok(Reply::Refused(self)),
            Refusal::Flows(e) => flows_reply(e),
            Refusal::Memory => Err(Memory),
        }
    }

    /// Replaces what the line holds with the line of a refusal. It takes no memory.
    pub fn line(self, line: &mut Line)
        ensures { line.new ≡ refusal_text self }
    {
        match self {
            Refusal::Unreadable(_) => unreadable_line(line),
            Refusal::Rule(broken) => refused_line(broken, line),
            Refusal::Calendars(e) => calendars_line(e, line),
            Refusal::Fixings(e) => fixings_line(e, line),
            Refusal::UnreadableFlows(_) => not_read_line(line),
            Refusal::Flows(e) => flows_line(e, line),
            Refusal::Memory => line.clear(),
        }
    }
}

// The reply that a faulty calendar file is.
fn calendars_reply(e: CalErr) -> Result<Reply, Memory>
    ensures answer { IfOk result (λ r. answer_of (OfCalendars e) ≡ Some (reply_status r, reply_text r)) }
    ensures judged { IfOk result IsJudged }
    ensures refused { IfOk result (λ r. r ≡ Refused (OfCalendars e)) }
{
    match e {
        CalErr::Syntax(_, _) => Ok(Reply::Refused(Refusal::Calendars(e))),
        CalErr::Repeat(_, _) => Ok(Reply::Refused(Refusal::Calendars(e))),
        CalErr::TooMany(_, _) => Ok(Reply::Refused(Refusal::Calendars(e))),
        CalErr::Memory => Err(Memory),
    }
}

// The reply that a faulty file of fixings is.
fn fixings_reply(e: FixErr) -> Result<Reply, Memory>
    ensures answer { IfOk result (λ r. answer_of (OfFixings e) ≡ Some (reply_status r, reply_text r)) }
    ensures judged { IfOk result IsJudged }
    ensures refused { IfOk result (λ r. r ≡ Refused (OfFixings e)) }
{
    match e {
        FixErr::Syntax(_) => Ok(Reply::Refused(Refusal::Fixings(e))),
        FixErr::Repeat(_) => Ok(Reply::Refused(Refusal::Fixings(e))),
        FixErr::Memory => Err(Memory),
    }
}

// The reply that faulty cash flows are.
fn flows_reply(e: FlowErr) -> Result<Reply, Memory>
    ensures answer { IfOk result (λ r. answer_of (OfFlows e) ≡ Some (reply_status r, reply_text r)) }
    ensures judged { IfOk result IsJudged }
    ensures refused { IfOk result (λ r. r ≡ Refused (OfFlows e)) }
{
    match e {
        FlowErr::Shape(_, _) => Ok(Reply::Refused(Refusal::Flows(e))),
        FlowErr::Memory => Err(Memory),
    }
}

// The line of a faulty calendar file.
fn calendars_line(e: CalErr, line: &mut Line)
    ensures { line.new ≡ calendars_text e }
{
    match e {
        CalErr::Syntax(file, number) => bad_calendar_line(file, number, "syntax", line),
        CalErr::Repeat(file, number) => bad_calendar_line(file, number, "repeat", line),
        CalErr::TooMany(file, number) => bad_calendar_line(file, number, "toomany", line),
        CalErr::Memory => line.clear(),
    }
}

// The line of a faulty file of fixings.
fn fixings_line(e: FixErr, line: &mut Line)
    ensures { line.new ≡ fixings_text e }
{
    match e {
        FixErr::Syntax(number) => bad_fixings_line(number, b" syntax\n", line),
        FixErr::Repeat(number) => bad_fixings_line(number, b" repeat\n", line),
        FixErr::Memory => line.clear(),
    }
}

// The line of faulty cash flows.
fn flows_line(e: FlowErr, line: &mut Line)
    ensures { line.new ≡ flows_fault_text e }
{
    match e {
        FlowErr::Shape(kind, place) => bad_flows_line(kind, place, line),
        FlowErr::Memory => line.clear(),
    }
}
