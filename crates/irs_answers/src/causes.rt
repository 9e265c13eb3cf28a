//! What a reply says, for the sentence about it.
ghost use Rattle.std.specs.Prelude.{◌≡◌};
ghost use Rattle.irs_answers.specs.Messages.{cause_of, cause_status, verdict_cause as verdict_cause_of, refusal_status};

use crate::refusals::Refusal;
use crate::replies::Reply;
use irs_audit::{Departure, Verdict};
use irs_base::Status;

/// What a reply says, for the sentence about it.
#[derive(Clone, Copy)]
pub enum Cause {
    /// The task is done, and there is nothing to say of it.
    Done,
    /// The cash flows agree. This number of amounts, above 0, lacks a fixing: they were compared with nothing.
    Uncompared(u32),
    /// The cash flows depart from the schedule, and here first.
    NotAgreed(Departure),
    /// The list of breaks has some.
    Breaks,
    /// The task isn't carried out.
    Refused(Refusal),
}

impl Cause {
    /// The status of a reply with this cause.
    pub fn status(self) -> u8
        ensures { result ≡ cause_status self }
    {
        match self {
            Cause::Done => Status::Done.number(),
            Cause::Uncompared(_) => Status::Done.number(),
            Cause::NotAgreed(_) => Status::NotAgreed.number(),
            Cause::Breaks => Status::NotAgreed.number(),
            Cause::Refused(refusal) => status_of(refusal),
        }
    }
}

impl Reply {
    /// What the reply says.
    pub fn cause(&self) -> Cause
        ensures { result ≡ cause_of self.now }
    {
        match self {
            Reply::Text(_) => Cause::Done,
            Reply::Rows(_) => Cause::Done,
            Reply::Breaks(_) => Cause::Breaks,
            Reply::Verdict(verdict) => verdict_cause(*verdict),
            Reply::Refused(refusal) => Cause::Refused(*refusal),
        }
    }
}

// What a verdict says.
fn verdict_cause(verdict: Verdict) -> Cause
    ensures { result ≡ verdict_cause_of verdict }
{
    match verdict {
        Verdict::Yes { unfixed, .. } => if unfixed == 0 {
            Cause::Done
        } else {
            Cause::Uncompared(unfixed)
        },
        Verdict::No(departure) => Cause::NotAgreed(departure),
    }
}

// The status of a refusal.
fn status_of(refusal: Refusal) -> u8
    ensures { result ≡ refusal_status refusal }
{
    match refusal {
        Refusal::Unreadable(_) => Status::RuleBroken.number(),
        Refusal::Rule(_) => Status::RuleBroken.number(),
        Refusal::Calendars(_) => Status::BadFile.number(),
        Refusal::Fixings(_) => Status::BadFile.number(),
        Refusal::UnreadableFlows(_) => Status::BadFile.number(),
        Refusal::Flows(_) => Status::BadFile.number(),
        Refusal::Memory => Status::NoMemory.number(),
    }
}
