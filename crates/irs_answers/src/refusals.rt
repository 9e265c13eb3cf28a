//! Why a task isn't carried out.
ghost use Rattle.std.specs.Prelude.{◌≡◌};
ghost use Rattle.irs_answers.specs.Due.{of_read, of_stopped};
ghost use Rattle.irs_answers.specs.declared.refusals.Refusal.TheVariants.{Rule as OfRule, Calendars as OfCalendars};
ghost use Rattle.irs_answers.specs.declared.refusals.Refusal.TheVariants.{Fixings as OfFixings, Flows as OfFlows};
ghost use Rattle.irs_answers.specs.declared.refusals.Refusal.TheVariants.{Memory as OfMemory};

use crate::forms::{ReadErr, Unread};
use irs_base::{Memory, Stopped};
use irs_calendar::CalErr;
use irs_flows::FlowErr;
use irs_resets::FixErr;
use irs_terms::Broken;

/// Why a task isn't carried out: the first step that fails.
#[derive(Clone, Copy)]
pub enum Refusal {
    /// The document has no reading, which is K1.
    Unreadable(Unread),
    /// A rule is broken.
    Rule(Broken),
    /// A calendar file is outside its grammar or limits.
    Calendars(CalErr),
    /// The file of fixings is outside its grammar.
    Fixings(FixErr),
    /// The flows have no reading.
    UnreadableFlows(Unread),
    /// The flows are out of shape.
    Flows(FlowErr),
    /// Memory ran out.
    Memory,
}

impl From<Memory> for Refusal {
    ghost from_gives = { λ _ r. r ≡ OfMemory };

    fn from(_e: Memory) -> Refusal {
        Refusal::Memory
    }
}

// The errors of `read_document`.
impl From<ReadErr> for Refusal {
    ghost from_gives = { λ e r. r ≡ of_read e };

    fn from(e: ReadErr) -> Refusal {
        match e {
            ReadErr::Unreadable(unread) => Refusal::Unreadable(unread),
            ReadErr::Memory => Refusal::Memory,
        }
    }
}

// The errors of `read_swap` and `make_schedule`.
impl From<Stopped<Broken>> for Refusal {
    ghost from_gives = { λ e r. r ≡ of_stopped e };

    fn from(e: Stopped<Broken>) -> Refusal {
        match e {
            Stopped::Broken(broken) => Refusal::Rule(broken),
            Stopped::Memory => Refusal::Memory,
        }
    }
}

// The errors of `read_sides`.
impl From<Broken> for Refusal {
    ghost from_gives = { λ e r. r ≡ OfRule e };

    fn from(e: Broken) -> Refusal {
        Refusal::Rule(e)
    }
}

impl From<CalErr> for Refusal {
    ghost from_gives = { λ e r. r ≡ OfCalendars e };

    fn from(e: CalErr) -> Refusal {
        Refusal::Calendars(e)
    }
}

impl From<FixErr> for Refusal {
    ghost from_gives = { λ e r. r ≡ OfFixings e };

    fn from(e: FixErr) -> Refusal {
        Refusal::Fixings(e)
    }
}

impl From<FlowErr> for Refusal {
    ghost from_gives = { λ e r. r ≡ OfFlows e };

    fn from(e: FlowErr) -> Refusal {
        Refusal::Flows(e)
    }
}
