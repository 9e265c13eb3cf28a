//! What a sentence adds to what a reply says. It is which payments have no amount, where in its text a document
//! breaks a rule, or how a text begins that isn't JSON. That it is said is our rule.
ghost use Rattle.std.specs.Prelude.{◌≡◌, IfOk};
ghost use Rattle.irs_audit.specs.Verdicts.{unfixed_count};
ghost use Rattle.irs_unfixed.specs.Unfixed.{payment_count, IsMadeFrom, made_from, missing_fixing, missing_place};
ghost use Rattle.irs_answers.specs.Due.{AreRead, facts_by};
ghost use Rattle.irs_answers.specs.Forms.{source_by, files_given_by};
ghost use Rattle.irs_answers.specs.Notes.{IsAmountsNote, IsFixedNote, IsRefusalNote, IsUnreadNote, unfixed_fixing};
ghost use Rattle.irs_answers.specs.Notes.{front_note as front_note_of, made_by, unfixed_place};

use crate::common::Common;
use crate::due::Found;
use crate::forms::{Source, Unread};
use crate::fronts::{Front, front_of};
use crate::refusals::Refusal;
use crate::replies::Reply;
use crate::spots::{Spot, spot_of};
use crate::tasks::Task;
use irs_base::{Day, Memory, Text};
use irs_schedule::Schedule;
use irs_terms::Frequency;
use irs_unfixed::{Missing, first_missing, payment_count, unfixed_count};
use std::alloc::Global;

/// The payments of a schedule that have no amount, as a fixing is missing, and the first of them.
#[derive(Drop)]
pub struct Unfixed {
    /// How many payments have no amount.
    pub count: u32,
    /// How many payments there are.
    pub payments: u32,
    /// The number of the first one's stream, from 1.
    pub stream: u8,
    /// Its number in that stream, from 1.
    pub payment: u32,
    /// The index of the fixing that it lacks (FpML `floatingRateIndex`).
    pub index: Text,
    /// The tenor of that fixing, where it has one (FpML `indexTenor`); of a daily rate 1D.
    pub tenor: Option<Frequency>,
    /// The day on which the rate is fixed.
    pub day: Day,
}

/// What a sentence adds to what a reply says.
#[derive(Drop)]
pub enum Note {
    /// Nothing.
    Nothing,
    /// Payments have no amount.
    Unfixed(Unfixed),
    /// Where the document breaks a rule.
    Spot(Spot),
    /// How the text of a document that isn't JSON begins.
    Front(Front),
}

/// What a task comes to, and what a sentence adds to it.
#[derive(Drop)]
pub struct NotedReply {
    /// What a task comes to.
    pub reply: Reply,
    /// What a sentence adds.
    pub note: Note,
}

// ---- payments without an amount

/// What a sentence adds where no rule is broken: the payments that have no amount, for a task that states amounts.
/// `Memory` comes where memory ran out.
pub(crate) fn fixed_note(alloc: Global, task: &Task, found: &Found<'_>) -> Result<Note, Memory>
    requires { IsMadeFrom (made_by task.now (facts_by found.now)) found.now.schedule }
    ensures { IfOk result (IsFixedNote task.now (facts_by found.now)) }
{
    if task.states_amounts() {
        amounts_note(alloc, found)
    } else {
        Ok(Note::Nothing)
    }
}

// The payments of the schedule that have no amount, and the first of them.
fn amounts_note(alloc: Global, found: &Found<'_>) -> Result<Note, Memory>
    requires { let x = made_from found.now.swap found.now.calendars.now found.now.fixings.now in
        IsMadeFrom x found.now.schedule }
    ensures { let x = made_from found.now.swap found.now.calendars.now found.now.fixings.now in
        IfOk result (IsAmountsNote x found.now.schedule) }
{
    let schedule = &found.schedule;
    match first_missing(alloc, &found.swap, found.calendars, found.fixings, schedule) {
        Ok(Some(missing)) => Ok(Note::Unfixed(counted(alloc, schedule, &missing)?)),
        Ok(None) => Ok(Note::Nothing),
        Err(Memory) => Err(Memory),
    }
}

// The first payment without an amount, with the counts of the schedule's payments.
fn counted(alloc: Global, schedule: &Schedule, missing: &Missing<'_>) -> Result<Unfixed, Memory>
    ensures count { IfOk result (λ u. u.count ≡ unfixed_count schedule.now) }
    ensures payments { IfOk result (λ u. u.payments ≡ payment_count schedule.now) }
    ensures place { IfOk result (λ u. unfixed_place u ≡ missing_place missing.now) }
    ensures fixing { IfOk result (λ u. unfixed_fixing u ≡ missing_fixing missing.now) }
{
    let index = missing.index.copy(alloc)?;
    Ok(Unfixed {
        count: unfixed_count(schedule),
        payments: payment_count(schedule),
        stream: missing.stream,
        payment: missing.payment,
        index,
        tenor: missing.tenor,
        day: missing.day,
    })
}

// ---- a broken rule

/// What a sentence adds to a refusal: where the document breaks a rule, or how its text begins. The calendar
/// files were read before.
pub(crate) fn refusal_note(
    alloc: Global,
    document: &Source,
    common: &Common,
    refusal: &Refusal,
) -> Note
    requires { AreRead common.now }
    ensures { IsRefusalNote (source_by document.now) (files_given_by common.now.files).calendars refusal.now result }
{
    match refusal {
        Refusal::Unreadable(unread) => unread_note(document, *unread),
        Refusal::Rule(broken) => Note::Spot(spot_of(alloc, document, common, broken)),
        Refusal::Calendars(_) => Note::Nothing,
        Refusal::Fixings(_) => Note::Nothing,
        Refusal::UnreadableFlows(_) => Note::Nothing,
        Refusal::Flows(_) => Note::Nothing,
        Refusal::Memory => Note::Nothing,
    }
}

// What is added where the document has no reading.
fn unread_note(document: &Source, unread: Unread) -> Note
    ensures { IsUnreadNote (source_by document.now) unread result }
{
    match unread {
        Unread::Json { .. } => front_note(front_of(&document.bytes)),
        Unread::Xml { .. } => Note::Nothing,
    }
}

// How a text begins, where that shows why it isn't JSON.
fn front_note(front: Option<Front>) -> Note
    ensures { result ≡ front_note_of front }
{
    match front {
        None => Note::Nothing,
        Some(front) => Note::Front(front),
    }
}
