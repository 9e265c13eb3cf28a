//! What a task over its files comes to: the steps that the tasks share.
ghost use Rattle.std.specs.Prelude.{◌≡◌, Some, IfOk, IfErr};
ghost use Rattle.serde_json.specs.View.{view};
ghost use Rattle.irs_base.specs.Outcomes.{MeetsExactly};
ghost use Rattle.irs_terms.specs.declared.places.Broken.{Broken as BrokenRule};
ghost use Rattle.irs_read.specs.Documents.{DocumentFault};
ghost use Rattle.irs_terms.specs.Lawful.{IsLawfulSwap};
ghost use Rattle.irs_answers.specs.Messages.{IsCauseOf, IsJudged, cause_of, reply_status, reply_text};
ghost use Rattle.irs_answers.specs.Due.{AreRead, DueFor, PassesEachStep, found_of, one_schedule_of, rates_for};
ghost use Rattle.irs_answers.specs.Due.{sides_of, facts_by, Ends, MeetsTask, RefusedBy, answer_of};
ghost use Rattle.irs_answers.specs.Private.Outcomes.{IfRefused};
ghost use Rattle.irs_answers.specs.Forms.{IsWithinLimits, files_given_by, given_with, source_by, IsOtherwise};
ghost use Rattle.irs_answers.specs.Forms.{IsPlacedRefusal, IsPlacedReply};
ghost use Rattle.irs_answers.specs.Notes.{IsNoteOf, IsRefusalNote};
ghost use Rattle.irs_answers.specs.Tasks.{IsLawfulTask};
ghost use Rattle.irs_answers.specs.declared.replies.Reply.TheVariants.{Refused};

use crate::answers::answer_by;
use crate::common::Common;
use crate::files::TaskFiles;
use crate::forms::{Source, read_document};
use crate::notes::{NotedReply, fixed_note, refusal_note};
use crate::refusals::Refusal;
use crate::tasks::Task;
use irs_base::Memory;
use irs_calendar::Calendars;
use irs_json::Value;
use irs_net::{Sides, read_sides};
use irs_read::read_swap;
use irs_resets::Fixings;
use irs_rules::check_terms;
use irs_schedule::{Schedule, make_schedule};
use irs_terms::{Broken, Swap};
use std::alloc::Global;

/// What the files of a task say, and the schedule.
#[derive(Drop)]
pub struct Found<'a> {
    /// The swap that the document spells.
    pub swap: Swap,
    /// Which party pays each stream, for a task that needs it.
    pub sides: Option<Sides>,
    /// The calendar files.
    pub calendars: &'a Calendars,
    /// The rates of the file of fixings, none where there is no file.
    pub fixings: &'a Fixings,
    /// The schedule of the swap, made with those rates where the task uses them.
    pub schedule: Schedule,
}

/// What a task over its files comes to, its status and its text, and what a sentence adds. The first step that
/// applies decides. The steps are the document, the parties where the task needs them, the calendars, the fixings and
/// the rules of the swap. The task's own step comes last. `Memory` comes where memory ran out.
pub fn reply_of(alloc: Global, task: Task, files: TaskFiles) -> Result<NotedReply, Memory>
    requires lawful { IsLawfulTask task }
    requires within { IsWithinLimits (files_given_by files) }
    ensures due { IfOk result (λ r. Ends (DueFor task (files_given_by files)) (reply_status r.reply) (reply_text r.reply)) }
    ensures cause { IfOk result (λ r. IsCauseOf task (cause_of r.reply) (reply_status r.reply) (reply_text r.reply)) }
    ensures placed { IfOk result (λ r. IsPlacedReply (files_given_by files).document (files_given_by files).flows r.reply) }
    ensures noted { IfOk result (λ r. IsNoteOf task (files_given_by files) (cause_of r.reply) r.note) }
{
    let (own, common) = files.split(alloc);
    let common = Common::read(alloc, common);
    reply_by(alloc, task, &own, &common)
}

/// What a task comes to over the document and the flows of `files`, with the calendars and the fixings that
/// were read before. It is what `reply_of` gives for all these files.
pub fn reply_by(
    alloc: Global,
    task: Task,
    files: &TaskFiles,
    common: &Common,
) -> Result<NotedReply, Memory>
    requires lawful { IsLawfulTask task }
    requires read { AreRead common.now }
    ensures due { let given = given_with files.now common.now.files in
        IfOk result (λ r. Ends (DueFor task given) (reply_status r.reply) (reply_text r.reply)) }
    ensures cause { IfOk result (λ r. IsCauseOf task (cause_of r.reply) (reply_status r.reply) (reply_text r.reply)) }
    ensures placed { IfOk result
        (λ r. IsPlacedReply (source_by files.now.document) (source_by files.now.flows) r.reply) }
    ensures noted { let given = given_with files.now common.now.files in
        IfOk result (λ r. IsNoteOf task given (cause_of r.reply) r.note) }
{
    match carry_out(alloc, task, files, common) {
        Ok(noted) => Ok(noted),
        Err(refusal) => refused_reply(alloc, &files.document, common, refusal),
    }
}

// The reply that a refusal is, and where the document breaks a rule.
fn refused_reply(
    alloc: Global,
    document: &Source,
    common: &Common,
    refusal: Refusal,
) -> Result<NotedReply, Memory>
    requires { AreRead common.now }
    ensures answer { IfOk result (λ r. answer_of refusal ≡ Some (reply_status r.reply, reply_text r.reply)) }
    ensures judged { IfOk result (λ r. IsJudged r.reply) }
    ensures refused { IfOk result (λ r. r.reply ≡ Refused refusal) }
    ensures noted { let calendars = (files_given_by common.now.files).calendars in
        IfOk result (λ r. IsRefusalNote (source_by document.now) calendars refusal r.note) }
{
    let reply = refusal.reply()?;
    let note = refusal_note(alloc, document, common, &refusal);
    Ok(NotedReply { reply, note })
}

// What a task over its files comes to, and what a sentence adds; or why it isn't carried out.
fn carry_out(
    alloc: Global,
    task: Task,
    files: &TaskFiles,
    common: &Common,
) -> Result<NotedReply, Refusal>
    requires lawful { IsLawfulTask task }
    requires read { AreRead common.now }
    ensures due { let given = given_with files.now common.now.files in
        IfOk result (λ r. Ends (DueFor task given) (reply_status r.reply) (reply_text r.reply)) }
    ensures refused { IfErr result
        (λ r. IfRefused r (Ends (DueFor task (given_with files.now common.now.files)))) }
    ensures cause { IfOk result (λ r. IsCauseOf task (cause_of r.reply) (reply_status r.reply) (reply_text r.reply)) }
    ensures placed { IfOk result
        (λ r. IsPlacedReply (source_by files.now.document) (source_by files.now.flows) r.reply) }
    ensures unread { IfErr result (λ r. IsPlacedRefusal (source_by files.now.document) (source_by files.now.flows) r) }
    ensures noted { let given = given_with files.now common.now.files in
        IfOk result (λ r. IsNoteOf task given (cause_of r.reply) r.note) }
{
    let found = find(alloc, task, files, common)?;
    let note = fixed_note(alloc, &task, &found)?;
    let reply = answer_by(alloc, &task, files, common, found)?;
    Ok(NotedReply { reply, note })
}

/// What the files of a task say, and the schedule, or the first step that fails. The steps are the
/// document, the parties where the task needs them (K8), the calendars, the fixings and the rules of the
/// swap. The document is that of `files`; the calendars and the fixings were read before.
pub fn find<'a>(
    alloc: Global,
    task: Task,
    files: &TaskFiles,
    common: &'a Common,
) -> Result<Found<'a>, Refusal>
    requires { AreRead common.now }
    ensures passes { IfOk result (λ f. PassesEachStep task (given_with files.now common.now.files) (facts_by f)) }
    ensures lawful { IfOk result (λ f. IsLawfulSwap f.swap) }
    ensures refused { IfErr result (λ r. RefusedBy (found_of task (given_with files.now common.now.files)) r) }
    ensures placed { IfErr result (λ r. IsPlacedRefusal (source_by files.now.document) (source_by files.now.flows) r) }
{
    let document = read_document(alloc, &files.document)?;
    let swap = read_swap(alloc, &document)?;
    let sides = sides_for(&task, &document)?;
    let calendars = common.calendars()?;
    let fixings = common.fixings()?;
    let schedule = schedule_for(alloc, &task, &swap, calendars, fixings)?;
    Ok(Found {
        swap,
        sides,
        calendars,
        fixings,
        schedule,
    })
}

// Which party pays each stream, for a task that needs it.
fn sides_for(task: &Task, document: &Value) -> Result<Option<Sides>, Broken>
    requires { (f : BrokenRule) → DocumentFault (view document.now) f → ⊥ }
    ensures { MeetsExactly (sides_of task.now (view document.now)) result }
{
    if task.nets() {
        Ok(Some(read_sides(document)?))
    } else {
        Ok(None)
    }
}

// The schedule for a task, with the rates of the file of fixings where it uses them.
fn schedule_for(
    alloc: Global,
    task: &Task,
    swap: &Swap,
    calendars: &Calendars,
    fixings: &Fixings,
) -> Result<Schedule, Refusal>
    requires { IsLawfulSwap swap.now }
    ensures meets { MeetsTask (one_schedule_of swap.now calendars.now (rates_for task.now fixings.now)) result }
    ensures placed { IfErr result (λ r. IsOtherwise r) }
{
    if task.uses_rates() {
        schedule_of(alloc, swap, calendars, fixings)
    } else {
        schedule_of(alloc, swap, calendars, &Fixings::none())
    }
}

/// The schedule of a swap, or the first broken rule of K10 to K39.
pub fn schedule_of(
    alloc: Global,
    swap: &Swap,
    calendars: &Calendars,
    fixings: &Fixings,
) -> Result<Schedule, Refusal>
    requires { IsLawfulSwap swap.now }
    ensures meets { MeetsTask (one_schedule_of swap.now calendars.now fixings.now) result }
    ensures placed { IfErr result (λ r. IsOtherwise r) }
{
    match check_terms(swap, calendars) {
        Some(broken) => Err(Refusal::Rule(broken)),
        None => Ok(make_schedule(alloc, swap, calendars, fixings)?),
    }
}
