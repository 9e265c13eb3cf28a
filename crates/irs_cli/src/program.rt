//! The top call: `run` prints what its words ask for, and returns the status.
//!
//! No standard has these words, texts and statuses, so they are our rule. All memory is taken before the
//! first write.
ghost use Rattle.std.specs.Prelude.{◌≡◌, ℕ, List, IfOk, IfSome};
ghost use Rattle.irs_cli.specs.Commands.{word_texts};
ghost use Rattle.irs_answers.specs.Due.{AreRead, Ends};
ghost use Rattle.irs_answers.specs.Forms.{IsWithinLimits, files_given_by, given_with};
ghost use Rattle.irs_answers.specs.Messages.{reply_status, reply_text, cause_of};
ghost use Rattle.irs_answers.specs.declared.notes.Note.TheVariants.{Nothing};
ghost use Rattle.irs_cli.specs.Run.{IsCauseFor, IsCauseOfWritten, IsNotedFor, IsReplyCause, IsRunCause, run_cause_of};
ghost use Rattle.irs_cli.specs.Run.{run_reply_status, run_reply_text, run_status, DueOf, Ran, Replies, source, written};
ghost use Rattle.irs_cli.specs.Private.Fetching.{IsLawfulRequest, IfRunAnswered};
ghost use Rattle.irs_cli.specs.Given.{IsCommon};

use crate::causes::{RunCause, RunReply};
use crate::commands::{Request, command_of};
use crate::fetching::fetch_all;
use crate::putting::put_run_reply;
use crate::refusals::Refusal;
use crate::sharing::names_with;
use crate::{Files, Sink};
use irs_answers::{Common, Note, NotedReply, Reply, TaskFiles, carrier, reply_by, reply_of};
use irs_base::Memory;
use irs_bulk::bulk;
use std::alloc::Global;

/// Prints what the words ask for, and returns the status. 0: done. 1: the flows don't agree. 2: a rule is
/// broken. 3: a calendar, fixing or flow file is outside its grammar or limits. 4: the words are no listed
/// command. 5: a file can't be read. 6: a write failed. 7: out of memory. 8: a file is too long.
///
/// The commands over files are `check DOC CAL..`, `schedule DOC FIX CAL..`, `audit DOC FIX FLOWS CAL..`,
/// `breaks FROM DOC FIX FLOWS CAL..`, `emit DOC FIX CAL..`, `emit-xml DOC FIX CAL..`,
/// `accrue DATE DOC FIX CAL..`, `net DOC FIX CAL..`, `observations STREAM DOC FIX CAL..`,
/// `overnight STREAM DOC DAILY CAL..`, `average STREAM KIND STEP DOC FIX CAL..` and
/// `interpolate STREAM SIDE LOW HIGH DOC FIX CAL..`. Each takes 0 to 16 calendars, and `-` as FIX or DAILY
/// means no fixings. All files are fetched first, in the order of the words; the flows are read when no rule
/// is broken. `bulk N`, with N from 1 to 500, names no file. `carrier DOC` prints the value of a document in
/// XML as JSON; its name ends in `.xml`. Every DOC and FLOWS with such a name is read as XML, any other as
/// JSON.
pub fn run<F: Files, S: Sink>(alloc: Global, words: &[String], files: &mut F, out: &mut S) -> u8
    // What the source states of its files is the same afterwards.
    ensures told { (n : List ℕ) → F.told files.new n ≡ F.told files.old n }
    ensures ran { let source = source (F.told files.old) (F.gives files.old) (F.failed files.new) (F.faults files.old)
        (F.faults files.new) in
        let written = written (S.written out.old) (S.written out.new) (S.faults out.old) (S.faults out.new) in
        Ran (word_texts words.now) source written result }
{
    run_with(alloc, words, None, files, out)
}

/// Does what `run` does. Common files are the fixings and the calendars that the words name, as the source has
/// them. Where there are any, they were read before, and aren't fetched again.
pub fn run_with<F: Files, S: Sink>(
    alloc: Global,
    words: &[String],
    common: Option<&Common>,
    files: &mut F,
    out: &mut S,
) -> u8
    requires { IfSome common (λ c. IsCommon (word_texts words.now) (F.told files.old) (F.gives files.old) c.now) }
    ensures told { (n : List ℕ) → F.told files.new n ≡ F.told files.old n }
    ensures ran { let source = source (F.told files.old) (F.gives files.old) (F.failed files.new) (F.faults files.old)
        (F.faults files.new) in
        let written = written (S.written out.old) (S.written out.new) (S.faults out.old) (S.faults out.new) in
        Ran (word_texts words.now) source written result }
{
    let cause = cause_of_run(alloc, words, common, files, out);
    cause.status()
}

/// Does what `run_with` does, and returns what the run comes to, with the note of its reply. A sentence about the
/// run says that. Its status is that of the run.
pub fn cause_of_run<F: Files, S: Sink>(
    alloc: Global,
    words: &[String],
    common: Option<&Common>,
    files: &mut F,
    out: &mut S,
) -> RunCause
    requires { IfSome common (λ c. IsCommon (word_texts words.now) (F.told files.old) (F.gives files.old) c.now) }
    ensures told { (n : List ℕ) → F.told files.new n ≡ F.told files.old n }
    ensures ran { let source = source (F.told files.old) (F.gives files.old) (F.failed files.new) (F.faults files.old)
        (F.faults files.new) in
        let written = written (S.written out.old) (S.written out.new) (S.faults out.old) (S.faults out.new) in
        Ran (word_texts words.now) source written (run_status result) }
    // It is that of the text that was written, and its note is that for the files as the fetches gave them.
    ensures cause { IsCauseOfWritten (word_texts words.now) (F.gives files.old) result (S.written out.old)
        (S.written out.new) }
{
    match reply_for(alloc, words, common, files) {
        Ok(reply) => match put_run_reply(out, &reply) {
            Ok(()) => reply.into_cause(),
            Err(_) => RunCause::PutFailed,
        },
        Err(Memory) => RunCause::NoMemory,
    }
}

/// What the words come to, before anything is written. It is the reply that is to be written, and what a sentence
/// says of it, with its note. `Memory` comes where memory ran out.
pub fn reply_for<F: Files>(
    alloc: Global,
    words: &[String],
    common: Option<&Common>,
    files: &mut F,
) -> Result<RunReply, Memory>
    requires { IfSome common (λ c. IsCommon (word_texts words.now) (F.told files.old) (F.gives files.old) c.now) }
    ensures told { (n : List ℕ) → F.told files.new n ≡ F.told files.old n }
    ensures replies { IfOk result
        (λ r. Replies (word_texts words.now) (source (F.told files.old) (F.gives files.old) (F.failed files.new)
        (F.faults files.old) (F.faults files.new)) (run_reply_status r) (run_reply_text r)) }
    ensures cause { IfOk result
        (λ r. IsRunCause (word_texts words.now) (F.gives files.old) (run_cause_of r) (run_reply_status r)
        (run_reply_text r)) }
{
    match carry_out(alloc, words, common, files) {
        Ok(noted) => Ok(RunReply::Replied(noted)),
        Err(refusal) => refusal.reply(),
    }
}

// What the command of the words comes to, or why it isn't carried out over its files.
fn carry_out<F: Files>(
    alloc: Global,
    words: &[String],
    common: Option<&Common>,
    files: &mut F,
) -> Result<NotedReply, Refusal>
    requires { IfSome common (λ c. IsCommon (word_texts words.now) (F.told files.old) (F.gives files.old) c.now) }
    ensures told { (n : List ℕ) → F.told files.new n ≡ F.told files.old n }
    ensures answered { IfRunAnswered result
        (Replies (word_texts words.now) (source (F.told files.old) (F.gives files.old) (F.failed files.new)
        (F.faults files.old) (F.faults files.new))) }
    ensures cause { IfOk result
        (λ r. IsReplyCause (word_texts words.now) (F.gives files.old) (cause_of r.reply) r.note (reply_status r.reply)
        (reply_text r.reply)) }
{
    let Some(command) = command_of(alloc, words)? else {
        return Err(Refusal::BadWords);
    };
    match common {
        None => {
            let fetched = fetch_all(alloc, &command.files, files)?;
            Ok(reply_to(alloc, command.request, fetched)?)
        }
        Some(common) => {
            let own = names_with(alloc, &command.files, true)?;
            let fetched = fetch_all(alloc, &own, files)?;
            Ok(reply_with(alloc, command.request, &fetched, common)?)
        }
    }
}

// What a request over its files comes to.
fn reply_to(alloc: Global, request: Request, files: TaskFiles) -> Result<NotedReply, Memory>
    requires lawful { IsLawfulRequest request }
    requires within { IsWithinLimits (files_given_by files) }
    ensures due { IfOk result
        (λ r. Ends (DueOf request (files_given_by files)) (reply_status r.reply) (reply_text r.reply)) }
    ensures cause { IfOk result
        (λ r. IsCauseFor request (cause_of r.reply) (reply_status r.reply) (reply_text r.reply)) }
    ensures noted { IfOk result (λ r. IsNotedFor request (files_given_by files) (cause_of r.reply) r.note) }
{
    match request {
        Request::OverFiles(task) => reply_of(alloc, task, files),
        Request::Bulk(count) => Ok(without_note(bulk(alloc, count)?)),
        Request::Carrier => Ok(without_note(carrier(alloc, &files.document.bytes)?)),
    }
}

// What a request comes to over a document and flows, and over what was read before.
fn reply_with(
    alloc: Global,
    request: Request,
    files: &TaskFiles,
    common: &Common,
) -> Result<NotedReply, Memory>
    requires lawful { IsLawfulRequest request }
    requires read { AreRead common.now }
    ensures due { let given = given_with files.now common.now.files in
        IfOk result (λ r. Ends (DueOf request given) (reply_status r.reply) (reply_text r.reply)) }
    ensures cause { IfOk result
        (λ r. IsCauseFor request (cause_of r.reply) (reply_status r.reply) (reply_text r.reply)) }
    ensures noted { let given = given_with files.now common.now.files in
        IfOk result (λ r. IsNotedFor request given (cause_of r.reply) r.note) }
{
    match request {
        Request::OverFiles(task) => reply_by(alloc, task, files, common),
        Request::Bulk(count) => Ok(without_note(bulk(alloc, count)?)),
        Request::Carrier => Ok(without_note(carrier(alloc, &files.document.bytes)?)),
    }
}

// A reply with an empty note.
fn without_note(reply: Reply) -> NotedReply
    ensures reply { result.reply ≡ reply }
    ensures note { result.note ≡ Nothing }
{
    NotedReply {
        reply,
        note: Note::Nothing,
    }
}
