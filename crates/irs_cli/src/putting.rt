//! Writing what the words of a run come to.
ghost use Rattle.std.specs.Prelude.{◌≡◌, ◌++◌, ◌≤◌, codes, decimal, length, OnOk, OnErr};
ghost use Rattle.irs_outside.specs.Outside.{Rose, Grew, GrewByFront};
ghost use Rattle.irs_answers.specs.Messages.{verdict_text, refusal_text, reply_text};
ghost use Rattle.irs_cli.specs.Run.{run_reply_text};

use crate::causes::RunReply;
use crate::rows::put_schedule;
use crate::{PutFailed, Sink};
use irs_answers::{Refusal, Reply, verdict_line};
use irs_audit::Verdict;
use irs_base::Line;

/// Writes the text of what the words come to, and nothing after a write that failed.
pub(crate) fn put_run_reply<S: Sink>(out: &mut S, reply: &RunReply) -> Result<(), PutFailed>
    ensures ok { OnOk result (Grew (S.written out.old) (S.written out.new) (run_reply_text reply.now)) }
    ensures quiet { OnOk result (S.faults out.new ≡ S.faults out.old) }
    ensures err { OnErr result (GrewByFront (S.written out.old) (S.written out.new) (run_reply_text reply.now)) }
    ensures rose { OnErr result (Rose (S.faults out.old) (S.faults out.new)) }
{
    match reply {
        RunReply::Replied(noted) => put_reply(out, &noted.reply),
        RunReply::BadWords => out.put(b"bad words\n"),
        RunReply::NoFile(place) => put_numbered(out, b"no file ", *place),
        RunReply::TooLong(place) => put_numbered(out, b"too long ", *place),
    }
}

// Writes the text of a reply, and nothing after a write that failed.
fn put_reply<S: Sink>(out: &mut S, reply: &Reply) -> Result<(), PutFailed>
    ensures ok { OnOk result (Grew (S.written out.old) (S.written out.new) (reply_text reply.now)) }
    ensures quiet { OnOk result (S.faults out.new ≡ S.faults out.old) }
    ensures err { OnErr result (GrewByFront (S.written out.old) (S.written out.new) (reply_text reply.now)) }
    ensures rose { OnErr result (Rose (S.faults out.old) (S.faults out.new)) }
{
    match reply {
        Reply::Text(text) => out.put(text),
        Reply::Rows(schedule) => put_schedule(out, schedule),
        Reply::Breaks(text) => out.put(text),
        Reply::Verdict(verdict) => put_verdict(out, *verdict),
        Reply::Refused(refusal) => put_refusal(out, *refusal),
    }
}

// Writes the line of a verdict.
fn put_verdict<S: Sink>(out: &mut S, verdict: Verdict) -> Result<(), PutFailed>
    ensures ok { OnOk result (Grew (S.written out.old) (S.written out.new) (verdict_text verdict)) }
    ensures quiet { OnOk result (S.faults out.new ≡ S.faults out.old) }
    ensures err { OnErr result (GrewByFront (S.written out.old) (S.written out.new) (verdict_text verdict)) }
    ensures rose { OnErr result (Rose (S.faults out.old) (S.faults out.new)) }
{
    let mut line = Line::new();
    verdict_line(verdict, &mut line);
    out.put(line.bytes())
}

// Writes the line of a refusal.
fn put_refusal<S: Sink>(out: &mut S, refusal: Refusal) -> Result<(), PutFailed>
    ensures ok { OnOk result (Grew (S.written out.old) (S.written out.new) (refusal_text refusal)) }
    ensures quiet { OnOk result (S.faults out.new ≡ S.faults out.old) }
    ensures err { OnErr result (GrewByFront (S.written out.old) (S.written out.new) (refusal_text refusal)) }
    ensures rose { OnErr result (Rose (S.faults out.old) (S.faults out.new)) }
{
    let mut line = Line::new();
    refusal.line(&mut line);
    out.put(line.bytes())
}

// Writes a line with the place of a word.
fn put_numbered<S: Sink>(out: &mut S, before: &[u8], place: u32) -> Result<(), PutFailed>
    requires { length before.now ≤ 9 }
    ensures ok { OnOk result
        (Grew (S.written out.old) (S.written out.new) (before.now ++ decimal place ++ codes "\n")) }
    ensures quiet { OnOk result (S.faults out.new ≡ S.faults out.old) }
    ensures err { OnErr result
        (GrewByFront (S.written out.old) (S.written out.new) (before.now ++ decimal place ++ codes "\n")) }
    ensures rose { OnErr result (Rose (S.faults out.old) (S.faults out.new)) }
{
    let mut line = Line::new();
    line.push(before);
    line.push_number(place);
    line.push(b"\n");
    out.put(line.bytes())
}
