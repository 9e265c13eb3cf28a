//! What the words of a run come to, and what a run comes to, for the sentence about it.
ghost use Rattle.std.specs.Prelude.{◌≡◌};
ghost use Rattle.irs_cli.specs.Run.{run_cause_of, run_status};

use irs_answers::{Cause, Note, NotedReply};
use irs_base::Status;

/// What the words come to, before anything is written. The status, the text and what a sentence says of them are
/// made from this one value.
#[derive(Drop)]
pub enum RunReply {
    /// What the request comes to over its files, with its note.
    Replied(NotedReply),
    /// The words are no listed command.
    BadWords,
    /// The file of the word at this place after the command can't be read.
    NoFile(u32),
    /// The file of the word at this place after the command is too long.
    TooLong(u32),
}

impl RunReply {
    /// What the reply says, with its note. It consumes the reply, so the text is written first.
    pub fn into_cause(self) -> RunCause
        ensures { result ≡ run_cause_of self }
    {
        match self {
            RunReply::Replied(NotedReply { reply, note }) => RunCause::Replied(reply.cause(), note),
            RunReply::BadWords => RunCause::BadWords,
            RunReply::NoFile(place) => RunCause::NoFile(place),
            RunReply::TooLong(place) => RunCause::TooLong(place),
        }
    }
}

/// What a run comes to, for the sentence about it.
#[derive(Drop)]
pub enum RunCause {
    /// The request has a reply, which says this. A sentence adds the note to it.
    Replied(Cause, Note),
    /// The words are no listed command.
    BadWords,
    /// The file of the word at this place after the command can't be read.
    NoFile(u32),
    /// A write failed.
    PutFailed,
    /// Memory ran out.
    NoMemory,
    /// The file of the word at this place after the command is too long.
    TooLong(u32),
    /// A word isn't text, and has this place where it is known. It comes where the words can't be gathered, and
    /// from no run.
    NotText(Option<u32>),
}

impl RunCause {
    /// The status.
    pub fn status(&self) -> u8
        ensures { result ≡ run_status self.now }
    {
        match self {
            RunCause::Replied(cause, _) => (*cause).status(),
            RunCause::BadWords => Status::BadWords.number(),
            RunCause::NoFile(_) => Status::NoFile.number(),
            RunCause::PutFailed => Status::PutFailed.number(),
            RunCause::NoMemory => Status::NoMemory.number(),
            RunCause::TooLong(_) => Status::TooLong.number(),
            RunCause::NotText(_) => Status::NotText.number(),
        }
    }
}
