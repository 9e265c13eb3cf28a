//! The rows of sentences. Each has a status, the words of a command line and the line that the
//! program wrote, and says the sentence for them.
use crate::causes::cause_of;
use crate::told::Told;
use crate::words::words_of;
use irs_cli::RunCause;
use irs_main::put_sentence;
use irs_outside::MemSink;
use std::alloc::Global;

/// The most bytes of a sentence of the rows.
const ROOM: usize = 512;

/// Reports the sentence for a status, the words of a command and a line, `|` between the two; `none` where it is
/// empty.
pub fn tell_sentence(told: &mut Told, alloc: Global, kind: &str, given: &str) -> Option<()> {
    let status = kind.strip_prefix("status ")?.parse::<u8>().ok()?;
    let (words, line) = given.split_once(" | ")?;
    let words = words_of(alloc, words)?;
    tell_line(told, alloc, &words, status, line)
}

// Reports the sentence for the words of a command, its status and its line.
fn tell_line(
    told: &mut Told,
    alloc: Global,
    words: &[String],
    status: u8,
    line: &str,
) -> Option<()> {
    match cause_of(status, line) {
        Some(cause) => tell_of(told, alloc, words, &cause),
        None => None,
    }
}

// Reports the sentence for the words of a command and what its run came to.
fn tell_of(told: &mut Told, alloc: Global, words: &[String], cause: &RunCause) -> Option<()> {
    let mut said = MemSink::with_room(alloc, ROOM).ok()?;
    put_sentence(&mut said, words, cause).ok()?;
    if said.bytes().is_empty() {
        told.text("none");
    } else {
        told.bytes(said.bytes());
    }
    Some(())
}
