//! Rows over files in memory and a sink in memory, which may have little room, or a write that
//! fails.
use crate::commands::{ROOM, first_number, run_words, words_of};
use crate::named_files::files_of;
use anyhow::Result;
use irs_cli::MemSink;

// Runs a command over the files that it names, into a sink.
fn run_into(rt: &HostRuntime, command: &str, out: &mut MemSink) -> Result<()> {
    let words = words_of(rt.alloc(), command)?;
    let mut files = files_of(rt, &words)?;
    run_words(rt, &words, &mut files, out)
}

/// `run WORDS`: the sink has room for all that the words print.
pub fn run_with_enough_room(rt: &HostRuntime, command: &str) -> Result<()> {
    let mut out = MemSink::with_room(rt.alloc(), ROOM)?;
    run_into(rt, command, &mut out)
}

/// `room COUNT WORDS`: the sink has room for COUNT bytes.
pub fn run_with_room(rt: &HostRuntime, rest: &str) -> Result<()> {
    let (room, command) = first_number(rest)?;
    let mut out = MemSink::with_room(rt.alloc(), room as usize)?;
    run_into(rt, command, &mut out)
}

/// `put N WORDS`: the N-th write fails.
pub fn run_with_put(rt: &HostRuntime, rest: &str) -> Result<()> {
    let (put, command) = first_number(rest)?;
    let mut out = MemSink::with_room(rt.alloc(), ROOM)?;
    out.fail_at(put);
    run_into(rt, command, &mut out)
}
