//! Rows in which a file is cut at each of its places.
use crate::commands::{ROOM, first_word, print_status, print_text, words_of};
use crate::named_files::{file_of, files_of};
use anyhow::{Context, Result};
use irs_cli::{MemFiles, MemSink, run};
use std::alloc::Global;

/// The status of a command, and what it prints.
#[derive(Drop, PartialEq, Eq)]
struct Answer {
    status: u8,
    text: Vec<u8>,
}

// What words answer over files; the file of that name has these bytes.
fn answer_of(
    alloc: Global,
    words: &[String],
    files: &mut MemFiles,
    name: &str,
    bytes: &[u8],
) -> Result<Answer> {
    files.add(name, bytes)?;
    let mut out = MemSink::with_room(alloc, ROOM)?;
    let status = run(alloc, words, files, &mut out);
    let text = Vec::from_slice(alloc, out.bytes())?;
    Ok(Answer { status, text })
}

// How many of the fronts of a text, from the empty one on, give the same answer as the empty one; and
// that answer.
fn alike_fronts(
    rt: &HostRuntime,
    words: &[String],
    name: &str,
    text: &[u8],
) -> Result<(u32, Answer)> {
    let mut files = files_of(rt, words)?;
    let first = answer_of(rt.alloc(), words, &mut files, name, b"")?;
    let mut alike = 0u32;
    for end in 0..text.len() {
        if answer_of(rt.alloc(), words, &mut files, name, &text[..end])? == first {
            alike = alike.saturating_add(1);
        }
    }
    Ok((alike, first))
}

/// `cuts NAME WORDS`: the file is cut at each place before its last byte that is no white space. Prints
/// the answer where nothing is left, and how many cuts give that answer.
pub fn run_cuts(rt: &HostRuntime, rest: &str) -> Result<()> {
    let (name, command) = first_word(rest);
    let words = words_of(rt.alloc(), command)?;
    let file = file_of(rt, name)?.context("no file is cut")?;
    let text = str::from_utf8(&file)?.trim_end();
    let (alike, first) = alike_fronts(rt, &words, name, text.as_bytes())?;
    print_text(rt, &first.text)?;
    print_status(rt, first.status)?;
    println!(rt; "{alike} of {} cuts", text.len())?;
    Ok(())
}
