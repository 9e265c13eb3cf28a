//! Rows over files in memory where some fetches fail.
use crate::commands::{ROOM, first_word, run_words, words_of};
use crate::named_files::files_of;
use anyhow::{Context, Result};
use irs_cli::{MemFiles, MemSink};

// The files that words name, where some fetches fail: a text has their numbers, `,` between them.
fn faulty_files(rt: &HostRuntime, words: &[String], fetches: &str) -> Result<MemFiles> {
    let mut files = files_of(rt, words)?;
    for fetch in fetches.split(',') {
        files.fail_at(fetch.parse::<u32>().context("no number of a fetch")?)?;
    }
    Ok(files)
}

// Runs words over files, into a sink of its own.
fn run_over(rt: &HostRuntime, words: &[String], files: &mut MemFiles) -> Result<()> {
    let mut out = MemSink::with_room(rt.alloc(), ROOM)?;
    run_words(rt, words, files, &mut out)
}

/// `fetch N,N WORDS`: these fetches fail.
pub fn run_with_fetches(rt: &HostRuntime, rest: &str) -> Result<()> {
    let (fetches, command) = first_word(rest);
    let words = words_of(rt.alloc(), command)?;
    let mut files = faulty_files(rt, &words, fetches)?;
    run_over(rt, &words, &mut files)
}

/// `again N,N WORDS`: these fetches fail, and the words are run again over the same files.
pub fn run_again(rt: &HostRuntime, rest: &str) -> Result<()> {
    let (fetches, command) = first_word(rest);
    let words = words_of(rt.alloc(), command)?;
    let mut files = faulty_files(rt, &words, fetches)?;
    run_over(rt, &words, &mut files)?;
    run_over(rt, &words, &mut files)
}
