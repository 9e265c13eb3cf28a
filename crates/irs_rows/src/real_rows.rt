//! Rows over the real files.
use crate::commands::{ROOM, first_number, first_word, print_status, run_words, words_of};
use crate::named_files::spaces;
use anyhow::Result;
use irs_cli::{MemSink, RealFiles, RealSink, run};
use std::fs;

/// Runs the words of a row into the real standard output, and prints the status.
pub fn run_real_row(rt: &HostRuntime, row: &str) -> Result<()> {
    let words = words_of(rt.alloc(), row)?;
    let mut files = RealFiles::new(rt);
    let mut out = RealSink::new(rt);
    let status = run(rt.alloc(), &words, &mut files, &mut out);
    print_status(rt, status)
}

/// `real NAME COUNT WORDS`: the words are run while a real file of COUNT spaces has the name.
pub fn run_beside_spaces(rt: &HostRuntime, rest: &str) -> Result<()> {
    let (name, rest) = first_word(rest);
    let (count, command) = first_number(rest)?;
    let words = words_of(rt.alloc(), command)?;
    let mut files = RealFiles::new(rt);
    let mut out = MemSink::with_room(rt.alloc(), ROOM)?;
    fs::write(rt, name, spaces(rt.alloc(), count)?.as_slice())?;
    run_words(rt, &words, &mut files, &mut out)?;
    fs::remove_file(rt, name)?;
    Ok(())
}
