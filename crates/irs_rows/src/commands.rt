//! The commands of rows: their words, and what is printed of what they print.
use anyhow::{Context, Result};
use irs_cli::{Files, MemSink, run};
use std::alloc::Global;

/// More bytes than any command of a row prints.
pub const ROOM: usize = 10_000;

/// The words of a command: the texts between its spaces.
pub fn words_of(alloc: Global, command: &str) -> Result<Vec<String>> {
    let mut words = Vec::new(alloc);
    for word in command.split_whitespace() {
        words.push(String::from_str(alloc, word)?)?;
    }
    Ok(words)
}

/// The first word of a text, and what follows it.
pub fn first_word(text: &str) -> (&str, &str) {
    text.split_once(' ').unwrap_or((text, ""))
}

/// The number that a text begins with, and what follows it.
pub fn first_number(text: &str) -> Result<(u32, &str)> {
    let (number, rest) = first_word(text);
    let number = number.parse::<u32>().context("no number")?;
    Ok((number, rest))
}

/// Prints a text, and after one that ends inside a line `\` and a line's end.
pub fn print_text(rt: &HostRuntime, text: &[u8]) -> Result<()> {
    let text = str::from_utf8(text)?;
    print!(rt; "{text}")?;
    if !text.is_empty() && !text.ends_with('\n') {
        println!(rt; "\\")?;
    }
    Ok(())
}

/// Prints a status after `=`.
pub fn print_status(rt: &HostRuntime, status: u8) -> Result<()> {
    println!(rt; "= {status}")?;
    Ok(())
}

/// Runs words over files and into a sink, and prints what came into the sink, and the status.
pub fn run_words<F: Files>(
    rt: &HostRuntime,
    words: &[String],
    files: &mut F,
    out: &mut MemSink,
) -> Result<()> {
    let status = run(rt.alloc(), words, files, out);
    print_text(rt, out.bytes())?;
    print_status(rt, status)
}
