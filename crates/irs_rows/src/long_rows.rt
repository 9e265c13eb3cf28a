//! Rows of commands that print much: of each kind of line how many there are, the first and the
//! last. And rows of a command over what another one prints.
use crate::commands::{ROOM, first_word, print_status, run_words, words_of};
use crate::named_files::files_of;
use anyhow::{Context, Result};
use irs_cli::{MemSink, run};

/// More bytes than such a command prints.
const MUCH_ROOM: usize = 8_000_000;

/// The lines of a kind: how many there are, the first and the last.
#[derive(Clone, Copy)]
struct Kind<'a> {
    count: u32,
    first: &'a str,
    last: &'a str,
}

impl<'a> Kind<'a> {
    // One more line.
    fn with(self, line: &'a str) -> Kind<'a> {
        Kind {
            count: self.count.saturating_add(1),
            first: if self.count == 0 { line } else { self.first },
            last: line,
        }
    }
}

// The lines that begin with a word.
fn lines_of<'a>(text: &'a str, word: &str) -> Kind<'a> {
    let mut kind = Kind {
        count: 0,
        first: "",
        last: "",
    };
    for line in text.lines() {
        if first_word(line).0 == word {
            kind = kind.with(line);
        }
    }
    kind
}

fn print_kind(rt: &HostRuntime, text: &str, word: &str) -> Result<()> {
    let Kind { count, first, last } = lines_of(text, word);
    println!(rt; "{count} of {word}")?;
    println!(rt; "{first}")?;
    println!(rt; "{last}")?;
    Ok(())
}

// Runs words over the files that they name, into a sink with much room. Returns the status.
fn run_long(rt: &HostRuntime, command: &str, out: &mut MemSink) -> Result<u8> {
    let words = words_of(rt.alloc(), command)?;
    let mut files = files_of(rt, &words)?;
    Ok(run(rt.alloc(), &words, &mut files, out))
}

/// `ends KIND,KIND WORDS`: prints the number of lines that begin with each of these words, the first
/// and the last of them, then the status.
pub fn run_ends(rt: &HostRuntime, rest: &str) -> Result<()> {
    let (kinds, command) = first_word(rest);
    let mut out = MemSink::with_room(rt.alloc(), MUCH_ROOM)?;
    let status = run_long(rt, command, &mut out)?;
    let text = str::from_utf8(out.bytes())?;
    for word in kinds.split(',') {
        print_kind(rt, text, word)?;
    }
    print_status(rt, status)
}

/// `made WORDS // WORDS`: what the first words print is the file `made` of the second ones.
pub fn run_over_made(rt: &HostRuntime, rest: &str) -> Result<()> {
    let (first, second) = rest.split_once(" // ").context("no second command")?;
    let mut made = MemSink::with_room(rt.alloc(), MUCH_ROOM)?;
    run_long(rt, first, &mut made)?;
    let words = words_of(rt.alloc(), second)?;
    let mut files = files_of(rt, &words)?;
    files.add("made", made.bytes())?;
    let mut out = MemSink::with_room(rt.alloc(), ROOM)?;
    run_words(rt, &words, &mut files, &mut out)
}
