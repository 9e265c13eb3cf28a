//! Rows of what the program does around a command: what it says of a status, and of itself.
use crate::commands::{first_number, print_status, print_text, words_of};
use crate::named_files::files_of;
use anyhow::Result;
use irs_cli::MemSink;
use irs_main::answer;

// Prints after `!` what is said, where anything is.
fn print_said(rt: &HostRuntime, said: &[u8]) -> Result<()> {
    if !said.is_empty() {
        print!(rt; "! ")?;
        print_text(rt, said)?;
    }
    Ok(())
}

/// `answer ROOM ROOM WORDS`: standard output has room for the first number of bytes, standard error
/// for the second. Prints what standard output has, then what is said on standard error, and the
/// status.
pub fn run_answer(rt: &HostRuntime, rest: &str) -> Result<()> {
    let (out_room, rest) = first_number(rest)?;
    let (error_room, command) = first_number(rest)?;
    let words = words_of(rt.alloc(), command)?;
    let mut files = files_of(rt, &words)?;
    let mut out = MemSink::with_room(rt.alloc(), out_room as usize)?;
    let mut errors = MemSink::with_room(rt.alloc(), error_room as usize)?;
    let cause = answer(rt.alloc(), &words, &mut files, &mut out, &mut errors);
    print_text(rt, out.bytes())?;
    print_said(rt, errors.bytes())?;
    print_status(rt, cause.status())
}
