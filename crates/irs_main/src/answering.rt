//! What the program does around a run. It prints its texts about itself, and says what a run came to that
//! isn't done.
//!
//! Words, texts and statuses are our rule.
ghost use Rattle.std.specs.Prelude.{◌≡◌, ℕ, ◌<◌, List, true, false, map, option_map, IsSome, OnOk, OnErr};
ghost use Rattle.irs_outside.specs.Outside.{Grew, GrewByFront, Rose};
ghost use Rattle.irs_main.specs.Sentences.{is_silent as is_silent_of};
ghost use Rattle.irs_main.specs.Shown.{shown};
ghost use Rattle.irs_cli.specs.Commands.{word_texts};
ghost use Rattle.irs_cli.specs.Run.{run_status, source, written};
ghost use Rattle.irs_main.specs.Answering.{CameTo, Explained, Printed, explanation_of, itself_of};
ghost use Rattle.irs_main.specs.Private.Answering.{SaysNoWord};

use crate::help::{COMMANDS, HELP, VERSION};
use crate::pieces::put_lines;
use crate::sentences::{is_silent, put_sentence};
use crate::shown::shown_words;
use irs_cli::{Cause, Files, Note, PutFailed, RunCause, Sink, Status, cause_of_run};
use std::alloc::Global;

/// Answers the words: prints what they ask for, and says on `errors` what that means. It returns what the words
/// came to, whose status is the exit status.
///
/// For the single word `--help` or `--version` it prints its text, and the status is 0, or 6 where a write
/// failed. All other words are run, as `run` says, once their shown form is made. Where memory runs out for
/// that, the status is 7. What the run came to goes to `errors` as a line, with each word as `shown_words` shows
/// it, unless there is nothing to say. For words that are no listed command, the listed commands follow, a line
/// each. Nothing is written to `errors` after a write that failed.
pub fn answer<F: Files, S: Sink, E: Sink>(
    alloc: Global,
    words: &[String],
    files: &mut F,
    out: &mut S,
    errors: &mut E,
) -> RunCause
    // The statuses are 0 to 8, and what is known of the files is the same afterwards.
    ensures listed { run_status result < 9 }
    ensures told { (n : List ℕ) → F.told files.new n ≡ F.told files.old n }
    // The text that the words ask for about the program itself was printed, or else they were run.
    ensures came { let files = source (F.told files.old) (F.gives files.old) (F.failed files.new) (F.faults files.old)
        (F.faults files.new) in
        let out = written (S.written out.old) (S.written out.new) (S.faults out.old) (S.faults out.new) in
        CameTo (itself_of HELP.now VERSION.now (word_texts words.now)) (word_texts words.now) files out result }
    // No file is fetched for such a text.
    ensures unread { IsSome (itself_of HELP.now VERSION.now (word_texts words.now)) → files.new ≡ files.old }
    // What the words came to is said with the words as they are shown, or nothing is, where all is done.
    ensures said { let text = explanation_of (map shown (word_texts words.now)) result in
        Explained text (E.written errors.old) (E.written errors.new) (E.faults errors.old) (E.faults errors.new) }
    ensures silent { is_silent_of result ≡ true → errors.new ≡ errors.old }
{
    match about_itself(words) {
        Some(text) => {
            let cause = print(out, text);
            explain(errors, &[], &cause);
            cause
        }
        None => match shown_words(alloc, words) {
            Ok(shown) => {
                let cause = cause_of_run(alloc, words, None, files, out);
                explain(errors, &shown, &cause);
                cause
            }
            Err(_) => {
                explain(errors, &[], &RunCause::NoMemory);
                RunCause::NoMemory
            }
        },
    }
}

// What the program says of itself, where its one word asks for that.
fn about_itself(words: &[String]) -> Option<&'static str>
    ensures { option_map (λ t. t.now) result ≡ itself_of HELP.now VERSION.now (word_texts words.now) }
{
    let [word] = words else {
        return None;
    };
    if word.as_str() == "--help" {
        Some(HELP)
    } else if word.as_str() == "--version" {
        Some(VERSION)
    } else {
        None
    }
}

// Prints a text, and returns what that came to.
fn print<S: Sink>(out: &mut S, text: &str) -> RunCause
    ensures printed { Printed text.now (S.written out.old) (S.written out.new) (S.faults out.old) (S.faults out.new)
        (run_status result) }
    ensures plain { SaysNoWord result }
{
    match out.put(text.as_bytes()) {
        Ok(()) => RunCause::Replied(Cause::Done, Note::Nothing),
        Err(_) => RunCause::PutFailed,
    }
}

/// Says what the words came to, as far as `errors` takes it.
pub(crate) fn explain<E: Sink>(errors: &mut E, words: &[String], cause: &RunCause)
    ensures said { Explained (explanation_of (word_texts words.now) cause.now)
        (E.written errors.old) (E.written errors.new) (E.faults errors.old) (E.faults errors.new) }
    ensures silent { is_silent_of cause.now ≡ true → errors.new ≡ errors.old }
{
    if !is_silent(cause) {
        // A standard error that can't be written changes no answer.
        let _ = tell(errors, words, cause);
    }
}

// Writes the sentence on what the words came to and, where they are no listed command, the listed ones.
fn tell<E: Sink>(errors: &mut E, words: &[String], cause: &RunCause) -> Result<(), PutFailed>
    requires { is_silent_of cause.now ≡ false }
    ensures ok { OnOk result (Grew (E.written errors.old) (E.written errors.new)
        (explanation_of (word_texts words.now) cause.now)) }
    ensures quiet { OnOk result (E.faults errors.new ≡ E.faults errors.old) }
    ensures err { OnErr result (GrewByFront (E.written errors.old) (E.written errors.new)
        (explanation_of (word_texts words.now) cause.now)) }
    ensures rose { OnErr result (Rose (E.faults errors.old) (E.faults errors.new)) }
{
    put_sentence(errors, words, cause)?;
    errors.put(b"\n")?;
    if cause.status() == Status::BadWords.number() {
        put_lines(errors, &COMMANDS)?;
    }
    Ok(())
}
