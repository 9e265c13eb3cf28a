//! The functions that C calls. Their form is our rule; `bindings/irs.h` declares them in C.
ghost use Rattle.std.specs.Prelude.{◌≡◌, ◌≢◌, ◌⊎◌, ◌<◌, ◌++◌, length, take, drop, OnOk, OnErr, IfOk, IfErr};
ghost use Rattle.irs_cli.specs.Commands.{word_texts};
ghost use Rattle.irs_cli.specs.Run.{IsOneAnswer};
ghost use Rattle.irs_cli.specs.Given.{TellsAll};
ghost use Rattle.irs_c.specs.Each.{IsOutcome, IsRun, Outcome, SaysOfTrades, words_in, file_in, AreText, Shown};
ghost use Rattle.irs_c.specs.Private.Each.{outcome_by};

use crate::each::{Answer, answer_each};
use crate::given::{Bytes, File, Trade};
use crate::telling::{Told, tell};
use irs_base::Status;
use irs_main::VERSION;
use std::alloc::Global;

/// Runs a command of the program over lent words and files, and returns its status. 0: done. 1: the
/// flows don't agree. 2: a rule is broken. 3: a calendar, fixing or flow file is outside its
/// grammar or limits. 4: the words are no listed command. 5: a file that the words name isn't lent.
/// 7: out of memory. 8: a file is too long. 9: a word isn't UTF-8. Status 6 never comes.
///
/// The text that the program would print goes to `out` as far as it has room, and its length to
/// `needed`. The sentence that says what the text means goes to `said` in the same way, and its length to
/// `said_needed`. Where a length is more than there is room for, a second call with that much room gives all.
/// At 7 and 9 there is no text and no sentence. The call keeps nothing for the next one.
///
/// The sentence is one line without its end. It has each word as `shown_words` of irs_main shows it, without
/// controls. It is empty where there is nothing to say: at 0, unless payments have no amount as a fixing is missing.
#[unsafe(no_mangle)]
pub extern "C" fn irs_run(
    alloc: Global,
    words: &[Bytes<'_>],
    files: &[File<'_>],
    out: &mut [u8],
    needed: &mut usize,
    said: &mut [u8],
    said_needed: &mut usize,
) -> u8
    // What the words come to over the lent files: its status, and what a caller sees of its text and its sentence.
    ensures run { (o : Outcome) × IsOutcome words.now files.now o × (result ≡ o.status)
        × Shown out.old out.new needed.new o.text × Shown said.old said.new said_needed.new o.sentence }
    // Where every file that the words name is lent, one status and one text are due.
    ensures one { TellsAll (words_in words.now) (file_in files.now)
        → IsOneAnswer (words_in words.now) (file_in files.now) }
{
    match told_for(alloc, words, files) {
        Ok(told) => {
            show_text(&told, out, needed);
            show_sentence(&told, said, said_needed);
            told.status
        }
        Err(status) => {
            *needed = 0;
            *said_needed = 0;
            status
        }
    }
}

/// Runs one command for each of many trades: over the common files, and after them the trade's own. What a
/// trade comes to is what `irs_run` gives for these files: the status, the text and the sentence. The fixings
/// and the calendars that the words name are read once, if all of them are common.
///
/// As many trades are run as `answers` has room for. The texts and the sentences go to `out`, as far as it has
/// room: of each trade the text and then the sentence. The length of all goes to `needed`. A trade with 7 or 9
/// has no text and no sentence.
#[unsafe(no_mangle)]
pub extern "C" fn irs_run_each(
    alloc: Global,
    words: &[Bytes<'_>],
    common: &[File<'_>],
    trades: &[Trade<'_>],
    answers: &mut [Answer],
    out: &mut [u8],
    needed: &mut usize,
)
    ensures { SaysOfTrades words.now common.now trades.now answers.old answers.new out.old out.new needed.new }
{
    let said = answer_each(alloc, words, common, trades, answers);
    fill(&said, out, needed);
}

/// Writes what `irs --version` prints: the versions of the program and of the schedule text, and the logic
/// sum of the kit that proves it.
///
/// The text goes to `out` as far as it has room, and its length to `needed`, as the text of `irs_run` does.
#[unsafe(no_mangle)]
pub extern "C" fn irs_version(out: &mut [u8], needed: &mut usize)
    ensures { Shown out.old out.new needed.new VERSION.now }
{
    fill(VERSION.as_bytes(), out, needed);
}

// Appends a part, or returns 7 where memory ran out.
pub(crate) fn append(text: &mut Vec<u8>, part: &[u8]) -> Result<(), u8>
    ensures text { OnOk result (text.new.items ≡ text.old.items ++ part.now) }
    ensures same { OnErr result (text.new.items ≡ text.old.items) }
    ensures err { IfErr result (λ s. s ≡ 7) }
{
    match text.extend_from_slice(part) {
        Ok(()) => Ok(()),
        Err(_) => Err(Status::NoMemory.number()),
    }
}

// What the run comes to, or the status alone where there is no text: 7 or 9.
fn told_for(alloc: Global, words: &[Bytes<'_>], files: &[File<'_>]) -> Result<Told, u8>
    ensures run { IfOk result (λ t. IsRun (words_in words.now) files.now (outcome_by t)) }
    ensures ok { IfOk result (λ t. (t.status < 9) × (t.status ≢ 6) × (t.status ≢ 7)) }
    ensures text { IfOk result (λ _. AreText words.now) }
    ensures not_text { IfErr result (λ s. s ≡ 9 → AreText words.now → ⊥) }
    ensures err { IfErr result (λ s. (s ≡ 7) ⊎ (s ≡ 9)) }
{
    let words = words_of(alloc, words)?;
    tell(alloc, &words, None, files, &[])
}

// The words as text, or 9 where one isn't UTF-8, or 7 where memory ran out.
pub(crate) fn words_of(alloc: Global, words: &[Bytes<'_>]) -> Result<Vec<String>, u8>
    ensures ok { IfOk result (λ v. word_texts v.items ≡ words_in words.now) }
    ensures text { IfOk result (λ _. AreText words.now) }
    ensures not_text { IfErr result (λ s. s ≡ 9 → AreText words.now → ⊥) }
    ensures err { IfErr result (λ s. (s ≡ 7) ⊎ (s ≡ 9)) }
{
    let mut made = Vec::new(alloc);
    for word in words {
        let Ok(word) = str::from_utf8(word.at) else {
            return Err(Status::NotText.number());
        };
        let Ok(word) = String::from_str(alloc, word) else {
            return Err(Status::NoMemory.number());
        };
        if made.push(word).is_err() {
            return Err(Status::NoMemory.number());
        }
    }
    Ok(made)
}

// Shows a caller the text of a run.
fn show_text(told: &Told, out: &mut [u8], needed: &mut usize)
    ensures { Shown out.old out.new needed.new told.now.text.items }
{
    fill(&told.text, out, needed);
}

// Shows a caller the sentence of a run.
fn show_sentence(told: &Told, said: &mut [u8], needed: &mut usize)
    ensures { Shown said.old said.new needed.new told.now.sentence.items }
{
    fill(&told.sentence, said, needed);
}

// Copies the front of a text that fits, and sets its length.
fn fill(text: &[u8], out: &mut [u8], needed: &mut usize)
    ensures { Shown out.old out.new needed.new text.now }
{
    show(text, out);
    *needed = text.len();
}

// Copies the front of the text that fits.
fn show(text: &[u8], out: &mut [u8])
    ensures { out.new ≡ take (length out.old) text.now ++ drop (length text.now) out.old }
{
    let n = text.len().min(out.len());
    out[..n].copy_from_slice(&text[..n]);
}
