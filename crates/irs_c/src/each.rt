//! One command over many trades.
ghost use Rattle.std.specs.Prelude.{◌≡◌, ◌++◌, List, IfOk, IfErr, IfSome, Ok, length, take, drop, map};
ghost use Rattle.irs_c.specs.Each.{AreOutcomes, Outcome, status_alone, said_by, slot_of};
ghost use Rattle.irs_c.specs.Private.Each.{AreRuns, IsCommonIn, RunFor};
ghost use Rattle.irs_cli.specs.Commands.{word_texts};

use crate::exports::{append, words_of};
use crate::given::{Bytes, File, GivenFiles, Trade};
use crate::telling::{Told, tell};
use irs_cli::{Common, read_common};
use std::alloc::Global;

/// What a trade comes to: the status, and the lengths of its text and of its sentence.
#[repr(C)]
#[derive(Clone, Copy)]
pub struct Answer {
    /// The status.
    pub status: u8,
    /// The length of the text.
    pub text: usize,
    /// The length of the sentence.
    pub sentence: usize,
}

/// What the words come to for each trade, over the common files and its own; as many as there is room for in
/// `answers`. Their texts and sentences, one after the other, are returned.
pub(crate) fn answer_each(
    alloc: Global,
    words: &[Bytes<'_>],
    common: &[File<'_>],
    trades: &[Trade<'_>],
    answers: &mut [Answer],
) -> Vec<u8>
    ensures { (os : List Outcome) × AreOutcomes words.now common.now (take (length answers.old) trades.now) os
        × (answers.new ≡ map slot_of os ++ drop (length os) answers.old) × (result.items ≡ said_by os) }
{
    let words = words_of(alloc, words);
    run_each(alloc, &words, common, trades, answers)
}

// The same for words as text, or for the status where there are none.
fn run_each(
    alloc: Global,
    words: &Result<Vec<String>, u8>,
    common: &[File<'_>],
    trades: &[Trade<'_>],
    answers: &mut [Answer],
) -> Vec<u8>
    ensures { (os : List Outcome) × AreRuns words.now common.now (take (length answers.old) trades.now) os
        × (answers.new ≡ map slot_of os ++ drop (length os) answers.old) × (result.items ≡ said_by os) }
{
    let read = common_of(alloc, words, common);
    let mut said = Vec::new(alloc);
    let mut k = 0;
    while k < trades.len() && k < answers.len() {
        answers[k] = answer_one(alloc, words, &read, common, trades[k].files, &mut said);
        k += 1;
    }
    said
}

// The common files that the words name, read once.
fn common_of(alloc: Global, words: &Result<Vec<String>, u8>, common: &[File<'_>]) -> Option<Common>
    ensures { IfSome result (λ c. IfOk words.now (λ v. IsCommonIn (word_texts v.items) common.now c)) }
{
    match words {
        Ok(words) => read_common(alloc, words, &mut GivenFiles::new(common, &[])),
        Err(_) => None,
    }
}

// What the words come to for a trade. Its text and its sentence are appended.
fn answer_one(
    alloc: Global,
    words: &Result<Vec<String>, u8>,
    read: &Option<Common>,
    common: &[File<'_>],
    own: &[File<'_>],
    said: &mut Vec<u8>,
) -> Answer
    requires { IfSome read.now (λ c. IfOk words.now (λ v. IsCommonIn (word_texts v.items) common.now c)) }
    ensures { (o : Outcome) × RunFor words.now (common.now ++ own.now) o × (result ≡ slot_of o)
        × (said.new.items ≡ said.old.items ++ (o.text ++ o.sentence)) }
{
    match outcome_of(alloc, words, read, common, own, said) {
        Ok(answer) => answer,
        Err(status) => Answer {
            status,
            text: 0,
            sentence: 0,
        },
    }
}

// The same, or the status where there is no text.
fn outcome_of(
    alloc: Global,
    words: &Result<Vec<String>, u8>,
    read: &Option<Common>,
    common: &[File<'_>],
    own: &[File<'_>],
    said: &mut Vec<u8>,
) -> Result<Answer, u8>
    requires { IfSome read.now (λ c. IfOk words.now (λ v. IsCommonIn (word_texts v.items) common.now c)) }
    ensures said { IfOk result (λ a. (o : Outcome) × RunFor words.now (common.now ++ own.now) o × (a ≡ slot_of o)
        × (said.new.items ≡ said.old.items ++ (o.text ++ o.sentence))) }
    ensures no_text { IfErr result (λ s. RunFor words.now (common.now ++ own.now) (status_alone s)
        × (said.new.items ≡ said.old.items)) }
{
    let words = match words {
        Ok(words) => words,
        Err(status) => return Err(*status),
    };
    let Told {
        status,
        mut text,
        sentence,
    } = tell(alloc, words, read.as_ref(), common, own)?;
    let answer = Answer {
        status,
        text: text.len(),
        sentence: sentence.len(),
    };
    append(&mut text, &sentence)?;
    append(said, &text)?;
    Ok(answer)
}
