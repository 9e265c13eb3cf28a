//! What a run comes to, as a caller sees it: the status, the text and the sentence.
ghost use Rattle.std.specs.Prelude.{◌≡◌, ◌≢◌, ◌<◌, ◌++◌, map, IfOk, IfErr, IfSome};
ghost use Rattle.irs_cli.specs.Run.{IsRunCause, Due};
ghost use Rattle.irs_cli.specs.Commands.{IsListed, word_texts};
ghost use Rattle.irs_c.specs.Each.{IsRun, file_in, gives_in, IsAbsent};
ghost use Rattle.irs_c.specs.Private.Each.{IsCommonIn, outcome_by};
ghost use Rattle.irs_main.specs.Sentences.{sentence_of};
ghost use Rattle.irs_main.specs.Shown.{shown};

use crate::given::{File, GivenFiles};
use crate::kept::Kept;
use irs_base::Status;
use irs_cli::{Common, RunCause, cause_of_run};
use irs_main::{put_sentence, shown_words};
use std::alloc::Global;

/// What a run comes to.
#[derive(Drop)]
pub(crate) struct Told {
    /// The status.
    pub(crate) status: u8,
    /// The text.
    pub(crate) text: Vec<u8>,
    /// The sentence, which says what the text means.
    pub(crate) sentence: Vec<u8>,
}

/// What a run over the lent files comes to, or 7 where memory ran out.
pub(crate) fn tell<'a>(
    alloc: Global,
    words: &[String],
    common: Option<&Common>,
    files: &'a [File<'a>],
    own: &'a [File<'a>],
) -> Result<Told, u8>
    requires { IfSome common (λ c. IsCommonIn (word_texts words.now) files.now c.now) }
    ensures run { IfOk result (λ t. IsRun (word_texts words.now) (files.now ++ own.now) (outcome_by t)) }
    ensures ok { IfOk result (λ t. (t.status < 9) × (t.status ≢ 6) × (t.status ≢ 7)) }
    ensures err { IfErr result (λ s. s ≡ 7) }
{
    let (status, text, cause) = run_kept(alloc, words, common, files, own)?;
    let sentence = sentence_for(alloc, words, &cause)?;
    Ok(Told {
        status,
        text,
        sentence,
    })
}

// Status and text of a run over the lent files with its cause and its note, or 7 where memory ran out.
fn run_kept<'a>(
    alloc: Global,
    words: &[String],
    common: Option<&Common>,
    files: &'a [File<'a>],
    own: &'a [File<'a>],
) -> Result<(u8, Vec<u8>, RunCause), u8>
    requires { IfSome common (λ c. IsCommonIn (word_texts words.now) files.now c.now) }
    ensures due { IfOk result (λ r. r.0 ≢ 5 → Due (word_texts words.now) (file_in (files.now ++ own.now)) r.0 r.1.items) }
    ensures absent { IfOk result
        (λ r. r.0 ≡ 5 → IsAbsent (word_texts words.now) (file_in (files.now ++ own.now)) r.1.items) }
    ensures only_unlisted { IfOk result (λ r. r.0 ≡ 4 → IsListed (word_texts words.now) → ⊥) }
    ensures unlisted { IfOk result (λ r. (IsListed (word_texts words.now) → ⊥) → r.0 ≡ 4) }
    ensures ok { IfOk result (λ r. (r.0 < 9) × (r.0 ≢ 6) × (r.0 ≢ 7)) }
    ensures cause { IfOk result
        (λ r. IsRunCause (word_texts words.now) (gives_in (files.now ++ own.now)) r.2 r.0 r.1.items) }
    ensures err { IfErr result (λ s. s ≡ 7) }
{
    let mut source = GivenFiles::new(files, own);
    let mut kept = Kept::new(alloc);
    let cause = cause_of_run(alloc, words, common, &mut source, &mut kept);
    let status = cause.status();
    if status == Status::PutFailed.number() || status == Status::NoMemory.number() {
        return Err(Status::NoMemory.number());
    }
    Ok((status, kept.text, cause))
}

// The sentence on what a run came to, with the words as they are shown, or 7 where memory ran out.
fn sentence_for(alloc: Global, words: &[String], cause: &RunCause) -> Result<Vec<u8>, u8>
    ensures done { IfOk result (λ t. t.items ≡ sentence_of (map shown (word_texts words.now)) cause.now) }
    ensures err { IfErr result (λ s. s ≡ 7) }
{
    let Ok(shown) = shown_words(alloc, words) else {
        return Err(Status::NoMemory.number());
    };
    sentence_on(alloc, &shown, cause)
}

// The sentence with these words, or 7 where memory ran out.
fn sentence_on(alloc: Global, words: &[String], cause: &RunCause) -> Result<Vec<u8>, u8>
    ensures done { IfOk result (λ t. t.items ≡ sentence_of (word_texts words.now) cause.now) }
    ensures err { IfErr result (λ s. s ≡ 7) }
{
    let mut kept = Kept::new(alloc);
    match put_sentence(&mut kept, words, cause) {
        Ok(()) => Ok(kept.text),
        Err(_) => Err(Status::NoMemory.number()),
    }
}
