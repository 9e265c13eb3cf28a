//! What the words of a command ask for: its parameters, and the name that `carrier` takes.
ghost use Rattle.std.specs.Prelude.{◌≡◌, ◌↔◌, ℕ, ℤ, Option, Some, IfSome, IfNone, IsTrue};
ghost use Rattle.irs_cli.specs.Commands.{word_texts, IsRequest, At, IsCountWord, IsDateWord, IsFromWord, IsMeanWord};
ghost use Rattle.irs_cli.specs.Commands.{IsSideWord, IsStepWord, IsStreamWord, days_of_unit, form_of};
ghost use Rattle.irs_resets.specs.FixingFiles.{IsTenorWord};
ghost use Rattle.irs_cli.specs.declared.commands.Kind.TheVariants as kind;
ghost use Rattle.irs_cli.specs.declared.commands.Request.{Request as RequestSpec};
ghost use Rattle.irs_average.specs.declared.means.Mean.{Mean as MeanSpec};
ghost use Rattle.irs_average.specs.declared.stubs.Side.{Side as SideSpec};
ghost use Rattle.irs_terms.specs.declared.frequency.Frequency.{Frequency as FrequencySpec};

use crate::commands::Request;
use irs_answers::{Form, Task};
use irs_average::{Mean, Side};
use irs_base::{Day, read_date};
use irs_bulk::MOST_BULK;
use irs_resets::tenor;
use irs_terms::{Frequency, Unit};

/// `accrue DATE` by its parameter.
pub(crate) fn accrue_of(words: &[String]) -> Option<Request>
    ensures some { IfSome result (λ r. IsRequest kind.Accrue (word_texts words.now) r) }
    ensures none { IfNone result ((r : RequestSpec) → IsRequest kind.Accrue (word_texts words.now) r → ⊥) }
{
    match date_at(words, 0) {
        Some(date) => Some(Request::OverFiles(Task::Accrue(date))),
        None => None,
    }
}

/// `breaks FROM` by its parameter.
pub(crate) fn breaks_of(words: &[String]) -> Option<Request>
    ensures some { IfSome result (λ r. IsRequest kind.Breaks (word_texts words.now) r) }
    ensures none { IfNone result ((r : RequestSpec) → IsRequest kind.Breaks (word_texts words.now) r → ⊥) }
{
    match from_at(words, 0) {
        Some(from) => Some(Request::OverFiles(Task::Breaks(from))),
        None => None,
    }
}

/// `bulk N` by its parameter.
pub(crate) fn bulk_of(words: &[String]) -> Option<Request>
    ensures some { IfSome result (λ r. IsRequest kind.Bulk (word_texts words.now) r) }
    ensures none { IfNone result ((r : RequestSpec) → IsRequest kind.Bulk (word_texts words.now) r → ⊥) }
{
    match count_at(words, 0) {
        Some(count) => Some(Request::Bulk(count)),
        None => None,
    }
}

/// `observations STREAM` by its parameter.
pub(crate) fn observations_of(words: &[String]) -> Option<Request>
    ensures some { IfSome result (λ r. IsRequest kind.Observations (word_texts words.now) r) }
    ensures none { IfNone result ((r : RequestSpec) → IsRequest kind.Observations (word_texts words.now) r → ⊥) }
{
    match stream_at(words, 0) {
        Some(stream) => Some(Request::OverFiles(Task::Observations(stream))),
        None => None,
    }
}

/// `overnight STREAM` by its parameter.
pub(crate) fn overnight_of(words: &[String]) -> Option<Request>
    ensures some { IfSome result (λ r. IsRequest kind.Overnight (word_texts words.now) r) }
    ensures none { IfNone result ((r : RequestSpec) → IsRequest kind.Overnight (word_texts words.now) r → ⊥) }
{
    match stream_at(words, 0) {
        Some(stream) => Some(Request::OverFiles(Task::Overnight(stream))),
        None => None,
    }
}

/// `average STREAM KIND STEP` by its parameters.
pub(crate) fn average_of(words: &[String]) -> Option<Request>
    ensures some { IfSome result (λ r. IsRequest kind.Average (word_texts words.now) r) }
    ensures none { IfNone result ((r : RequestSpec) → IsRequest kind.Average (word_texts words.now) r → ⊥) }
{
    let stream = stream_at(words, 0)?;
    let mean = mean_at(words, 1)?;
    let step = step_at(words, 2)?;
    Some(Request::OverFiles(Task::Average { stream, mean, step }))
}

/// `interpolate STREAM SIDE LOW HIGH` by its parameters.
pub(crate) fn interpolate_of(words: &[String]) -> Option<Request>
    ensures some { IfSome result (λ r. IsRequest kind.Interpolate (word_texts words.now) r) }
    ensures none { IfNone result ((r : RequestSpec) → IsRequest kind.Interpolate (word_texts words.now) r → ⊥) }
{
    let stream = stream_at(words, 0)?;
    let side = side_at(words, 1)?;
    let low = tenor_at(words, 2)?;
    let high = tenor_at(words, 3)?;
    Some(Request::OverFiles(Task::Interpolate {
        stream,
        side,
        low,
        high,
    }))
}

/// `carrier DOC` by the name of its file, which ends in `.xml`.
pub(crate) fn carrier_of(words: &[String]) -> Option<Request>
    ensures some { IfSome result (λ r. IsRequest kind.Carrier (word_texts words.now) r) }
    ensures none { IfNone result ((r : RequestSpec) → IsRequest kind.Carrier (word_texts words.now) r → ⊥) }
{
    let name = words.first()?;
    match form_of(name.as_str()) {
        Form::Xml => Some(Request::Carrier),
        Form::Json => None,
    }
}

/// The form of a document or of cash flows, by the name of the file: XML where it ends in `.xml`, otherwise
/// JSON.
pub(crate) fn form_of(name: &str) -> Form
    ensures { result ≡ form_of name.now }
{
    if name.as_bytes().ends_with(b".xml") {
        Form::Xml
    } else {
        Form::Json
    }
}

// The day that the word with this index is a date of.
fn date_at(words: &[String], index: usize) -> Option<Day>
    ensures some { IfSome result (λ d. At IsDateWord (word_texts words.now) index d) }
    ensures none { IfNone result ((d : ℤ) → At IsDateWord (word_texts words.now) index d → ⊥) }
{
    let word = words.get(index)?;
    date_of(word.as_str())
}

// The first day that the word with this index asks for.
fn from_at(words: &[String], index: usize) -> Option<Option<Day>>
    ensures some { IfSome result (λ f. At IsFromWord (word_texts words.now) index f) }
    ensures none { IfNone result ((f : Option ℤ) → At IsFromWord (word_texts words.now) index f → ⊥) }
{
    let word = words.get(index)?;
    from_of(word.as_str())
}

// The first day that a word asks for: that of a date, or none where `-` asks for all.
fn from_of(word: &str) -> Option<Option<Day>>
    ensures some { IfSome result (λ f. IsFromWord word.now f) }
    ensures none { IfNone result ((f : Option ℤ) → IsFromWord word.now f → ⊥) }
{
    if word == "-" {
        Some(None)
    } else {
        match date_of(word) {
            Some(date) => Some(Some(date)),
            None => None,
        }
    }
}

// The day that a word is a date of.
fn date_of(word: &str) -> Option<Day>
    ensures some { IfSome result (λ d. IsDateWord word.now d) }
    ensures none { IfNone result ((d : ℤ) → IsDateWord word.now d → ⊥) }
{
    let date = read_date(word.as_bytes())?;
    // From here on the prover knows the range of the day.
    let _number = date.number();
    Some(date)
}

// The number of documents that the word with this index is.
fn count_at(words: &[String], index: usize) -> Option<u32>
    ensures some { IfSome result (λ n. At IsCountWord (word_texts words.now) index n) }
    ensures none { IfNone result ((n : ℕ) → At IsCountWord (word_texts words.now) index n → ⊥) }
{
    let word = words.get(index)?;
    count_of(word.as_str())
}

// The number of documents that a word is: from 1 to 500, in digits with no zero in front.
fn count_of(word: &str) -> Option<u32>
    ensures some { IfSome result (λ n. IsCountWord word.now n) }
    ensures none { IfNone result ((n : ℕ) → IsCountWord word.now n → ⊥) }
{
    match word.parse::<u32>() {
        Ok(count) if is_count(word, count) => Some(count),
        Ok(_) => None,
        Err(_) => None,
    }
}

// Whether the word is this number of documents.
fn is_count(word: &str, count: u32) -> bool
    ensures { IsTrue result ↔ IsCountWord word.now count }
{
    let mut digits = itoa::Buffer::new();
    0 < count && count <= MOST_BULK && digits.format(count) == word
}

// The number of a stream that the word with this index is.
fn stream_at(words: &[String], index: usize) -> Option<u8>
    ensures some { IfSome result (λ n. At IsStreamWord (word_texts words.now) index n) }
    ensures none { IfNone result ((n : ℕ) → At IsStreamWord (word_texts words.now) index n → ⊥) }
{
    let word = words.get(index)?;
    stream_of(word.as_str())
}

// The number of a stream that a word is: one digit from 1 to 8.
fn stream_of(word: &str) -> Option<u8>
    ensures some { IfSome result (λ n. IsStreamWord word.now n) }
    ensures none { IfNone result ((n : ℕ) → IsStreamWord word.now n → ⊥) }
{
    match word.as_bytes() {
        [digit] if b'1' <= *digit && *digit <= b'8' => Some(*digit - b'0'),
        _ => None,
    }
}

// The mean that the word with this index names.
fn mean_at(words: &[String], index: usize) -> Option<Mean>
    ensures some { IfSome result (λ m. At IsMeanWord (word_texts words.now) index m) }
    ensures none { IfNone result ((m : MeanSpec) → At IsMeanWord (word_texts words.now) index m → ⊥) }
{
    let word = words.get(index)?;
    mean_of(word.as_str())
}

// The mean that a word names.
fn mean_of(word: &str) -> Option<Mean>
    ensures some { IfSome result (λ m. IsMeanWord word.now m) }
    ensures none { IfNone result ((m : MeanSpec) → IsMeanWord word.now m → ⊥) }
{
    if word == "plain" {
        Some(Mean::Plain)
    } else if word == "weighted" {
        Some(Mean::Weighted)
    } else {
        None
    }
}

// The side that the word with this index names.
fn side_at(words: &[String], index: usize) -> Option<Side>
    ensures some { IfSome result (λ s. At IsSideWord (word_texts words.now) index s) }
    ensures none { IfNone result ((s : SideSpec) → At IsSideWord (word_texts words.now) index s → ⊥) }
{
    let word = words.get(index)?;
    side_of(word.as_str())
}

// The side that a word names.
fn side_of(word: &str) -> Option<Side>
    ensures some { IfSome result (λ s. IsSideWord word.now s) }
    ensures none { IfNone result ((s : SideSpec) → IsSideWord word.now s → ⊥) }
{
    if word == "initial" {
        Some(Side::Initial)
    } else if word == "final" {
        Some(Side::Last)
    } else {
        None
    }
}

// The days of a step that the word with this index is.
fn step_at(words: &[String], index: usize) -> Option<u32>
    ensures some { IfSome result (λ n. At IsStepWord (word_texts words.now) index n) }
    ensures none { IfNone result ((n : ℕ) → At IsStepWord (word_texts words.now) index n → ⊥) }
{
    let word = words.get(index)?;
    step_of(word.as_str())
}

// The days of a step that a word is: 1 to 999 days or weeks.
fn step_of(word: &str) -> Option<u32>
    ensures some { IfSome result (λ n. IsStepWord word.now n) }
    ensures none { IfNone result ((n : ℕ) → IsStepWord word.now n → ⊥) }
{
    let step = tenor_of(word)?;
    days_of(step)
}

// The days of a number of days or weeks.
fn days_of(step: Frequency) -> Option<u32>
    ensures { result ≡ days_of_unit step.unit step.count }
{
    match step.unit {
        Unit::D => Some(u32::from(step.count)),
        Unit::W => Some(7 * u32::from(step.count)),
        Unit::M => None,
        Unit::Y => None,
        Unit::T => None,
    }
}

// The tenor that the word with this index is.
fn tenor_at(words: &[String], index: usize) -> Option<Frequency>
    ensures some { IfSome result (λ f. At IsTenorWord (word_texts words.now) index f) }
    ensures none { IfNone result ((f : FrequencySpec) → At IsTenorWord (word_texts words.now) index f → ⊥) }
{
    let word = words.get(index)?;
    tenor_of(word.as_str())
}

// The tenor that a word is, as in a fixing file; `-` is none.
#[tactic(auto, using(irs_resets::proofs::TenorWords::tenor_read))]
fn tenor_of(word: &str) -> Option<Frequency>
    ensures some { IfSome result (λ f. IsTenorWord word.now f) }
    ensures none { IfNone result ((f : FrequencySpec) → IsTenorWord word.now f → ⊥) }
{
    match tenor(word.as_bytes()) {
        Some(Some(tenor)) => Some(tenor),
        Some(None) => None,
        None => None,
    }
}
