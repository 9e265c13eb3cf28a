//! A line of a fixing file: DATE RATE TENOR INDEX.
//!
//! DATE is `YYYY-MM-DD` in range. RATE is a decimal of 9 places and at most 10 in size. TENOR is `-`
//! or a frequency other than the term. INDEX is the rest of the line, at least one byte and at most
//! [`MOST_INDEX`], none of them a control byte. The format is our rule.
ghost use Rattle.std.specs.Prelude.{◌≡◌, ◌≢◌, ◌↔◌, ◌≤◌, ℕ, ℤ, List, Option, Some, All, IsTrue, IfSome, IfNone};
ghost use Rattle.irs_base.specs.Texts.{date_at};
ghost use Rattle.irs_terms.specs.declared.frequency.Frequency.{Frequency as AtTenor};
ghost use Rattle.irs_resets.specs.FixingFiles.{behind_gap, word, IsRateText, IsIndexText, SpellsRate};
ghost use Rattle.irs_resets.specs.Private.FixingFiles.{IsTail};
ghost use Rattle.irs_resets.specs.declared.store.Slot.{Slot as AtSlot};

use crate::store::Slot;
use crate::tenors::{IndexTenor, tenor};
use crate::words::{first_word, trim_end};
use irs_base::{Day, MOST_INDEX, MOST_RATE, date, is_gap, read_dec, skip_gap};

/// What a line says from its third word on.
#[derive(Clone, Copy)]
pub struct Tail<'a> {
    /// Those bytes.
    pub text: &'a [u8],
    /// TENOR.
    pub tenor: IndexTenor,
    /// INDEX, by its bytes.
    pub index: &'a [u8],
}

/// What a line says.
#[derive(Clone, Copy)]
pub struct FixingLine<'a> {
    /// TENOR and INDEX, with the bytes that say them.
    pub tail: Tail<'a>,
    /// DATE and TENOR.
    pub slot: Slot,
    /// RATE, in units of 10^-9.
    pub rate: i64,
}

fn rate(text: &[u8]) -> Option<i64>
    ensures some { IfSome result (IsRateText text.now) }
    ensures none { IfNone result ((v : ℤ) → IsRateText text.now v → ⊥) }
{
    let units = read_dec(text, 9)?;
    let most = i128::from(MOST_RATE);
    if units < -most || units > most {
        return None;
    }
    Some(units as i64)
}

fn has_no_control(bytes: &[u8]) -> bool
    ensures { IsTrue result ↔ All (λ b. (32 ≤ b) × (b ≢ 127)) bytes.now }
{
    bytes.iter().all(|b| *b >= 32 && *b != 127)
}

fn is_index(bytes: &[u8]) -> bool
    ensures { IsTrue result ↔ IsIndexText bytes.now }
{
    !bytes.is_empty() && bytes.len() <= MOST_INDEX && has_no_control(bytes)
}

// The day that the first word spells, and what comes after the gap that follows this word.
fn first_date(line: &[u8]) -> (Option<Day>, &[u8])
    ensures day { result.0 ≡ date_at (word line.now) }
    ensures rest { result.1.now ≡ behind_gap line.now }
{
    // A date has ten bytes and none of them is a gap. So in most lines nothing else can be the first word.
    if line.len() > 10 && is_gap(line[10]) {
        if let Some(day) = date(&line[..10]) {
            return (Some(day), skip_gap(&line[10..]));
        }
    }
    let (text, rest) = first_word(line);
    (date(text), rest)
}

// The tenor and the index that the bytes spell.
fn tail_of(text: &[u8]) -> Option<Tail<'_>>
    ensures some { IfSome result (λ t. (t.text.now ≡ text.now) × IsTail t.text.now t.tenor t.index.now) }
    ensures none { IfNone result ((tenor : Option AtTenor) (index : List ℕ) → IsTail text.now tenor index → ⊥) }
{
    let (tenor_text, rest) = first_word(text);
    let index = trim_end(rest);
    let tenor = tenor(tenor_text)?;
    if !is_index(index) {
        return None;
    }
    Some(Tail { text, tenor, index })
}

// The same, where another line may end with the same bytes.
fn tail_by<'a>(text: &'a [u8], last: Option<Tail<'a>>) -> Option<Tail<'a>>
    requires { IfSome last (λ t. IsTail t.text.now t.tenor t.index.now) }
    ensures some { IfSome result (λ t. (t.text.now ≡ text.now) × IsTail t.text.now t.tenor t.index.now) }
    ensures none { IfNone result ((tenor : Option AtTenor) (index : List ℕ) → IsTail text.now tenor index → ⊥) }
{
    if let Some(tail) = last {
        if tail.text == text {
            return Some(tail);
        }
    }
    tail_of(text)
}

/// The fixing that the line spells; `None` where it spells none. `last` is what another line says from its
/// third word on: most lines of a file end as the one before.
pub fn fixing_line<'a>(line: &'a [u8], last: Option<Tail<'a>>) -> Option<FixingLine<'a>>
    requires { IfSome last (λ t. IsTail t.text.now t.tenor t.index.now) }
    ensures tail { IfSome result (λ f. IsTail f.tail.text.now f.tail.tenor f.tail.index.now) }
    ensures some { IfSome result (λ f. SpellsRate line.now f.tail.index.now f.slot f.rate) }
    ensures none { IfNone result ((index : List ℕ) (slot : AtSlot) (rate : ℤ) → SpellsRate line.now index slot rate → ⊥) }
{
    let (date, rest) = first_date(line);
    let (rate_text, rest) = first_word(rest);
    let Some(date) = date else {
        return None;
    };
    let rate = rate(rate_text)?;
    let tail = tail_by(rest, last)?;
    Some(FixingLine {
        tail,
        slot: Slot {
            date,
            tenor: tail.tenor,
        },
        rate,
    })
}
