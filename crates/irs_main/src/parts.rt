//! A sentence as parts that are written one after the other: texts, numbers in decimal digits, and names from a
//! document as they are shown. No memory is taken.
ghost use Rattle.irs_outside.specs.Outside.{Grew, GrewByFront, Rose};
ghost use Rattle.irs_main.specs.Shown.{joined_texts};
ghost use Rattle.irs_main.specs.Private.Parts.{most_parts, part_text, said, said_by};
ghost use Rattle.std.specs.Prelude.{◌≡◌, ◌≤◌, [], ◌∷◌, length, decimal, OnOk, OnErr};

use crate::visible::put_shown;
use irs_outside::{PutFailed, Sink};

/// The most parts of a sentence.
const PARTS: usize = 13;

/// A part of a sentence.
#[derive(Clone, Copy)]
pub(crate) enum Part<'a> {
    /// A text.
    Text(&'a [u8]),
    /// A number, in decimal digits.
    Number(u32),
    /// A count, in decimal digits.
    Count(usize),
    /// The first bytes of a name from a document, as they are shown.
    Shown(&'a [u8]),
}

/// A sentence, as parts to be written one after the other. Parts that aren't needed are empty.
#[derive(Clone, Copy)]
pub(crate) struct Sentence<'a> {
    /// The parts.
    pub(crate) parts: [Part<'a>; PARTS],
}

/// A sentence of these parts; the others are empty.
pub(crate) fn of_parts<'a>(first: &[Part<'a>]) -> Sentence<'a>
    requires { length first.now ≤ most_parts }
    ensures { said result ≡ said_by first.now }
{
    let mut parts = [Part::Text(b""); PARTS];
    parts[..first.len()].copy_from_slice(first);
    Sentence { parts }
}

/// A sentence of three texts.
pub(crate) fn short<'a>(first: &'a [u8], second: &'a [u8], third: &'a [u8]) -> Sentence<'a>
    ensures { said result ≡ joined_texts (first.now ∷ second.now ∷ third.now ∷ []) }
{
    of_three(Part::Text(first), Part::Text(second), Part::Text(third))
}

/// A sentence of three parts.
pub(crate) fn of_three<'a>(first: Part<'a>, second: Part<'a>, third: Part<'a>) -> Sentence<'a>
    ensures { said result ≡ joined_texts (part_text first.entry ∷ part_text second.entry ∷ part_text third.entry ∷ []) }
{
    of_parts(&[first, second, third])
}

/// A sentence of five texts.
pub(crate) fn of_five<'a>(
    first: &'a [u8],
    second: &'a [u8],
    third: &'a [u8],
    fourth: &'a [u8],
    fifth: &'a [u8],
) -> Sentence<'a>
    ensures { said result ≡ joined_texts (first.now ∷ second.now ∷ third.now ∷ fourth.now ∷ fifth.now ∷ []) }
{
    of_parts(&[
        Part::Text(first),
        Part::Text(second),
        Part::Text(third),
        Part::Text(fourth),
        Part::Text(fifth),
    ])
}

/// Writes parts, one after the other, and nothing after a write that failed.
pub(crate) fn put_parts<S: Sink>(out: &mut S, parts: &[Part<'_>]) -> Result<(), PutFailed>
    ensures ok { OnOk result (Grew (S.written out.old) (S.written out.new) (said_by parts.now)) }
    ensures quiet { OnOk result (S.faults out.new ≡ S.faults out.old) }
    ensures err { OnErr result (GrewByFront (S.written out.old) (S.written out.new) (said_by parts.now)) }
    ensures rose { OnErr result (Rose (S.faults out.old) (S.faults out.new)) }
{
    for part in parts {
        put_part(out, part)?;
    }
    Ok(())
}

// Writes a part.
fn put_part<S: Sink>(out: &mut S, part: &Part<'_>) -> Result<(), PutFailed>
    ensures ok { OnOk result (Grew (S.written out.old) (S.written out.new) (part_text part.now)) }
    ensures quiet { OnOk result (S.faults out.new ≡ S.faults out.old) }
    ensures err { OnErr result (GrewByFront (S.written out.old) (S.written out.new) (part_text part.now)) }
    ensures rose { OnErr result (Rose (S.faults out.old) (S.faults out.new)) }
{
    match part {
        Part::Text(text) => out.put(text),
        Part::Number(n) => put_number(out, *n),
        Part::Count(n) => put_count(out, *n),
        Part::Shown(name) => put_shown(out, name),
    }
}

// Writes a number in decimal digits.
fn put_number<S: Sink>(out: &mut S, n: u32) -> Result<(), PutFailed>
    ensures ok { OnOk result (Grew (S.written out.old) (S.written out.new) (decimal n)) }
    ensures quiet { OnOk result (S.faults out.new ≡ S.faults out.old) }
    ensures err { OnErr result (GrewByFront (S.written out.old) (S.written out.new) (decimal n)) }
    ensures rose { OnErr result (Rose (S.faults out.old) (S.faults out.new)) }
{
    let mut digits = itoa::Buffer::new();
    out.put(digits.format(n).as_bytes())
}

// Writes a count in decimal digits.
fn put_count<S: Sink>(out: &mut S, n: usize) -> Result<(), PutFailed>
    ensures ok { OnOk result (Grew (S.written out.old) (S.written out.new) (decimal n)) }
    ensures quiet { OnOk result (S.faults out.new ≡ S.faults out.old) }
    ensures err { OnErr result (GrewByFront (S.written out.old) (S.written out.new) (decimal n)) }
    ensures rose { OnErr result (Rose (S.faults out.old) (S.faults out.new)) }
{
    let mut digits = itoa::Buffer::new();
    out.put(digits.format(n).as_bytes())
}
