//! An element in plain words, by its path: its own name, after that of the element that holds it.
//!
//! `calculationPeriodDates/terminationDate/dateAdjustments` is terminationDate's adjustments. What lies
//! in such `dateAdjustments` is named after terminationDate too. A path of one name gives that name
//! alone.
ghost use Rattle.irs_main.specs.Elements.{ends_in_s as ends_in_s_of, holder as holder_of};
ghost use Rattle.irs_main.specs.Elements.{holder_from as holder_from_of, is_adjustments as is_adjustments_of};
ghost use Rattle.irs_main.specs.Elements.{last_name_after as last_name_of, name_words as name_words_of};
ghost use Rattle.irs_main.specs.Elements.{next_holder as next_holder_of, possessive as possessive_of};
ghost use Rattle.std.specs.Prelude.{◌≡◌};

use crate::cuts::{front, is};

// Whether a path begins with the name `dateAdjustments`.
fn is_adjustments(path: &[u8]) -> bool
    ensures { result ≡ is_adjustments_of path.now }
{
    is(front(b'/', path), "dateAdjustments")
}

// The last name of a path; `last` begins with the last name so far.
fn last_name<'a>(mut last: &'a [u8], mut rest: &'a [u8]) -> &'a [u8]
    ensures { result.now ≡ last_name_of last.now rest.now }
{
    while let [b, more @ ..] = rest {
        if *b == b'/' {
            last = more;
        }
        rest = more;
    }
    last
}

// Where the name of the holder begins, once another name comes.
fn next_holder<'a>(holder: &'a [u8], last: &'a [u8]) -> &'a [u8]
    ensures { result.now ≡ next_holder_of holder.now last.now }
{
    if is_adjustments(last) { holder } else { last }
}

// The path from the name of the holder on; nothing where there is one name alone.
fn holder_from<'a>(mut holder: &'a [u8], mut last: &'a [u8], mut rest: &'a [u8]) -> &'a [u8]
    ensures { result.now ≡ holder_from_of holder.now last.now rest.now }
{
    while let [b, more @ ..] = rest {
        if *b == b'/' {
            holder = next_holder(holder, last);
            last = more;
        }
        rest = more;
    }
    holder
}

/// The name of the element that holds the last one; nothing where there is one name alone.
pub(crate) fn holder(path: &[u8]) -> &[u8]
    ensures { result.now ≡ holder_of path.now }
{
    front(b'/', holder_from(&[], path, path))
}

// Whether the last byte of a name is an `s`.
fn ends_in_s(name: &[u8]) -> bool
    ensures { result ≡ ends_in_s_of name.now }
{
    match name {
        [] => false,
        [.., b] => *b == b's',
    }
}

/// The ending that makes a name possessive, with a space; nothing for no name.
pub(crate) fn possessive<'a>(name: &[u8]) -> &'a [u8]
    ensures { result.now ≡ possessive_of name.now }
{
    if name.is_empty() {
        b""
    } else if ends_in_s(name) {
        b"' "
    } else {
        b"'s "
    }
}

/// The last name of a path; `document`, `swapStream` and `dateAdjustments` are given in plain words.
pub(crate) fn name_words(path: &[u8]) -> &[u8]
    ensures { result.now ≡ name_words_of path.now }
{
    let name = last_name(path, path);
    if is(name, "document") {
        b"the document"
    } else if is(name, "swapStream") {
        b"the stream"
    } else if is(name, "dateAdjustments") {
        b"adjustments"
    } else {
        name
    }
}
