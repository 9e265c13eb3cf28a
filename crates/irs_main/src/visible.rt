//! How a sentence shows a name from a document: the index of a rate, or the name of a member. It may be any bytes,
//! and a long one. What is shown is visible ASCII, on one line. No memory is taken.
ghost use Rattle.irs_base.specs.Lists.{Every};
ghost use Rattle.irs_base.specs.Texts.{longest_line};
ghost use Rattle.irs_outside.specs.Outside.{Grew, GrewByFront, Rose};
ghost use Rattle.irs_main.specs.Shown.{IsVisible, dots as dots_of, is_shown_as_it_is as is_plain_of, most_shown};
ghost use Rattle.irs_main.specs.Shown.{shown_byte, shown_bytes, shown_front};
ghost use Rattle.std.specs.Prelude.{◌≡◌, ℕ, ◌+◌, ◌≤◌, List, [], ◌++◌, length, take, OnOk, OnErr};

use crate::shown::hex_digit;
use irs_base::Line;
use irs_outside::{PutFailed, Sink};

/// The most bytes of a name that are shown.
const MOST_SHOWN: usize = 128;

/// A law: each byte of what is shown of a name is visible ASCII, so no control is among them.
pub fn names_are_visible()
    ensures { (bytes : List ℕ) → Every IsVisible (shown_bytes bytes) }
{}

/// Writes the first bytes of a name as they are shown.
pub(crate) fn put_shown<S: Sink>(out: &mut S, name: &[u8]) -> Result<(), PutFailed>
    ensures ok { OnOk result (Grew (S.written out.old) (S.written out.new) (shown_front name.now)) }
    ensures quiet { OnOk result (S.faults out.new ≡ S.faults out.old) }
    ensures err { OnErr result (GrewByFront (S.written out.old) (S.written out.new) (shown_front name.now)) }
    ensures rose { OnErr result (Rose (S.faults out.old) (S.faults out.new)) }
{
    let mut line = Line::new();
    push_bytes(&mut line, front(name, MOST_SHOWN));
    out.put(line.bytes())
}

/// Three dots after a name that isn't shown whole.
pub(crate) fn dots<'a>(name: &[u8]) -> &'a [u8]
    ensures { result.now ≡ dots_of name.now }
{
    if name.len() > MOST_SHOWN { b"..." } else { b"" }
}

// The first bytes of a name, at most as many.
fn front(name: &[u8], most: usize) -> &[u8]
    ensures value { result.now ≡ take most name.now }
    ensures fits { length result.now ≤ most }
{
    &name[..name.len().min(most)]
}

// Appends bytes to the empty line, as they are shown.
fn push_bytes(line: &mut Line, bytes: &[u8])
    requires empty { line.old ≡ [] }
    requires fits { length bytes.now ≤ most_shown }
    ensures { line.new ≡ shown_bytes bytes.now }
{
    for byte in bytes {
        push_byte(line, *byte);
    }
}

// Appends a byte as it is shown.
fn push_byte(line: &mut Line, byte: u8)
    requires { length line.old + 4 ≤ longest_line }
    ensures text { line.new ≡ line.old ++ shown_byte byte }
    ensures grows { length line.new ≤ length line.old + 4 }
{
    let number = u32::from(byte);
    if is_plain(byte) {
        line.push(&[byte]);
    } else {
        line.push(&[
            b'\\',
            b'x',
            hex_digit(number / 16 % 16),
            hex_digit(number % 16),
        ]);
    }
}

// Whether a byte is shown as it is: a space to ~, but no backslash.
fn is_plain(byte: u8) -> bool
    ensures { result ≡ is_plain_of byte }
{
    32 <= byte && byte <= 126 && byte != b'\\'
}
