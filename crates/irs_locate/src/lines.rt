//! The line of an element in a text in XML, from 1.
//!
//! The text is read once, from its front, piece by piece. What lies on the way to the element is entered,
//! and every other element is passed over whole.
ghost use Rattle.irs_locate.specs.Lines.{HasNone, IsLast, IsLineOf, Open, line_after as line_after_of};
ghost use Rattle.irs_locate.specs.Private.Lines.{IsRootTag, PassesOver};
ghost use Rattle.irs_locate.specs.Private.Seen.{step_seen};
ghost use Rattle.irs_locate.specs.Ways.{way};
ghost use Rattle.std.specs.Prelude.{◌≡◌, ◌<◌, ◌≤◌, IfNone, IfSome, Some, false, length, slice_get};

use crate::markup::{Mark, is_same, piece_at};
use crate::ways::{Step, step_at};
use irs_terms::Place;

/// The tag of an element: where it is, and how many bytes it has.
#[derive(Clone, Copy)]
struct Tag<'a> {
    /// Its place in the text, from 0.
    at: usize,
    /// The element's name, without a prefix.
    name: &'a [u8],
    /// How many bytes the tag has.
    size: usize,
    /// Whether the element ends at once.
    is_empty: bool,
}

// The line of what comes after the bytes: LF ends a line. Beyond the last u32 lines aren't counted.
fn line_after(bytes: &[u8]) -> u32
    ensures { result ≡ line_after_of bytes.now }
{
    let mut line: u32 = 1;
    for byte in bytes {
        if *byte == b'\n' {
            line = line.saturating_add(1);
        }
    }
    line
}

// The tag of the root, which is the first one of the text.
fn root_tag(text: &[u8]) -> Option<Tag<'_>>
    ensures some { IfSome result (IsRootTag text.now) }
    ensures none { IfNone result (HasNone text.now) }
{
    let mut at = 0;
    'pieces: loop {
        let Some(next) = piece_at(text, at) else {
            return None;
        };
        match next.mark {
            Mark::Plain => at += next.size,
            Mark::Passed => at += next.size,
            Mark::Opening(name) => return Some(Tag {
                at,
                name,
                size: next.size,
                is_empty: false,
            }),
            Mark::Empty(name) => return Some(Tag {
                at,
                name,
                size: next.size,
                is_empty: true,
            }),
            Mark::Closing => return None,
        }
    }
}

// Where an element ends whose opening tag ends at this place; `None` where the text can't be read so far.
fn past_element(text: &[u8], start: usize) -> Option<usize>
    requires { start ≤ length text.now }
    ensures ends { (lists : Open) → PassesOver text.now start lists result }
    ensures onward { IfSome result (λ end. start ≤ end) }
    ensures within { IfSome result (λ end. end ≤ length text.now) }
{
    let mut at = start;
    let mut depth: usize = 1;
    'pieces: loop {
        let Some(next) = piece_at(text, at) else {
            return None;
        };
        match next.mark {
            Mark::Plain => at += next.size,
            Mark::Passed => at += next.size,
            Mark::Opening(_) => {
                at += next.size;
                depth += 1;
            },
            Mark::Empty(_) => at += next.size,
            Mark::Closing => {
                if depth == 1 {
                    return Some(at + next.size);
                }
                at += next.size;
                depth -= 1;
            },
        }
    }
}

// Where the last element of the text is that is on the way to a place. The root has been entered, and this is
// the next step.
fn last_below(text: &[u8], place: &Place, root: Tag<'_>, first: Step<'_>) -> usize
    requires root { IsRootTag text.now root }
    requires opened { root.is_empty ≡ false }
    requires next { slice_get (way root.name.now place.now) 1 ≡ Some (step_seen first) }
    requires some { 0 < first.number }
    ensures last { IsLast text.now place.now result }
    ensures within { result ≤ length text.now }
{
    let mut step = first;
    let mut left = first.number - 1;
    let mut count: usize = 1;
    let mut found = root.at;
    let mut at = root.at + root.size;
    'pieces: loop {
        match piece_at(text, at) {
            None => return found,
            Some(next) => match next.mark {
                Mark::Plain => at += next.size,
                Mark::Passed => at += next.size,
                Mark::Opening(name) => if !is_same(name, step.name) {
                    match past_element(text, at + next.size) {
                        None => return found,
                        Some(end) => at = end,
                    }
                } else if left > 0 {
                    match past_element(text, at + next.size) {
                        None => return found,
                        Some(end) => {
                            at = end;
                            left -= 1;
                        },
                    }
                } else {
                    match step_at(root.name, place, count + 1) {
                        None => return at,
                        Some(further) => {
                            found = at;
                            at += next.size;
                            step = further;
                            count += 1;
                            left = further.number - 1;
                        },
                    }
                },
                Mark::Empty(name) => if !is_same(name, step.name) {
                    at += next.size;
                } else if left > 0 {
                    at += next.size;
                    left -= 1;
                } else {
                    return at;
                },
                Mark::Closing => return found,
            },
        }
    }
}

// Where the last element of the text is that is on the way to a place.
fn last_on_way(text: &[u8], place: &Place, root: Tag<'_>) -> usize
    requires { IsRootTag text.now root }
    ensures last { IsLast text.now place.now result }
    ensures within { result ≤ length text.now }
{
    if root.is_empty {
        return root.at;
    }
    match step_at(root.name, place, 1) {
        None => root.at,
        Some(first) => last_below(text, place, root, first),
    }
}

/// The line, from 1, of the element at a place in a document in FpML XML. Where the element isn't there, it
/// is that of the last element on the way to it that is. It is 1 where none is. Beyond the last u32 lines
/// aren't counted.
pub fn line_of(text: &[u8], place: Place) -> u32
    ensures { IsLineOf text.now place result }
{
    match root_tag(text) {
        None => 1,
        Some(root) => line_after(&text[..last_on_way(text, &place, root)]),
    }
}
