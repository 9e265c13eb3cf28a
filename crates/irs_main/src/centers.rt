//! The centres that the calendar files have, as a sentence lists them after a centre that is in none.
ghost use Rattle.irs_base.specs.Lists.{Every};
ghost use Rattle.irs_outside.specs.Outside.{Grew, GrewByFront, Rose};
ghost use Rattle.irs_main.specs.Shown.{centers_text, count_text, listed_centers_text, more_text, name_after};
ghost use Rattle.irs_main.specs.Shown.{later_names, names_from, names_text, other_name, names_after_first, IsVisible};
ghost use Rattle.irs_main.specs.Private.Parts.{said_by};
ghost use Rattle.std.specs.Prelude.{◌≡◌, ℕ, ◌<◌, ◌^◌, List, OnOk, OnErr};

use crate::parts::{Part, put_parts};
use crate::visible::dots;
use irs_answers::Listed;
use irs_base::Text;
use irs_outside::{PutFailed, Sink};

/// A law: each byte of a list of centres is visible ASCII, whatever their names are. So it is one line.
pub fn lists_are_visible()
    ensures { (names : List (List ℕ)) (more : ℕ) → more < 2 ^ 64 → Every IsVisible (names_text names more) }
{}

/// Writes the centres that the calendar files have, where there is a list.
pub(crate) fn put_centers<S: Sink>(out: &mut S, list: &Option<Listed>) -> Result<(), PutFailed>
    ensures ok { OnOk result (Grew (S.written out.old) (S.written out.new) (centers_text list.now)) }
    ensures quiet { OnOk result (S.faults out.new ≡ S.faults out.old) }
    ensures err { OnErr result (GrewByFront (S.written out.old) (S.written out.new) (centers_text list.now)) }
    ensures rose { OnErr result (Rose (S.faults out.old) (S.faults out.new)) }
{
    match list {
        None => out.put(b""),
        Some(list) => put_listed(out, list),
    }
}

// Writes a list.
fn put_listed<S: Sink>(out: &mut S, list: &Listed) -> Result<(), PutFailed>
    ensures ok { OnOk result (Grew (S.written out.old) (S.written out.new) (listed_centers_text list.now)) }
    ensures quiet { OnOk result (S.faults out.new ≡ S.faults out.old) }
    ensures err { OnErr result (GrewByFront (S.written out.old) (S.written out.new) (listed_centers_text list.now)) }
    ensures rose { OnErr result (Rose (S.faults out.old) (S.faults out.new)) }
{
    match list {
        Listed::NoFile => out.put(b"; no calendar file was given"),
        Listed::Named(names, more) => put_names(out, names.as_slice(), *more),
    }
}

// Writes names, and how many more there are.
fn put_names<S: Sink>(out: &mut S, names: &[Text], more: usize) -> Result<(), PutFailed>
    ensures ok { OnOk result (Grew (S.written out.old) (S.written out.new) (names_text names.now more)) }
    ensures quiet { OnOk result (S.faults out.new ≡ S.faults out.old) }
    ensures err { OnErr result (GrewByFront (S.written out.old) (S.written out.new) (names_text names.now more)) }
    ensures rose { OnErr result (Rose (S.faults out.old) (S.faults out.new)) }
{
    match names {
        [] => out.put(b"; the calendar files have no centre"),
        [name, others @ ..] => put_from(out, name, others, more),
    }
}

// Writes the first name, the others, and how many more there are.
fn put_from<S: Sink>(
    out: &mut S,
    name: &Text,
    others: &[Text],
    more: usize,
) -> Result<(), PutFailed>
    ensures ok { OnOk result (Grew (S.written out.old) (S.written out.new) (names_from name.now others.now more)) }
    ensures quiet { OnOk result (S.faults out.new ≡ S.faults out.old) }
    ensures err { OnErr result (GrewByFront (S.written out.old) (S.written out.new) (names_from name.now others.now more)) }
    ensures rose { OnErr result (Rose (S.faults out.old) (S.faults out.new)) }
{
    put_name(out, b"; the calendar files have ", name)?;
    put_rest(out, others, more)
}

// Writes the other names, and how many more there are.
fn put_rest<S: Sink>(out: &mut S, others: &[Text], more: usize) -> Result<(), PutFailed>
    ensures ok { OnOk result (Grew (S.written out.old) (S.written out.new) (later_names others.now more)) }
    ensures quiet { OnOk result (S.faults out.new ≡ S.faults out.old) }
    ensures err { OnErr result (GrewByFront (S.written out.old) (S.written out.new) (later_names others.now more)) }
    ensures rose { OnErr result (Rose (S.faults out.old) (S.faults out.new)) }
{
    put_others(out, others)?;
    put_more(out, more)
}

// Writes the names after the first.
fn put_others<S: Sink>(out: &mut S, names: &[Text]) -> Result<(), PutFailed>
    ensures ok { OnOk result (Grew (S.written out.old) (S.written out.new) (names_after_first names.now)) }
    ensures quiet { OnOk result (S.faults out.new ≡ S.faults out.old) }
    ensures err { OnErr result (GrewByFront (S.written out.old) (S.written out.new) (names_after_first names.now)) }
    ensures rose { OnErr result (Rose (S.faults out.old) (S.faults out.new)) }
{
    for name in names {
        put_other(out, name)?;
    }
    Ok(())
}

// Writes another name.
fn put_other<S: Sink>(out: &mut S, name: &Text) -> Result<(), PutFailed>
    ensures ok { OnOk result (Grew (S.written out.old) (S.written out.new) (other_name name.now)) }
    ensures quiet { OnOk result (S.faults out.new ≡ S.faults out.old) }
    ensures err { OnErr result (GrewByFront (S.written out.old) (S.written out.new) (other_name name.now)) }
    ensures rose { OnErr result (Rose (S.faults out.old) (S.faults out.new)) }
{
    put_name(out, b", ", name)
}

// A name as it is shown, after other words.
fn name_parts<'a>(before: &'a [u8], name: &'a Text) -> [Part<'a>; 3]
    ensures { said_by result ≡ name_after before.now name.now }
{
    let name = name.as_slice();
    [
        Part::Text(before),
        Part::Shown(name),
        Part::Text(dots(name)),
    ]
}

// Writes that.
fn put_name<S: Sink>(out: &mut S, before: &[u8], name: &Text) -> Result<(), PutFailed>
    ensures ok { OnOk result (Grew (S.written out.old) (S.written out.new) (name_after before.now name.now)) }
    ensures quiet { OnOk result (S.faults out.new ≡ S.faults out.old) }
    ensures err { OnErr result (GrewByFront (S.written out.old) (S.written out.new) (name_after before.now name.now)) }
    ensures rose { OnErr result (Rose (S.faults out.old) (S.faults out.new)) }
{
    put_parts(out, &name_parts(before, name))
}

// Writes how many more there are, where there are more.
fn put_more<S: Sink>(out: &mut S, more: usize) -> Result<(), PutFailed>
    ensures ok { OnOk result (Grew (S.written out.old) (S.written out.new) (more_text more)) }
    ensures quiet { OnOk result (S.faults out.new ≡ S.faults out.old) }
    ensures err { OnErr result (GrewByFront (S.written out.old) (S.written out.new) (more_text more)) }
    ensures rose { OnErr result (Rose (S.faults out.old) (S.faults out.new)) }
{
    if more == 0 {
        out.put(b"")
    } else {
        put_parts(out, &count_parts(more))
    }
}

// How many more there are.
fn count_parts<'a>(more: usize) -> [Part<'a>; 3]
    ensures { said_by result ≡ count_text more }
{
    [
        Part::Text(b" and "),
        Part::Count(more),
        Part::Text(b" more"),
    ]
}
