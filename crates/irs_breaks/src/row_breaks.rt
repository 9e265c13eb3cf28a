//! The findings of a row of the pairing, whatever its kind.
ghost use Rattle.std.specs.Prelude.{◌≡◌, ◌+◌, ◌<◌, ◌≤◌, IfSome, OnOk, option_copied};
ghost use Rattle.irs_base.specs.Lists.{Every};
ghost use Rattle.irs_breaks.specs.Findings.{IsComparable, joined_findings};
ghost use Rattle.irs_breaks.specs.Private.Findings.{Adds};
ghost use Rattle.irs_breaks.specs.Pairing.{IsPlacedRow};
ghost use Rattle.irs_breaks.specs.BreakLists.{AreFieldBreaks, unpaired, member_at, numbered, ours_alone, break_place};
ghost use Rattle.irs_breaks.specs.BreakLists.{theirs_alone};

use crate::PairedRow;
use crate::findings::{BreakList, BreakPlace, What};
use crate::values::{FieldValues, differ};
use irs_audit::RowKind;
use irs_base::{Day, Dec, Memory};

// The number, from 1, of a row of a list of `count` rows.
fn numbered(place: Option<usize>, count: usize) -> Option<usize>
    requires { IfSome place (λ n. n < count) }
    ensures { result ≡ numbered place }
{
    match place {
        Some(n) => Some(n + 1),
        None => None,
    }
}

/// The rows of a break. The lists have `ours` and `theirs` rows.
pub(crate) fn place_of(
    stream: usize,
    kind: RowKind,
    row: &PairedRow,
    ours: usize,
    theirs: usize,
) -> BreakPlace
    requires { IsPlacedRow ours theirs row.now }
    ensures { result ≡ break_place stream kind row.now }
{
    BreakPlace {
        stream,
        kind,
        day: row.day,
        ours: numbered(row.ours, ours),
        theirs: numbered(row.theirs, theirs),
    }
}

/// Appends the finding of a row that only ours has.
pub(crate) fn push_ours(
    list: &mut BreakList,
    place: &BreakPlace,
    value: Option<Dec>,
) -> Result<(), Memory>
    requires { IfSome value (λ v. v.places ≤ 12) }
    ensures { OnOk result (list.new ≡ joined_findings list.old (ours_alone place.now value)) }
{
    list.push_break(place, &What::Missing(value))
}

// What breaks where a row of theirs is alone: it is extra, or undated where it has no date.
fn alone(day: &Option<Day>, places: u8, value: Option<i128>) -> What
    ensures { result ≡ unpaired day.now places value }
{
    match day {
        Some(_) => What::Extra(places, value),
        None => What::Undated(places, value),
    }
}

/// Appends the finding of a row that only theirs has.
pub(crate) fn push_theirs(
    list: &mut BreakList,
    place: &BreakPlace,
    places: u8,
    value: Option<i128>,
) -> Result<(), Memory>
    requires { places ≤ 12 }
    ensures { OnOk result (list.new ≡ joined_findings list.old (theirs_alone place.now places value)) }
{
    list.push_break(place, &alone(&place.day, places, value))
}

/// Appends the fields that differ.
pub(crate) fn push_fields(
    list: &mut BreakList,
    place: &BreakPlace,
    fields: &[FieldValues],
) -> Result<(), Memory>
    requires { Every IsComparable fields.now }
    ensures { OnOk result (Adds (AreFieldBreaks place.now fields.now) list.old list.new) }
{
    for field in fields {
        if differ(&field.values) {
            list.push_break(place, &What::Field(*field))?;
        }
    }
    Ok(())
}

/// The member at a place, where there is a place.
pub(crate) fn member_at<T>(items: &[T], place: Option<usize>) -> Option<&T>
    ensures { option_copied result ≡ member_at items.now place }
{
    match place {
        Some(n) => items.get(n),
        None => None,
    }
}
