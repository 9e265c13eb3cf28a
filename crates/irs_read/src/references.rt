//! References by `@href`: a reference names the element that has its text as `@id`. What is in the
//! profile are references to business centres of any stream of the swap, and to dates of the stream.
ghost use Rattle.irs_elements.specs.Elements.{member as member_of, once as once_of, seen};
ghost use Rattle.irs_read.specs.Readings.{attribute as attribute_of, has_id as has_id_of, href_of};
ghost use Rattle.irs_read.specs.Readings.{lists_in, lists_of, the_one};
ghost use Rattle.irs_read.specs.{Private.Sayings.Or, StreamElements.reference as reference_by};
ghost use Rattle.serde_json.specs.View.{view};
ghost use Rattle.std.specs.{Option.option_flatten, Prelude.option_map};
ghost use Rattle.std.specs.Prelude.{◌≡◌, IfOk, Some, codes, find, map};

use irs_base::Memory;
use irs_elements::{member, once};
use irs_json::{Value, child};
use irs_terms::RefState;
use std::alloc::Global;

// The text of an attribute, unchanged.
fn attribute<'a>(v: Option<&'a Value>, name: &str) -> Option<&'a str>
    ensures { option_map (λ s. s.now) result ≡ attribute_of name.now (seen v.entry) }
{
    child(v?, name)?.as_str()
}

// Whether the element has that `@id`.
fn has_id(v: Option<&Value>, id: &str) -> bool
    ensures { result ≡ has_id_of id.now (seen v.entry) }
{
    attribute(v, "@id").is_some_and(|text| text == id)
}

// The text of a reference's `@href`.
fn href(reference: &Value) -> &str
    ensures { result.now ≡ href_of (view reference.now) }
{
    attribute(Some(reference), "@href").unwrap_or("")
}

/// How a reference resolves that must name the target.
pub fn reference(target: &Value, v: &Value, name: &str) -> RefState
    ensures { Or (reference_by (Some (view target.now))).says RefState.Absent (once_of name.now (view v.now)) result }
{
    match once(v, name) {
        None => RefState::Absent,
        Some(reference) => if has_id(Some(target), href(reference)) {
            RefState::Good
        } else {
            RefState::Dangling
        },
    }
}

// The first list with the id.
fn first_named<'a>(lists: &[Option<&'a Value>], id: &str) -> Option<&'a Value>
    ensures { seen result ≡ option_flatten (find (has_id_of id.now) (map seen lists.now)) }
{
    for list in lists {
        if has_id(*list, id) {
            return *list;
        }
    }
    None
}

/// The one list that the reference names.
pub fn the_named<'a>(lists: &[Option<&'a Value>], reference: &Value) -> Option<&'a Value>
    ensures { seen result ≡ the_one (href_of (view reference.now)) (map seen lists.now) }
{
    let id = href(reference);
    if lists.iter().filter(|list| has_id(**list, id)).count() == 1 {
        first_named(lists, id)
    } else {
        None
    }
}

// The list of centres in the adjustments of that name.
fn list_below<'a>(v: Option<&'a Value>, name: &str) -> Option<&'a Value>
    ensures { seen result ≡ member_of (codes "businessCenters") (member_of name.now (seen v.entry)) }
{
    member(member(v, name), "businessCenters")
}

// Where a stream may have a list of centres.
fn slots(stream: &Value) -> [Option<&Value>; 7]
    ensures { map seen result ≡ lists_in (view stream.now) }
{
    let dates = once(stream, "calculationPeriodDates");
    let resets = once(stream, "resetDates");
    [
        list_below(member(dates, "effectiveDate"), "dateAdjustments"),
        list_below(member(dates, "terminationDate"), "dateAdjustments"),
        list_below(dates, "calculationPeriodDatesAdjustments"),
        list_below(member(dates, "firstPeriodStartDate"), "dateAdjustments"),
        list_below(once(stream, "paymentDates"), "paymentDatesAdjustments"),
        list_below(resets, "fixingDates"),
        list_below(resets, "resetDatesAdjustments"),
    ]
}

/// The lists of centres of all streams.
#[tactic(auto, using(crate::proofs::EachSaid::added, crate::proofs::EachSaid::lists_more))]
pub fn lists<'a>(alloc: Global, streams: &'a [Value]) -> Result<Vec<Option<&'a Value>>, Memory>
    ensures { IfOk result (λ lists. map seen lists.items ≡ lists_of (map view streams.now)) }
{
    let mut lists = Vec::new(alloc);
    for stream in streams {
        lists.extend_from_slice(&slots(stream))?;
    }
    Ok(lists)
}
