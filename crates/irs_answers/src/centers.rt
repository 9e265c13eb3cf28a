//! The name of the centre at a place of K12.
ghost use Rattle.std.specs.Prelude.{◌≡◌, ◌-◌, IfSome, Some, option_copied};
ghost use Rattle.irs_answers.specs.Notes.{IsCenterAt, IsCenterIn, names_at as names_at_place};
ghost use Rattle.irs_answers.specs.Forms.{source_by};
ghost use Rattle.irs_rules.specs.Parameters.{start_names as start_names_of};

use crate::forms::{Source, read_document};
use crate::spots::kept;
use irs_base::{Names, Text};
use irs_read::read_swap;
use irs_rules::applicable_names;
use irs_terms::{
    AdjustableDate, Elem, Place, Stream, Swap, fixing_names, names_by, names_with, reset_names,
};
use std::alloc::Global;

/// The name of the centre at a place of K12 in a document. None where there is none, or memory ran out.
pub(crate) fn center_at(alloc: Global, document: &Source, place: Place) -> Option<Text>
    ensures { IfSome result (IsCenterIn (source_by document.now) place) }
{
    let Ok(value) = read_document(alloc, document) else {
        return None;
    };
    let Ok(swap) = read_swap(alloc, &value) else {
        return None;
    };
    let Some(name) = center_of(&swap, place) else {
        return None;
    };
    kept(alloc, name.as_slice())
}

// The name of the centre at a place in a swap.
fn center_of(swap: &Swap, place: Place) -> Option<&Text>
    ensures { IfSome result (λ name. IsCenterAt swap.now place name.now) }
{
    let stream = swap
        .streams
        .as_slice()
        .get(usize::from(place.stream).saturating_sub(1))?;
    let names = names_at(stream, place.elem)?;
    names
        .as_slice()
        .get((place.index as usize).saturating_sub(1))
}

// The centres that an element of a stream needs: one of those of which K12 speaks.
#[tactic(auto, unfolding(crate::specs::Notes::names_at))]
fn names_at(s: &Stream, elem: Elem) -> Option<&Names>
    ensures { option_copied result ≡ names_at_place s.now elem }
{
    if elem == Elem::EFFECTIVE_DATE_ADJUSTMENTS {
        names_by(&s.effective.adj)
    } else if elem == Elem::TERMINATION_DATE_ADJUSTMENTS {
        names_by(&s.termination.adj)
    } else if elem == Elem::PERIOD_DATES_ADJUSTMENTS {
        names_by(&s.period_adj)
    } else if elem == Elem::FIRST_PERIOD_START_ADJUSTMENTS {
        start_names(&s.first_start)
    } else if elem == Elem::PAYMENT_DATES_ADJUSTMENTS {
        names_with(s.pay.offset, &s.pay.adj)
    } else if elem == Elem::FIXING_DATES {
        fixing_names(&s.reset)
    } else if elem == Elem::RESET_DATES_ADJUSTMENTS {
        reset_names(&s.reset)
    } else if elem == Elem::APPLICABLE_BUSINESS_DAYS {
        applicable_names(&s.leg)
    } else {
        None
    }
}

// The centres of a given firstPeriodStartDate.
fn start_names(first: &Option<AdjustableDate>) -> Option<&Names>
    ensures { option_copied result ≡ start_names_of first.now }
{
    match first {
        None => None,
        Some(date) => names_by(&date.adj),
    }
}
