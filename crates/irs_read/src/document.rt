//! The way from the root of a document to its swap. The root is an object with exactly one of
//! `swap`, `trade` (which holds `swap`) and `dataDocument` (which holds `trade`). The choice of the
//! carrier's roots is our rule.
ghost use Rattle.irs_base.specs.Outcomes.{First};
ghost use Rattle.irs_read.specs.Documents.{DocumentFault, one_object as one_object_of, one_swap as one_swap_of};
ghost use Rattle.irs_read.specs.Documents.{swap_below as swap_below_of, the_swap as the_swap_of};
ghost use Rattle.irs_read.specs.Documents.{trade_below as trade_below_of, way_seen};
ghost use Rattle.irs_terms.specs.{Faults.IsFirstBroken, Faults.is_before, declared.places.Broken.Broken as BrokenRule};
ghost use Rattle.serde_json.specs.View.{view};
ghost use Rattle.std.specs.Prelude.{◌≡◌, IfErr, IfOk, Ok, map};

use crate::swap::{first_in_swap, outside};
use irs_elements::values_at;
use irs_json::{Value, child, members};
use irs_terms::{Broken, Elem, Rule};

// An element on the way to the swap occurs once and is an object.
fn one_object(list: &[Value]) -> Result<&Value, Broken>
    ensures { way_seen result ≡ one_object_of (map view list.now) }
{
    match list {
        [] => Err(outside(Rule::K2, Elem::SWAP)),
        [one] => if members(one).is_some() {
            Ok(one)
        } else {
            Err(outside(Rule::K3, Elem::DOCUMENT))
        },
        [_, _, ..] => Err(outside(Rule::K7, Elem::DOCUMENT)),
    }
}

// The swap occurs once.
fn one_swap(list: &[Value]) -> Result<&Value, Broken>
    ensures { way_seen result ≡ one_swap_of (map view list.now) }
{
    match list {
        [] => Err(outside(Rule::K2, Elem::SWAP)),
        [one] => Ok(one),
        [_, _, ..] => Err(outside(Rule::K7, Elem::SWAP)),
    }
}

// The swap below an object.
fn swap_below(v: &Value) -> Result<&Value, Broken>
    ensures { way_seen result ≡ swap_below_of (view v.now) }
{
    one_swap(values_at(v, "swap"))
}

// The swap below the `trade` of an object.
fn trade_below(v: &Value) -> Result<&Value, Broken>
    ensures { way_seen result ≡ trade_below_of (view v.now) }
{
    swap_below(one_object(values_at(v, "trade"))?)
}

/// The swap of a document, or the rule that ends the way to it.
pub fn the_swap(v: &Value) -> Result<&Value, Broken>
    ensures { way_seen result ≡ the_swap_of (view v.now) }
{
    if members(v).is_none() {
        return Err(outside(Rule::K3, Elem::DOCUMENT));
    }
    // Exactly one of the three roots is present.
    let (swap, trade, document) = (
        child(v, "swap"),
        child(v, "trade"),
        child(v, "dataDocument"),
    );
    match (swap.is_some(), trade.is_some(), document.is_some()) {
        (false, false, false) => Err(outside(Rule::K2, Elem::SWAP)),
        (true, false, false) => swap_below(v),
        (false, true, false) => trade_below(v),
        (false, false, true) => trade_below(one_object(values_at(v, "dataDocument"))?),
        (true, true, false) | (true, true, true) | (true, false, true) | (false, true, true) => {
            Err(outside(Rule::K7, Elem::DOCUMENT))
        }
    }
}

/// The swap of a document that breaks no rule, or the first rule that it breaks.
#[tactic(auto, using(crate::proofs::Ways::ended_first, crate::proofs::Ways::below_first))]
pub(crate) fn clean_swap(v: &Value) -> Result<&Value, Broken>
    ensures found { IfOk result (λ swap. the_swap_of (view v.now) ≡ Ok (view swap.now)) }
    ensures clean { IfOk result (λ _. (f : BrokenRule) → DocumentFault (view v.now) f → ⊥) }
    ensures broken { IfErr result (First is_before (DocumentFault (view v.now))) }
{
    let swap = the_swap(v)?;
    match first_in_swap(swap) {
        None => Ok(swap),
        Some(broken) => Err(broken),
    }
}

/// The first rule that a document breaks; `None` exactly where it breaks none.
pub fn first_in_document(v: &Value) -> Option<Broken>
    ensures { IsFirstBroken (DocumentFault (view v.now)) result }
{
    clean_swap(v).err()
}
