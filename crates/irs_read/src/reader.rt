//! Reading a trade's document: the swap that it spells, or the first rule that it breaks.
ghost use Rattle.irs_base.specs.Outcomes.{IfBroken, First, Determined, IfMemory};
ghost use Rattle.irs_read.specs.Documents.{DocumentFault, swap_of_document, Means};
ghost use Rattle.irs_terms.specs.{Faults.is_before, Lawful.IsLawfulSwap, declared.places.Broken.Broken as BrokenRule};
ghost use Rattle.serde_json.specs.View.{view};
ghost use Rattle.std.specs.Prelude.{IfOk};

use crate::document::clean_swap;
use crate::stream::swap_of;
use irs_base::Stopped;
use irs_json::Value;
use irs_terms::{Broken, Swap};
use std::alloc::Global;

/// Why a document gave no swap. It breaks a rule of K2 to K7, and this is the first in the order of
/// broken rules; or memory ran out.
pub type ReadErr = Stopped<Broken>;

/// The swap that a document spells. Its terms are lawful. Required elements are present, and each leaf
/// has a value of its kind: `Means` has no value for a document of which this isn't so. `Broken` reports
/// the first broken rule of K2 to K7; no swap is returned where one is broken. `Memory` is returned only
/// for a document that breaks none.
pub fn read_swap(alloc: Global, v: &Value) -> Result<Swap, ReadErr>
    ensures means { IfOk result (λ swap. Means (view v.now) swap) }
    ensures lawful { IfOk result (λ swap. IsLawfulSwap swap) }
    ensures broken { IfBroken result (First is_before (DocumentFault (view v.now))) }
    // Running out of memory hides no broken rule.
    ensures memory { IfMemory result ((f : BrokenRule) → DocumentFault (view v.now) f → ⊥) }
{
    match clean_swap(v) {
        Err(broken) => Err(ReadErr::Broken(broken)),
        Ok(found) => Ok(swap_of(alloc, found)?),
    }
}

/// A law: a document means one swap and breaks no rule of K2 to K7, or one rule is the first that it
/// breaks.
pub fn swap_of_document_is_determined(v: &Value)
    ensures { Determined (swap_of_document (view v.now)) }
{
    // hands the prover a right outcome
    let _outcome = clean_swap(v);
}
