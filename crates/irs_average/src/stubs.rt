//! The stub of a stream on one of its two sides (FpML `stubCalculationPeriodAmount`).
ghost use Rattle.std.specs.Prelude.{◌≡◌, ◌-◌, ℕ, List, Option, Some, IfSome, IfNone, length};
ghost use Rattle.irs_terms.specs.declared.amounts.StubRate.TheVariants.{Index as OfIndex};
ghost use Rattle.irs_terms.specs.declared.frequency.Frequency.{Frequency as Tenor};
ghost use Rattle.irs_schedule.specs.Parts.{KeepsBounds};
ghost use Rattle.irs_average.specs.Interpolations.{GivesIndex, given_on};
ghost use Rattle.irs_average.specs.Private.Means.{number_on};

use irs_base::Text;
use irs_overnight::stream_at;
use irs_schedule::StreamPart;
use irs_terms::{Frequency, StubRate, StubTerms, Swap};

/// A side of a stream on which a stub may be.
#[derive(Clone, Copy, PartialEq, Eq)]
pub enum Side {
    /// The first calculation period (FpML `initialStub`).
    Initial,
    /// The last calculation period (FpML `finalStub`).
    Last,
}

// The index and the tenor that are given for a stub.
fn index_of(given: &Option<StubRate>) -> Option<(&Text, Option<Frequency>)>
    ensures some { IfSome result (λ r. given.now ≡ Some (OfIndex r.0.now r.1)) }
    ensures none { IfNone result ((i : List ℕ) (t : Option Tenor) → given.now ≡ Some (OfIndex i t) → ⊥) }
{
    match given {
        Some(StubRate::Index(index, tenor)) => Some((index, *tenor)),
        Some(StubRate::Fixed(_)) => None,
        None => None,
    }
}

// The same by the side.
fn index_on(side: Side, stubs: &StubTerms) -> Option<(&Text, Option<Frequency>)>
    ensures some { IfSome result (λ r. given_on side stubs.now ≡ Some (OfIndex r.0.now r.1)) }
    ensures none { IfNone result ((i : List ℕ) (t : Option Tenor) → given_on side stubs.now ≡ Some (OfIndex i t) → ⊥) }
{
    match side {
        Side::Initial => index_of(&stubs.initial),
        Side::Last => index_of(&stubs.last),
    }
}

/// The index and the tenor of the stub of a stream on a side (FpML `floatingRate` of `initialStub`
/// or `finalStub`). The stream's number counts from 1. `None` comes exactly where none is given. No
/// memory is taken.
pub fn stub_index(swap: &Swap, stream: u8, side: Side) -> Option<(&Text, Option<Frequency>)>
    ensures some { IfSome result (λ r. GivesIndex swap.now stream side r.0.now r.1) }
    ensures none { IfNone result ((i : List ℕ) (t : Option Tenor) → GivesIndex swap.now stream side i t → ⊥) }
{
    let Some(terms) = stream_at(swap, stream) else {
        return None;
    };
    match &terms.stubs {
        Some(stubs) => index_on(side, stubs),
        None => None,
    }
}

/// The number, from 1, of the period that the stub of a side is.
pub(crate) fn stub_number(part: &StreamPart, side: Side) -> usize
    ensures value { result ≡ number_on side (length part.now.adjusted - 1) }
    ensures bounds { KeepsBounds part.now }
{
    let count = part.adjusted().len() - 1;
    match side {
        Side::Initial => 1,
        Side::Last => count,
    }
}
