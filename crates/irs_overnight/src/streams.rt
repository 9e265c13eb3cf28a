//! The floating stream of a swap with a number.
ghost use Rattle.std.specs.Prelude.{◌≡◌, ◌↔◌, ◌-◌, ◌≤◌, slice_get, Some, None, IsTrue, IfSome, IfNone, SomeIff};
ghost use Rattle.irs_terms.specs.declared.amounts.FloatTerms.{FloatTerms as Float};
ghost use Rattle.irs_overnight.specs.Overnight.{no_floating_stream};
ghost use Rattle.irs_overnight.specs.Observations.{Floats, PaysFloating};

use irs_terms::{Broken, Elem, Fault, FloatTerms, Leg, Rule, Stream, Swap};

/// The stream of a swap with that number, from 1.
pub fn stream_at(swap: &Swap, number: u8) -> Option<&Stream>
    ensures some { IfSome result (λ s. (1 ≤ number) × (slice_get swap.now.streams (number - 1) ≡ Some s.now)) }
    ensures none { IfNone result (1 ≤ number → slice_get swap.now.streams (number - 1) ≡ None) }
{
    if number == 0 {
        return None;
    }
    swap.streams.as_slice().get(number as usize - 1)
}

/// The floating terms of the stream with that number, from 1. `None` comes exactly where the swap has no
/// such stream, or it is fixed, or it has `calculationParameters`.
pub fn floating_at(swap: &Swap, number: u8) -> Option<&FloatTerms>
    ensures some { IfSome result (λ f. PaysFloating swap.now number f.now) }
    ensures none { IfNone result ((f : Float) → PaysFloating swap.now number f → ⊥) }
{
    let stream = stream_at(swap, number)?;
    match &stream.leg {
        Leg::Floating(float) => without_parameters(float),
        Leg::Fixed(_) => None,
    }
}

// The terms, where they have no `calculationParameters`.
fn without_parameters(float: &FloatTerms) -> Option<&FloatTerms>
    ensures some { IfSome result (λ f. (f.now ≡ float.now) × (float.now.parameters ≡ None)) }
    ensures none { IfNone result (float.now.parameters ≡ None → ⊥) }
{
    match float.parameters {
        None => Some(float),
        Some(_) => None,
    }
}

fn floats(swap: &Swap, number: u8) -> bool
    ensures { IsTrue result ↔ Floats swap.now number }
{
    match floating_at(swap, number) {
        Some(_) => true,
        None => false,
    }
}

/// Whether rates can be derived for the stream with that number, from 1 (FpML `swapStream`). K40 names
/// that stream. It comes exactly where the swap has no such stream, or the stream is fixed or has
/// `calculationParameters`. With these, `schedule` works out the rates itself. The rule
/// is ours. No memory is taken.
pub fn check_stream(swap: &Swap, stream: u8) -> Option<Broken>
    ensures { SomeIff result (Floats swap.now stream → ⊥) (no_floating_stream stream) }
{
    if floats(swap, stream) {
        return None;
    }
    let fault = Fault {
        rule: Rule::K40,
        elem: Elem::SWAP_STREAM,
        index: 0,
    };
    Some(fault.in_stream(stream))
}
