//! Which line of the fixings the rate of a calculation period is, by its index and its tenor (FpML
//! `floatingRateIndex`, `indexTenor` and `stubCalculationPeriodAmount`).
ghost use Rattle.std.specs.Prelude.{◌≡◌, ℤ, IfNone, IfSome};
ghost use Rattle.irs_resets.specs.Rates.{Line as LineOf, Stated};
ghost use Rattle.irs_resets.specs.Private.Resets.{final_stub_source, index_source, initial_or_index};
ghost use Rattle.irs_resets.specs.Private.Resets.{initial_stub_source, own_or_index, own_source, source_by};

use irs_base::Text;
use irs_resets::PeriodKind;
use irs_terms::{FloatTerms, Frequency, StubRate, StubTerms};

/// The lines of the fixings with an index and a tenor.
#[derive(Clone, Copy)]
pub(crate) struct RateLine<'a> {
    /// The index (FpML `floatingRateIndex`).
    pub index: &'a Text,
    /// The tenor, where it has one (FpML `indexTenor`).
    pub tenor: Option<Frequency>,
}

// The line of the stream's index.
fn of_index(float: &FloatTerms) -> RateLine<'_>
    ensures { index_source float.now ≡ LineOf result.index.now result.tenor }
{
    RateLine {
        index: &float.index,
        tenor: float.tenor,
    }
}

// The line of a stub's index; none where the stub has a rate.
fn of_stub(stub: &StubRate) -> Option<RateLine<'_>>
    ensures some { IfSome result (λ l. own_source stub.now ≡ LineOf l.index.now l.tenor) }
    ensures none { IfNone result ((rate : ℤ) × (own_source stub.now ≡ Stated rate)) }
{
    match stub {
        StubRate::Index(index, tenor) => Some(RateLine {
            index,
            tenor: *tenor,
        }),
        StubRate::Fixed(_) => None,
    }
}

fn of_stub_or_index<'a>(stub: &'a Option<StubRate>, float: &'a FloatTerms) -> Option<RateLine<'a>>
    ensures some { IfSome result (λ l. own_or_index stub.now float.now ≡ LineOf l.index.now l.tenor) }
    ensures none { IfNone result ((rate : ℤ) × (own_or_index stub.now float.now ≡ Stated rate)) }
{
    match stub {
        Some(stub) => of_stub(stub),
        None => Some(of_index(float)),
    }
}

fn of_initial_stub<'a>(stubs: &'a Option<StubTerms>, float: &'a FloatTerms) -> Option<RateLine<'a>>
    ensures some { IfSome result (λ l. initial_stub_source stubs.now float.now ≡ LineOf l.index.now l.tenor) }
    ensures none { IfNone result ((rate : ℤ) × (initial_stub_source stubs.now float.now ≡ Stated rate)) }
{
    match stubs {
        Some(stubs) => of_stub_or_index(&stubs.initial, float),
        None => Some(of_index(float)),
    }
}

fn of_final_stub<'a>(stubs: &'a Option<StubTerms>, float: &'a FloatTerms) -> Option<RateLine<'a>>
    ensures some { IfSome result (λ l. final_stub_source stubs.now float.now ≡ LineOf l.index.now l.tenor) }
    ensures none { IfNone result ((rate : ℤ) × (final_stub_source stubs.now float.now ≡ Stated rate)) }
{
    match stubs {
        Some(stubs) => of_stub_or_index(&stubs.last, float),
        None => Some(of_index(float)),
    }
}

fn of_first_regular(float: &FloatTerms) -> Option<RateLine<'_>>
    ensures some { IfSome result
        (λ l. initial_or_index float.now.initial_rate float.now ≡ LineOf l.index.now l.tenor) }
    ensures none { IfNone result
        ((rate : ℤ) × (initial_or_index float.now.initial_rate float.now ≡ Stated rate)) }
{
    match float.initial_rate {
        Some(_) => None,
        None => Some(of_index(float)),
    }
}

/// The line of the fixings that the rate of a period of this kind is; `None` exactly where the terms state
/// the rate.
pub(crate) fn line_of<'a>(
    kind: PeriodKind,
    float: &'a FloatTerms,
    stubs: &'a Option<StubTerms>,
) -> Option<RateLine<'a>>
    ensures some { IfSome result (λ l. source_by kind float.now stubs.now ≡ LineOf l.index.now l.tenor) }
    ensures none { IfNone result ((rate : ℤ) × (source_by kind float.now stubs.now ≡ Stated rate)) }
{
    match kind {
        PeriodKind::InitialStub => of_initial_stub(stubs, float),
        PeriodKind::FinalStub => of_final_stub(stubs, float),
        PeriodKind::FirstRegular => of_first_regular(float),
        PeriodKind::LaterRegular => Some(of_index(float)),
    }
}
