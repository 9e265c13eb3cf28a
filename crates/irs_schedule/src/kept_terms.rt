//! What a schedule keeps of the terms of a stream, so that its periods can be worked out when they are
//! needed.
ghost use Rattle.std.specs.Prelude.{◌≡◌, IfOk};
ghost use Rattle.irs_terms.specs.Lawful.{IsLawfulStream, IsLawfulValues, IsLawfulLeg, IsNotional};
ghost use Rattle.irs_schedule.specs.Parts.{is_floating};

use irs_base::Memory;
use irs_terms::{
    CalculationParameters, Currency, DayCountCode, FloatTerms, Leg, StepValues, Stream,
};
use std::alloc::Global;

/// Currency and day count, the notional in units of 10^-4, and the fixed or the floating rate in
/// units of 10^-9.
#[derive(Drop)]
pub(crate) struct KeptTerms {
    /// The currency of the notional (FpML `currency`).
    pub(crate) currency: Currency,
    /// How days become a fraction (2006 ISDA Definitions, section 4.16).
    pub(crate) day_count: DayCountCode,
    /// The notional and its steps, in units of 10^-4 (FpML `notionalSchedule`).
    pub(crate) notional: StepValues,
    /// The fixed or the floating rate, in units of 10^-9.
    pub(crate) leg: Leg,
}

impl KeptTerms {
    /// Whether the stream pays a floating rate.
    pub(crate) fn is_floating(&self) -> bool
        ensures { result ≡ is_floating self.now.leg }
    {
        match &self.leg {
            Leg::Fixed(_) => false,
            Leg::Floating(_) => true,
        }
    }
}

/// What is kept of a stream.
pub(crate) fn kept_terms(alloc: Global, s: &Stream) -> Result<KeptTerms, Memory>
    requires { IsLawfulStream s.now }
    ensures currency { IfOk result (λ t. t.currency ≡ s.now.currency) }
    ensures day_count { IfOk result (λ t. t.day_count ≡ s.now.day_count) }
    ensures notional { IfOk result (λ t. t.notional ≡ s.now.notional) }
    ensures leg { IfOk result (λ t. t.leg ≡ s.now.leg) }
    ensures lawful_notional { IfOk result (λ t. IsLawfulValues IsNotional t.notional) }
    ensures lawful_leg { IfOk result (λ t. IsLawfulLeg t.leg) }
{
    Ok(KeptTerms {
        currency: s.currency,
        day_count: s.day_count,
        notional: copy_of_values(alloc, &s.notional)?,
        leg: copy_of_leg(alloc, &s.leg)?,
    })
}

fn copy_of_leg(alloc: Global, leg: &Leg) -> Result<Leg, Memory>
    ensures { IfOk result (λ l. l ≡ leg.now) }
{
    match leg {
        Leg::Fixed(values) => Ok(Leg::Fixed(copy_of_values(alloc, values)?)),
        Leg::Floating(terms) => Ok(Leg::Floating(copy_of_floating(alloc, terms)?)),
    }
}

fn copy_of_floating(alloc: Global, terms: &FloatTerms) -> Result<FloatTerms, Memory>
    ensures { IfOk result (λ t. t ≡ terms.now) }
{
    Ok(FloatTerms {
        index: terms.index.copy(alloc)?,
        tenor: terms.tenor,
        multiplier: copy_of_values(alloc, &terms.multiplier)?,
        spread: copy_of_values(alloc, &terms.spread)?,
        initial_rate: terms.initial_rate,
        rounding: terms.rounding,
        treatment: terms.treatment,
        parameters: copy_of_maybe_parameters(alloc, &terms.parameters)?,
    })
}

fn copy_of_maybe_parameters(
    alloc: Global,
    parameters: &Option<CalculationParameters>,
) -> Result<Option<CalculationParameters>, Memory>
    ensures { IfOk result (λ p. p ≡ parameters.now) }
{
    match parameters {
        None => Ok(None),
        Some(parameters) => Ok(Some(copy_of_parameters(alloc, parameters)?)),
    }
}

fn copy_of_parameters(
    alloc: Global,
    parameters: &CalculationParameters,
) -> Result<CalculationParameters, Memory>
    ensures { IfOk result (λ p. p ≡ parameters.now) }
{
    Ok(CalculationParameters {
        method: parameters.method,
        offset: parameters.offset,
        centers: parameters.centers.copy(alloc)?,
    })
}

fn copy_of_values(alloc: Global, values: &StepValues) -> Result<StepValues, Memory>
    ensures { IfOk result (λ v. v ≡ values.now) }
{
    Ok(StepValues {
        initial: values.initial,
        steps: values.steps.copy(alloc)?,
    })
}
