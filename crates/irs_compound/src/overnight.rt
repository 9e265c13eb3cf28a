//! The rates of a calculation period of a stream with calculation parameters (FpML
//! `calculationParameters`).
//!
//! The observed rate is a fraction that isn't rounded. The base rate is the multiplier times the
//! fraction, and the rate is that plus the spread. Each is rounded once from its exact value (2006 ISDA
//! Definitions, section 8.1). The treatment of a rate below 0 is that of every other floating period.
ghost use Rattle.std.specs.Prelude.{◌≡◌, ◌≤◌, ◌+◌, pos, Option, IfNone, IfSome, unsigned_abs};
ghost use Rattle.irs_base.specs.Limits.{most_rate};
ghost use Rattle.irs_terms.specs.Lawful.{IsLawfulFloat, IsLawfulLeg, IsLawfulValues, IsRate};
ghost use Rattle.irs_terms.specs.TermDates.{LegStepsRise, StepsRise};
ghost use Rattle.irs_observed.specs.ObservedRates.{most_period_rate, period_rate_at};
ghost use Rattle.irs_observed.specs.OvernightRates.{HasBounds};
ghost use Rattle.irs_compound.specs.declared.periods.Rates.{Rates};
ghost use Rattle.irs_compound.specs.PeriodRates.{AreRatesIn, IsAbove, floating_rates_by, out_of_range};
ghost use Rattle.irs_compound.specs.PeriodRates.{overnight_rates_by, rates_in, rates_over, fixed_rates_of, leg_rates};
ghost use Rattle.irs_compound.specs.PeriodRates.{rates_of, treated};

use crate::periods::Rates;
use crate::rates::treated;
use crate::rising_rates::{fixed_of_rising, floating_of_rising, rate_of_rising, rates_of_rising};
use irs_base::{Day, MOST_RATE};
use irs_observed::{ObservedRate, OvernightRate, period_rate};
use irs_terms::{FloatTerms, Leg, StepValues};

/// The rates of a period by the leg of its stream, whose steps rise by day, as the rules of the terms
/// require. Without calculation parameters they are those of the observed rate, as for
/// `rates_of_rising`. With them `overnight` is the period's observed rate, and the rates are those of
/// the fraction. They are `None` if it isn't known, and above 10 if a compounded factor passes its limit.
/// `start` is the period's unadjusted start; rates are in units of 10^-9.
pub fn rates_of_period(
    leg: &Leg,
    start: Day,
    observed: Option<i64>,
    overnight: &Option<OvernightRate>,
) -> Option<Rates>
    requires leg { IsLawfulLeg leg.now }
    requires rises { LegStepsRise leg.now }
    requires observed_fits { IfNone overnight.now (IfSome observed IsRate) }
    requires overnight_fits { IfSome overnight.now HasBounds }
    ensures rates { AreRatesIn leg.now start observed overnight.now result }
    ensures value { result ≡ rates_in leg.now start observed overnight.now }
    ensures size { IfSome result (λ r. unsigned_abs r.all_in ≤ most_period_rate) }
{
    rates_in(leg, start, observed, overnight)
}

fn rates_in(
    leg: &Leg,
    start: Day,
    observed: Option<i64>,
    overnight: &Option<OvernightRate>,
) -> Option<Rates>
    requires leg { IsLawfulLeg leg.now }
    requires rises { LegStepsRise leg.now }
    requires observed_fits { IfNone overnight.now (IfSome observed IsRate) }
    requires overnight_fits { IfSome overnight.now HasBounds }
    ensures value { result ≡ rates_in leg.now start observed overnight.now }
    ensures size { IfSome result (λ r. unsigned_abs r.all_in ≤ most_period_rate) }
{
    match overnight {
        Some(rate) => rates_by_overnight(leg, start, rate),
        None => without_parameters(leg, start, observed),
    }
}

// The rates of a period without calculation parameters.
#[tactic(auto, using(crate::proofs::OvernightSizes::small_rates))]
fn without_parameters(leg: &Leg, start: Day, observed: Option<i64>) -> Option<Rates>
    requires leg { IsLawfulLeg leg.now }
    requires rises { LegStepsRise leg.now }
    requires observed_fits { IfSome observed IsRate }
    ensures value { result ≡ leg_rates leg.now start observed }
    ensures size { IfSome result (λ r. unsigned_abs r.all_in ≤ most_period_rate) }
{
    rates_of_rising(leg, start, observed)
}

/// A law: where the days of the steps of a leg rise a period has one pair of rates, or it has none.
pub fn overnight_rates_are_determined(
    leg: &Leg,
    start: Day,
    observed: Option<i64>,
    overnight: &Option<OvernightRate>,
)
    requires rises { LegStepsRise leg.now }
    requires above { IfSome overnight.now IsAbove }
    ensures { (x y : Option Rates) → AreRatesIn leg.now start observed overnight.now x
        → AreRatesIn leg.now start observed overnight.now y → x ≡ y }
{}

fn rates_by_overnight(leg: &Leg, start: Day, rate: &OvernightRate) -> Option<Rates>
    requires leg { IsLawfulLeg leg.now }
    requires rises { LegStepsRise leg.now }
    requires bounds { HasBounds rate.now }
    ensures value { result ≡ overnight_rates_by leg.now start rate.now }
    ensures size { IfSome result (λ r. unsigned_abs r.all_in ≤ most_period_rate) }
{
    match leg {
        Leg::Fixed(values) => Some(fixed(values, start)),
        Leg::Floating(float) => floating_by_overnight(float, start, rate),
    }
}

fn floating_by_overnight(f: &FloatTerms, start: Day, rate: &OvernightRate) -> Option<Rates>
    requires terms { IsLawfulFloat f.now }
    requires multiplier_rises { StepsRise f.now.multiplier.steps }
    requires spread_rises { StepsRise f.now.spread.steps }
    requires bounds { HasBounds rate.now }
    ensures value { result ≡ floating_rates_by f.now start rate.now }
    ensures size { IfSome result (λ r. unsigned_abs r.all_in ≤ most_period_rate) }
{
    match rate {
        OvernightRate::Stated(observed) => Some(stated(f, start, *observed)),
        OvernightRate::Known(x) => Some(rates_over(f, start, x)),
        OvernightRate::Absent => None,
        OvernightRate::OutOfRange => Some(out_of_range()),
    }
}

// The rates of a fixed stream.
#[tactic(auto, using(crate::proofs::OvernightSizes::fixed_small))]
fn fixed(values: &StepValues, start: Day) -> Rates
    requires lawful { IsLawfulValues IsRate values.now }
    requires rises { StepsRise values.now.steps }
    ensures value { result ≡ fixed_rates_of values.now start }
    ensures size { unsigned_abs result.all_in ≤ most_period_rate }
{
    fixed_of_rising(values, start)
}

// The rates by a rate that is stated for a stub.
#[tactic(auto, using(crate::proofs::OvernightSizes::stated_small))]
fn stated(f: &FloatTerms, start: Day, observed: i64) -> Rates
    requires terms { IsLawfulFloat f.now }
    requires multiplier_rises { StepsRise f.now.multiplier.steps }
    requires spread_rises { StepsRise f.now.spread.steps }
    requires observed_fits { unsigned_abs observed ≤ most_rate }
    ensures value { result ≡ rates_of f.now start observed }
    ensures size { unsigned_abs result.all_in ≤ most_period_rate }
{
    floating_of_rising(f, start, observed)
}

// Rates above the greatest: those of a period in which a compounded factor passes its limit.
fn out_of_range() -> Rates
    ensures value { result ≡ out_of_range }
    ensures size { unsigned_abs result.all_in ≤ most_period_rate }
{
    let above = MOST_RATE as i64 + 1;
    Rates {
        base: above,
        all_in: above,
    }
}

// The rates by a fraction.
fn rates_over(f: &FloatTerms, start: Day, x: &ObservedRate) -> Rates
    requires terms { IsLawfulFloat f.now }
    requires multiplier_rises { StepsRise f.now.multiplier.steps }
    requires spread_rises { StepsRise f.now.spread.steps }
    ensures value { result ≡ rates_over f.now start x.now }
    ensures size { unsigned_abs result.all_in ≤ most_period_rate }
{
    let multiplier = rate_of_rising(&f.multiplier, start);
    let spread = rate_of_rising(&f.spread, start);
    rates_over_by(f, multiplier as i64, spread as i64, x)
}

// The rates of this multiplier and this spread, each at most 10 in size.
fn rates_over_by(f: &FloatTerms, multiplier: i64, spread: i64, x: &ObservedRate) -> Rates
    requires terms { IsLawfulFloat f.now }
    requires multiplier_fits { IsRate multiplier }
    requires spread_fits { IsRate spread }
    ensures base { result.base ≡ period_rate_at x.now multiplier (pos 0) f.now.rounding }
    ensures all_in { result.all_in ≡ treated f.now.treatment (period_rate_at x.now multiplier spread f.now.rounding) }
    ensures size { unsigned_abs result.all_in ≤ most_period_rate }
{
    Rates {
        base: period_rate(*x, multiplier, 0, f.rounding),
        all_in: treated(f.treatment, period_rate(*x, multiplier, spread, f.rounding)),
    }
}
