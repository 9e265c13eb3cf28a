//! The rates of a calculation period where the steps rise.
ghost use Rattle.std.specs.Prelude.{◌≡◌, ◌≤◌, unsigned_abs, Option, IfSome};
ghost use Rattle.irs_base.specs.Limits.{most_rate};
ghost use Rattle.irs_terms.specs.Lawful.{IsRate, IsLawfulValues, IsLawfulFloat, IsLawfulLeg};
ghost use Rattle.irs_terms.specs.TermDates.{StepsRise, LegStepsRise};
ghost use Rattle.irs_compound.specs.declared.periods.Rates.{Rates};
ghost use Rattle.irs_compound.specs.PeriodRates.{value_in_force, AreRates, rates_of, fixed_rates_of, leg_rates};
ghost use Rattle.irs_compound.specs.PeriodRates.{most_rounded_rate};

use crate::periods::Rates;
use crate::rates::{fixed_from, rates_from};
use crate::rising_steps::in_force_of_rising;
use irs_base::Day;
use irs_terms::{FloatTerms, Leg, StepValues};

/// The rates of a period by the leg of its stream. The steps rise by day, as the rules of the terms
/// require. On a fixed stream they are those of the rate in force. On a floating one they are those of
/// the observed rate, or `None` without one. These are those of `period_rates`, which visits
/// each step. The observed rate is at most 10 in size. `start` is the period's unadjusted start; rates
/// are in units of 10^-9.
pub fn rates_of_rising(leg: &Leg, start: Day, observed: Option<i64>) -> Option<Rates>
    requires leg { IsLawfulLeg leg.now }
    requires rises { LegStepsRise leg.now }
    requires observed_fits { IfSome observed IsRate }
    ensures rates { AreRates leg.now start observed result }
    ensures value { result ≡ leg_rates leg.now start observed }
    ensures size { IfSome result (λ r. unsigned_abs r.all_in ≤ most_rounded_rate) }
{
    rates_by_leg(leg, start, observed)
}

/// A law: where the days of the steps of a leg rise a period has one pair of rates, or it has none.
pub fn rates_are_determined(leg: &Leg, start: Day, observed: Option<i64>)
    requires { LegStepsRise leg.now }
    ensures { (x y : Option Rates) → AreRates leg.now start observed x → AreRates leg.now start observed y → x ≡ y }
{}

fn rates_by_leg(leg: &Leg, start: Day, observed: Option<i64>) -> Option<Rates>
    requires leg { IsLawfulLeg leg.now }
    requires rises { LegStepsRise leg.now }
    requires observed_fits { IfSome observed IsRate }
    ensures { result ≡ leg_rates leg.now start observed }
{
    match leg {
        Leg::Fixed(values) => Some(fixed_of_rising(values, start)),
        Leg::Floating(float) => Some(floating_of_rising(float, start, observed?)),
    }
}

/// The rates of a period of a fixed stream.
pub(crate) fn fixed_of_rising(values: &StepValues, start: Day) -> Rates
    requires lawful { IsLawfulValues IsRate values.now }
    requires rises { StepsRise values.now.steps }
    ensures { result ≡ fixed_rates_of values.now start }
{
    fixed_from(rate_of_rising(values, start))
}

/// The rates of a period by its observed rate.
pub(crate) fn floating_of_rising(f: &FloatTerms, start: Day, observed: i64) -> Rates
    requires terms { IsLawfulFloat f.now }
    requires multiplier_rises { StepsRise f.now.multiplier.steps }
    requires spread_rises { StepsRise f.now.spread.steps }
    requires observed_fits { unsigned_abs observed ≤ most_rate }
    ensures { result ≡ rates_of f.now start observed }
{
    let multiplier = rate_of_rising(&f.multiplier, start);
    let spread = rate_of_rising(&f.spread, start);
    rates_from(f, multiplier, spread, observed)
}

/// A rate, spread or multiplier in force; it is at most 10 in size.
pub(crate) fn rate_of_rising(values: &StepValues, d: Day) -> i128
    requires lawful { IsLawfulValues IsRate values.now }
    requires rises { StepsRise values.now.steps }
    ensures value { result ≡ value_in_force values.now d }
    ensures size { IsRate result }
{
    in_force_of_rising(values, d)
}
