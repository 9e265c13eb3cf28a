//! What is reported of a rate. Of a floating rate it is the base rate and the rate of a period,
//! from its observed rate. Of a fixed rate it is the one in force on the start of a period, twice.
//! Of a notional it is the one in force on a day.
ghost use Rattle.std.specs.Prelude.{◌≡◌, IsTrue, ◌∷◌};
ghost use Rattle.irs_terms.specs.Lawful.{IsLawfulFloat, IsLawfulLeg, IsLawfulStream};
ghost use Rattle.irs_terms.specs.TermDates.{StepsRise};
ghost use Rattle.irs_terms.specs.declared.amounts.Leg.TheVariants.{Fixed};

use crate::boundaries::day;
use crate::telling::Told;
use crate::values::rate_of;
use irs_base::{Day, Dec, MOST_RATE};
use irs_compound::{Rates, in_force_of_rising, period_rates, rates_of_rising};
use irs_terms::{FloatTerms, Leg, Step, StepValues, Stream};

fn rates_told(told: &mut Told, rates: Rates) {
    told.rate("base ", rates.base);
    told.rate(" rate ", rates.all_in);
    told.end();
}

// Whether a step is before the first of these.
fn is_before(step: Step, rest: &[Step]) -> bool
    ensures { IsTrue result → StepsRise rest.now → StepsRise (step ∷ rest.now) }
{
    match rest {
        [] => true,
        [next, ..] => step.day < next.day,
    }
}

// Whether each step is after the one before it.
fn steps_rise(steps: &[Step]) -> bool
    ensures { IsTrue result → StepsRise steps.now }
{
    match steps {
        [] => true,
        [first, rest @ ..] => is_before(*first, rest) && steps_rise(rest),
    }
}

// The rate in force on the start of a period, and the rates of that period.
fn fixed_told(told: &mut Told, leg: &Leg, values: &StepValues, start: Day) -> Option<()>
    requires lawful { IsLawfulLeg leg.now }
    requires fixed { leg.now ≡ Fixed values.now }
{
    if !steps_rise(values.steps.as_slice()) {
        return None;
    }
    let units = in_force_of_rising(values, start);
    told.dec("in force ", Dec { units, places: 9 });
    told.end();
    rates_told(told, rates_of_rising(leg, start, None)?);
    Some(())
}

// The rates of a period that starts on a day, with an observed rate after it.
fn floating_told(told: &mut Told, terms: &FloatTerms, text: &str) -> Option<()>
    requires { IsLawfulFloat terms.now }
{
    let (start, observed) = text.split_once(' ')?;
    let start = day(start)?;
    let observed = rate_of(observed)?;
    if observed.unsigned_abs() > MOST_RATE {
        return None;
    }
    rates_told(told, period_rates(terms, start, observed));
    Some(())
}

/// The rates of a period that starts on a day, with an observed rate after it on a floating stream.
pub fn rate_lines(told: &mut Told, s: &Stream, text: &str) -> Option<()>
    requires { IsLawfulStream s.now }
{
    match &s.leg {
        Leg::Fixed(values) => fixed_told(told, &s.leg, values, day(text)?),
        Leg::Floating(terms) => floating_told(told, terms, text),
    }
}

/// The notional that is in force on a day.
pub fn notional_lines(told: &mut Told, s: &Stream, text: &str) -> Option<()> {
    let d = day(text)?;
    if !steps_rise(s.notional.steps.as_slice()) {
        return None;
    }
    let units = in_force_of_rising(&s.notional, d);
    told.dec("", Dec { units, places: 4 });
    told.end();
    Some(())
}
