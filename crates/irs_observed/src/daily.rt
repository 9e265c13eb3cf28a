//! The daily rates of an index.
ghost use Rattle.std.specs.Prelude.{◌≡◌, ◌↔◌, IfSome, IsTrue};
ghost use Rattle.irs_terms.specs.Lawful.{IsRate};
ghost use Rattle.irs_observed.specs.ObservedRates.{AreKnown, daily_rates, rates_by};

use crate::observation::Observation;
use irs_base::{Day, Text};
use irs_resets::{Fixings, IndexRates};
use irs_terms::{Frequency, Unit};

// The tenor of daily rates.
const ONE_DAY: Frequency = Frequency {
    count: 1,
    unit: Unit::D,
};

/// The rate of the index and the tenor 1D that is observed on a day, in units of 10^-9. It is `None` if
/// no line of the fixings has it.
pub fn daily_rate(daily: &Fixings, index: &Text, d: Day) -> Option<i64>
    ensures value { result ≡ daily_rates daily.now index.now d }
    ensures small { IfSome result IsRate }
{
    daily.rate_on(index, Some(ONE_DAY), d)
}

/// As `daily_rate`, among the rates of the index. It is looked for at the place `near` first, which becomes
/// the place where the rate of the next day may be. The rate is the same from every place.
pub fn daily_rate_near(daily: &IndexRates<'_>, d: Day, near: &mut usize) -> Option<i64>
    ensures value { result ≡ rates_by daily.now d }
    ensures small { IfSome result IsRate }
{
    let (rate, place) = daily.rate_near(Some(ONE_DAY), d, *near);
    *near = place;
    rate
}

/// Whether each observation has its rate.
pub(crate) fn are_known(observations: &[Observation], daily: &IndexRates<'_>) -> bool
    ensures { IsTrue result ↔ AreKnown (rates_by daily.now) observations.now }
{
    let mut near = 0;
    for o in observations {
        if daily_rate_near(daily, o.observed, &mut near).is_none() {
            return false;
        }
    }
    true
}
