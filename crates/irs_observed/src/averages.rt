//! Daily rates averaged: their sum, each by its weight.
ghost use Rattle.std.specs.Prelude.{◌≡◌, ◌+◌, ◌*◌, ◌^◌, ◌<◌, ◌≤◌, IfSome, IfNone, None, pos, ◌+ℤ◌, ◌*ℤ◌, unsigned_abs};
ghost use Rattle.irs_base.specs.Days.{all_days};
ghost use Rattle.irs_terms.specs.Lawful.{IsRate};
ghost use Rattle.irs_observed.specs.ObservedRates.{AreKnown, Through, rates_by, AddsBy};
ghost use Rattle.irs_observed.specs.Observations.{HasWeights, total_weight};

use crate::daily::daily_rate_near;
use crate::factors::interest;
use crate::observation::Observation;
use irs_resets::IndexRates;

// A sum with a rate times its weight.
fn with_rate(sum: i128, rate: i64, weight: u32) -> i128
    requires sum { unsigned_abs sum ≤ 10 ^ 10 * all_days }
    requires rate { IsRate rate }
    requires weight { weight < all_days }
    ensures value { result ≡ sum +ℤ rate *ℤ pos weight }
    ensures size { unsigned_abs result ≤ unsigned_abs sum + 10 ^ 10 * weight }
{
    sum + interest(rate, weight)
}

// The sum with the rate of an observation; `None` where that is absent.
fn added(sum: i128, o: Observation, daily: &IndexRates<'_>, near: &mut usize) -> Option<i128>
    requires sum { unsigned_abs sum ≤ 10 ^ 10 * all_days }
    requires weight { o.weight < all_days }
    ensures some { IfSome result (λ g. AddsBy (rates_by daily.now) o sum g) }
    ensures size { IfSome result (λ g. unsigned_abs g ≤ unsigned_abs sum + 10 ^ 10 * o.weight) }
    ensures none { IfNone result (rates_by daily.now o.observed ≡ None) }
{
    match daily_rate_near(daily, o.observed, near) {
        Some(rate) => Some(with_rate(sum, rate, o.weight)),
        None => None,
    }
}

/// The sum of the daily rates, each by its weight, in units of 10^-9; `None` exactly where one is
/// absent.
pub(crate) fn summed(observations: &[Observation], daily: &IndexRates<'_>) -> Option<i128>
    requires weights { HasWeights observations.now }
    ensures some { IfSome result (Through (AddsBy (rates_by daily.now)) observations.now (pos 0)) }
    ensures size { IfSome result (λ g. unsigned_abs g ≤ 10 ^ 10 * total_weight observations.now) }
    ensures none { IfNone result (AreKnown (rates_by daily.now) observations.now → ⊥) }
{
    let mut sum = 0;
    let mut near = 0;
    for o in observations {
        let Some(next) = added(sum, *o, daily, &mut near) else {
            return None;
        };
        sum = next;
    }
    Some(sum)
}
