//! The rate of a calculation period up to one of its days, for accrued interest. It is by the daily
//! rates of the members before that day.
//!
//! The members and their observation days are those of the whole period. So the accrued interest is
//! what the period would pay if its later days earned nothing. That is our rule.
ghost use Rattle.std.specs.Prelude.{◌≡◌, ◌<◌, ◌<ℤ◌, ℤ, IfOk};
ghost use Rattle.irs_observed.specs.ObservedRates.{daily_rates};
ghost use Rattle.irs_observed.specs.Observations.{Shifts, observed_period, total_weight};
ghost use Rattle.irs_observed.specs.OvernightRates.{HasBounds, IsRateBy, AddsUpUntil, IsRateBefore, ends_by};
ghost use Rattle.irs_observed.specs.OvernightRates.{observed_until};
ghost use Rattle.irs_observed.specs.Private.OvernightRates.{BeginsBefore};
ghost use Rattle.irs_observed.specs.declared.overnight_rate.OvernightRate.{OvernightRate as ARate};

use crate::members::days_ahead;
use crate::method::DailyRateMethod;
use crate::observation::{Observation, ObservationList};
use crate::overnight_rate::{OvernightRate, rate_by_days};
use crate::walk::observations;
use irs_base::{Day, Memory, Stopped, Text};
use irs_calendar::GoodDays;
use irs_resets::Fixings;
use irs_terms::ObservationOffset;
use std::alloc::Global;

// The observation of a member before the day, up to that day.
fn ends_by(d: Day, o: Observation) -> Observation
    requires { o.day <ℤ d }
    ensures { result ≡ ends_by d o }
{
    Observation {
        day: o.day,
        weight: o.weight.min(days_ahead(o.day, d)),
        observed: o.observed,
    }
}

// The observations of the members before a day, the last of them up to that day.
fn observed_until(alloc: Global, all: &[Observation], d: Day) -> Result<Vec<Observation>, Memory>
    ensures { IfOk result (λ v. v.items ≡ observed_until d all.now) }
{
    let mut found = Vec::new(alloc);
    for o in all {
        if o.day < d {
            found.push(ends_by(d, *o))?;
        }
    }
    Ok(found)
}

// The rate by the observations of the members before a day.
fn rate_until(
    alloc: Global,
    method: DailyRateMethod,
    all: &ObservationList,
    d: Day,
    daily: &Fixings,
    index: &Text,
) -> Result<OvernightRate, Memory>
    requires starts { BeginsBefore d all.now }
    ensures is { IfOk result (IsRateBy method (daily_rates daily.now index.now) (observed_until d all.now)) }
    ensures some { 0 < total_weight (observed_until d all.now) }
    ensures bounds { IfOk result HasBounds }
{
    let part = ObservationList {
        all: observed_until(alloc, all.as_slice(), d)?,
    };
    Ok(rate_by_days(method, &part, daily, index))
}

/// The observed rate of a calculation period by the daily rates of the members before a day. That day is
/// after the first day of its observation period. The last of these rates applies up to that day. The
/// members and their observation days are those of the whole period. Rates of later members aren't
/// looked up.
///
/// It is `Absent` where one of these daily rates is, and where the period has no observations.
pub fn rate_before<G: GoodDays>(
    alloc: Global,
    method: DailyRateMethod,
    offset: ObservationOffset,
    applicable: &G,
    start: Day,
    end: Day,
    d: Day,
    daily: &Fixings,
    index: &Text,
) -> Result<OvernightRate, Memory>
    requires order { start <ℤ end }
    requires begun { (a : ℤ) → Shifts offset (G.days applicable.now) start a → a <ℤ d }
    ensures is { let p = observed_period offset (G.days applicable.now) start end in
        IfOk result (IsRateBefore method (daily_rates daily.now index.now) p d) }
    ensures bounds { IfOk result HasBounds }
{
    match observations(alloc, offset, applicable, start, end) {
        Ok(all) => rate_until(alloc, method, &all, d, daily, index),
        Err(Stopped::Broken(_)) => Ok(OvernightRate::Absent),
        Err(Stopped::Memory) => Err(Memory),
    }
}

/// Laws: a calculation period has at most one rate by the members before a day. Their weights add up to
/// the days from the first of its observation period to that day.
pub fn rate_before_is_determined<G: GoodDays>(
    method: DailyRateMethod,
    offset: ObservationOffset,
    applicable: &G,
    start: Day,
    end: Day,
    d: Day,
    daily: &Fixings,
    index: &Text,
)
    ensures one { let p = observed_period offset (G.days applicable.now) start end in
        (x y : ARate) → IsRateBefore method (daily_rates daily.now index.now) p d x
        → IsRateBefore method (daily_rates daily.now index.now) p d y → x ≡ y }
    ensures weights { let p = observed_period offset (G.days applicable.now) start end in AddsUpUntil p d }
{}
