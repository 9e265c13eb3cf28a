//! The observations of a calculation period: each daily rate with the days for which it holds.
ghost use Rattle.std.specs.Prelude.{◌≡◌, ◌<◌, length, IfOk, IfSome, All, ◌<ℤ◌};
ghost use Rattle.irs_base.specs.Lists.{day_at};
ghost use Rattle.irs_terms.specs.Lawful.{IsRate};
ghost use Rattle.irs_overnight.specs.Private.Bounds.{IsSmall};
ghost use Rattle.irs_overnight.specs.Observations.{AreRateObservations, AreRatesObserved, IsRateObservation};
ghost use Rattle.irs_overnight.specs.Observations.{first_absent, next_start, observed_on, daily_lines, rate_by};
ghost use Rattle.irs_overnight.specs.Observations.{LacksDays};

use crate::starts::{days_between, leaves_cover, starts};
use irs_base::{Day, Memory, Text};
use irs_calendar::GoodDays;
use irs_resets::Fixings;
use irs_terms::{Frequency, Unit};
use std::alloc::Global;

/// The tenor of daily rates.
pub(crate) const ONE_DAY: Frequency = Frequency {
    count: 1,
    unit: Unit::D,
};

/// A rate that was observed on a day, in units of 10^-9, or `None` where it has no line. Its weight
/// is the number of days for which it holds.
#[derive(Clone, Copy)]
pub struct Observation {
    /// The day on which the rate was observed.
    pub day: Day,
    /// For how many calendar days it holds.
    pub weight: i64,
    /// The rate in units of 10^-9; `None` where the file has no line for the day.
    pub rate: Option<i64>,
}

// The start after the one at a place, or the end after the last.
fn next_start(starts: &[Day], end: Day, place: usize) -> Day
    requires { place < length starts.now }
    ensures { result ≡ next_start starts.now end place }
{
    match starts.get(place + 1) {
        Some(next) => *next,
        None => end,
    }
}

// The day on which the rate from a start was observed.
fn observed_on(first: Day, starts: &[Day], place: usize) -> Day
    requires { place < length starts.now }
    ensures { result ≡ observed_on first starts.now place }
{
    if place == 0 { first } else { starts[place] }
}

// The daily rate of a day.
fn daily_rate(daily: &Fixings, index: &Text, d: Day) -> Option<i64>
    ensures value { result ≡ rate_by (daily_lines daily.now index.now) d }
    ensures small { IfSome result IsRate }
{
    daily.rate_on(index, Some(ONE_DAY), d)
}

// The start at a place.
fn start_at(starts: &[Day], place: usize) -> Day
    requires { place < length starts.now }
    ensures { result ≡ day_at starts.now place }
{
    starts[place]
}

// The observation of the start at a place.
fn observation_at(
    starts: &[Day],
    place: usize,
    first: Day,
    end: Day,
    daily: &Fixings,
    index: &Text,
) -> Observation
    requires { place < length starts.now }
    ensures is { IsRateObservation (daily_lines daily.now index.now) first starts.now end place result }
    ensures small { IsSmall result }
{
    let day = observed_on(first, starts, place);
    Observation {
        day,
        weight: days_between(start_at(starts, place), next_start(starts, end, place)),
        rate: daily_rate(daily, index, day),
    }
}

// One observation for each start.
fn observed(
    alloc: Global,
    starts: &[Day],
    first: Day,
    end: Day,
    daily: &Fixings,
    index: &Text,
) -> Result<Vec<Observation>, Memory>
    ensures ok { IfOk result (λ v. AreRatesObserved (daily_lines daily.now index.now) first starts.now end v.items) }
    ensures small { IfOk result (λ v. All IsSmall v.items) }
{
    let mut all = Vec::new(alloc);
    for place in 0..starts.len() {
        all.push(observation_at(starts, place, first, end, daily, index))?;
    }
    Ok(all)
}

/// The observations of a period; `None` exactly where they lack a day.
pub(crate) fn observations<G: GoodDays>(
    alloc: Global,
    days: &G,
    start: Day,
    end: Day,
    daily: &Fixings,
    index: &Text,
) -> Result<Option<Vec<Observation>>, Memory>
    requires order { start <ℤ end }
    ensures some { IfOk result
        (λ o. IfSome o (λ v. AreRateObservations (daily_lines daily.now index.now) (G.days days.now) start end v.items)) }
    ensures small { IfOk result (λ o. IfSome o (λ v. All IsSmall v.items)) }
    ensures none { IfOk result (λ o. IfNone o (LacksDays (G.days days.now) start end)) }
    ensures unbroken { IfOk result (λ o. IfSome o (λ _. LacksDays (G.days days.now) start end → ⊥)) }
{
    if leaves_cover(days, start, end) {
        return Ok(None);
    }
    let Some(first) = days.prev_good(start) else {
        return Ok(None);
    };
    let starts = starts(alloc, days, start, end)?;
    Ok(Some(observed(alloc, starts.as_slice(), first, end, daily, index)?))
}

/// The day of the first observation without a rate.
pub fn first_absent(observations: &[Observation]) -> Option<Day>
    ensures { result ≡ first_absent observations.now }
{
    for o in observations {
        if o.rate.is_none() {
            return Some(o.day);
        }
    }
    None
}

ghost use Rattle.std.specs.Prelude.{IfNone};
