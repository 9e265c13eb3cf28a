//! The first observation day of a calculation period that has no daily rate (FpML `calculationParameters`).
ghost use Rattle.std.specs.Prelude.{◌<ℤ◌, ℤ, IfNone, IfOk, IfSome};
ghost use Rattle.irs_observed.specs.ObservedRates.{AreKnown, daily_rates, rates_by};
ghost use Rattle.irs_observed.specs.Observations.{observed_period, LacksObservations};
ghost use Rattle.irs_observed.specs.declared.observation.NoObservations.{NoObservations as Reason};
ghost use Rattle.irs_unfixed.specs.Unfixed.{FirstAbsent, IsAbsentDay};
ghost use Rattle.irs_unfixed.specs.Private.Made.{HasAbsentDay};

use irs_base::{Day, Memory, Stopped, Text};
use irs_calendar::GoodDays;
use irs_observed::{Observation, daily_rate_near, observations};
use irs_resets::{Fixings, IndexRates};
use irs_terms::ObservationOffset;
use std::alloc::Global;

// The first observation day without a daily rate.
fn first_absent(observations: &[Observation], daily: &IndexRates<'_>) -> Option<Day>
    ensures some { IfSome result (FirstAbsent (rates_by daily.now) observations.now) }
    ensures none { IfNone result (AreKnown (rates_by daily.now) observations.now) }
{
    let mut near = 0;
    for o in observations {
        if daily_rate_near(daily, o.observed, &mut near).is_none() {
            return Some(o.observed);
        }
    }
    None
}

/// The first observation day of a calculation period that has no daily rate; there is one.
pub(crate) fn absent_day<G: GoodDays>(
    alloc: Global,
    offset: ObservationOffset,
    days: &G,
    start: Day,
    end: Day,
    fixings: &Fixings,
    index: &Text,
) -> Result<Day, Memory>
    requires order { start <ℤ end }
    requires observed { let p = observed_period offset (G.days days.now) start end in (why : Reason) → LacksObservations p why → ⊥ }
    requires absent { let p = observed_period offset (G.days days.now) start end in
        HasAbsentDay (daily_rates fixings.now index.now) p }
    ensures { let p = observed_period offset (G.days days.now) start end in
        IfOk result (IsAbsentDay (daily_rates fixings.now index.now) p) }
{
    match observations(alloc, offset, days, start, end) {
        Ok(all) => match first_absent(all.as_slice(), &fixings.of(index)) {
            Some(day) => Ok(day),
            None => unreachable!(),
        },
        Err(Stopped::Broken(_)) => unreachable!(),
        Err(Stopped::Memory) => Err(Memory),
    }
}
