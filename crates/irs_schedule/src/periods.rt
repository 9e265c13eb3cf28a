//! Days, fraction, notional and rate of a calculation period (2006 ISDA Definitions, section 4.16
//! and articles 5, 6 and 8). The days run from its adjusted start to its adjusted end; notional and
//! rate are those in force on its unadjusted start.
ghost use Rattle.std.specs.Prelude.{◌≡◌, ◌<◌, length, ◌<ℤ◌, IfNone, IfSome, option_and_then, option_map, slice_get};
ghost use Rattle.irs_terms.specs.Lawful.{IsLawfulLeg, IsRate};
ghost use Rattle.irs_terms.specs.TermDates.{StepsRise, LegStepsRise};
ghost use Rattle.irs_compound.specs.PeriodRates.{rates_in};
ghost use Rattle.irs_observed.specs.OvernightRates.{HasBounds};
ghost use Rattle.irs_schedule.specs.Schedules.{entry_by};
ghost use Rattle.irs_base.specs.Lists.{day_at};

use crate::PeriodEntry;
use crate::kept_terms::KeptTerms;
use irs_base::Day;
use irs_compound::{in_force_of_rising, rates_of_period};
use irs_daycount::days_and_fraction;
use irs_observed::OvernightRate;
use irs_terms::{Leg, Reset};

/// A period by its adjusted start and end, by whether it is its stream's last, and by its unadjusted
/// start and its observed rate. The rate is that of its reset, or that of daily rates where the stream
/// has calculation parameters.
pub(crate) fn entry_by(
    terms: &KeptTerms,
    from: Day,
    to: Day,
    last: bool,
    start: Day,
    observed: Option<i64>,
    overnight: &Option<OvernightRate>,
) -> PeriodEntry
    requires order { from <ℤ to }
    requires leg { IsLawfulLeg terms.now.leg }
    requires notional_rises { StepsRise terms.now.notional.steps }
    requires leg_rises { LegStepsRise terms.now.leg }
    requires observed_fits { IfNone overnight.now (IfSome observed IsRate) }
    requires overnight_fits { IfSome overnight.now HasBounds }
    ensures { result ≡ entry_by terms.now from to last start observed overnight.now }
{
    let (days, frac) = days_and_fraction(terms.day_count, from, to, last);
    PeriodEntry {
        days,
        frac,
        notional: in_force_of_rising(&terms.notional, start),
        rate: rate_in(&terms.leg, start, observed, overnight),
    }
}

// The rate of a period; on a floating stream there is none where none was observed.
fn rate_in(
    leg: &Leg,
    start: Day,
    observed: Option<i64>,
    overnight: &Option<OvernightRate>,
) -> Option<i64>
    requires leg { IsLawfulLeg leg.now }
    requires rises { LegStepsRise leg.now }
    requires observed_fits { IfNone overnight.now (IfSome observed IsRate) }
    requires overnight_fits { IfSome overnight.now HasBounds }
    ensures { result ≡ option_map (λ r. r.all_in) (rates_in leg.now start observed overnight.now) }
{
    rates_of_period(leg, start, observed, overnight).map(|rates| rates.all_in)
}

/// The observed rate of a reset, by its place in the list.
pub(crate) fn observed_at(resets: &[Reset], i: usize) -> Option<i64>
    ensures { result ≡ option_and_then (λ r. r.observed) (slice_get resets.now i) }
{
    resets.get(i)?.observed
}

/// The observed rate of a period that isn't rounded, by its place in the list.
pub(crate) fn overnight_at(rates: &[OvernightRate], i: usize) -> Option<OvernightRate>
    ensures { result ≡ slice_get rates.now i }
{
    rates.get(i).copied()
}

/// The day at a place of a list.
pub(crate) fn day_at(days: &[Day], i: usize) -> Day
    requires { i < length days.now }
    ensures { result ≡ day_at days.now i }
{
    days[i]
}
