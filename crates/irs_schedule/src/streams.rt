//! One stream of a schedule. Its boundaries, payments, exchanges and resets are kept. Days, fraction,
//! notional and rate of a period are worked out when they are needed.
ghost use Rattle.std.specs.Prelude.{◌≡◌, ◌-◌, ◌<◌, ◌≤◌, length};

use crate::entries::PaymentEntries;
use crate::kept_terms::KeptTerms;
use crate::periods::{day_at, entry_by, observed_at, overnight_at};
use crate::views::dated_period;
use crate::{PaymentEntry, PeriodEntry, Row};
use irs_base::{Day, DayList};
use irs_daycount::days_by;
use irs_observed::OvernightRates;
use irs_terms::{Currency, DayCountCode, Exchange, Exchanges, Reset, Resets};
use std::marker::Model;

/// One stream of a schedule. Contracts see a record of its currency, its boundaries, exchanges,
/// payments and resets, and of its periods with all that is worked out for them.
#[derive(Drop)]
pub struct StreamPart {
    terms: KeptTerms,
    unadjusted: DayList,
    adjusted: DayList,
    exchanges: Exchanges,
    payments: PaymentEntries,
    resets: Resets,
    // The observed rate of each period, not rounded; none without calculation parameters.
    rates: OvernightRates,
}

// Clauses see the list of its periods, as if they were kept.
impl Model for StreamPart {
    ghost use Rattle.irs_schedule.specs.Parts.{Part};

    ghost Value = { Part };

    ghost use Rattle.irs_schedule.specs.Views.{part_of, IsKept};

    ghost view = { part_of };

    ghost invariant = { IsKept };
}

ghost use Rattle.std.specs.Prelude.{IsTrue, slice_index_or};
ghost use Rattle.irs_schedule.specs.Private.Layouts.{MakePart};
ghost use Rattle.irs_schedule.specs.Parts.{is_daily, is_floating, KeepsBounds};
ghost use Rattle.irs_schedule.specs.Schedules.{periods_by};
ghost use Rattle.irs_schedule.specs.RowsOf.{no_period, period_row, reset_row, stream_row};

impl StreamPart {
    /// A stream of these parts, which lie within the limits.
    pub(crate) fn new(
        terms: KeptTerms,
        unadjusted: DayList,
        adjusted: DayList,
        exchanges: Exchanges,
        payments: PaymentEntries,
        resets: Resets,
        rates: OvernightRates,
    ) -> StreamPart
        requires { MakePart terms unadjusted adjusted exchanges payments resets rates }
        ensures currency { result.currency ≡ terms.currency }
        ensures day_count { result.day_count ≡ terms.day_count }
        ensures floating { result.floating ≡ is_floating terms.leg }
        ensures daily { result.daily ≡ is_daily terms.leg }
        ensures unadjusted { result.unadjusted ≡ unadjusted }
        ensures adjusted { result.adjusted ≡ adjusted }
        ensures exchanges { result.exchanges ≡ exchanges }
        ensures payments { result.payments ≡ payments }
        ensures periods { result.periods ≡ periods_by terms unadjusted adjusted resets rates }
        ensures resets { result.resets ≡ resets }
        ensures bounds { KeepsBounds result }
    {
        // hands the prover that the boundaries are days
        let _days = unadjusted.as_slice();
        let _moved = adjusted.as_slice();
        StreamPart {
            terms,
            unadjusted,
            adjusted,
            exchanges,
            payments,
            resets,
            rates,
        }
    }

    /// How many calculation periods it has.
    pub fn periods(&self) -> usize
        ensures count { result ≡ length self.now.periods }
        ensures bounds { KeepsBounds self.now }
    {
        self.adjusted.len() - 1
    }

    /// Whether it pays a floating rate.
    pub fn is_floating(&self) -> bool
        ensures { result ≡ self.now.floating }
    {
        self.terms.is_floating()
    }

    /// Its principal exchanges in order.
    pub fn exchanges(&self) -> &[Exchange]
        ensures value { result.now ≡ self.now.exchanges }
        ensures bounds { KeepsBounds self.now }
    {
        self.exchanges.as_slice()
    }

    /// Its payments in order.
    pub fn payments(&self) -> &[PaymentEntry]
        ensures value { result.now ≡ self.now.payments }
        ensures bounds { KeepsBounds self.now }
    {
        self.payments.as_slice()
    }

    /// The resets of its periods in order; a fixed stream has none.
    pub fn resets(&self) -> &[Reset]
        ensures value { result.now ≡ self.now.resets }
        ensures bounds { KeepsBounds self.now }
    {
        self.resets.as_slice()
    }

    /// The currency of its amounts.
    pub fn currency(&self) -> Currency
        ensures { result ≡ self.now.currency }
    {
        self.terms.currency
    }

    /// The day count of its periods.
    pub fn day_count(&self) -> DayCountCode
        ensures { result ≡ self.now.day_count }
    {
        self.terms.day_count
    }

    /// The boundaries of its periods, unadjusted: period i, from 1, starts on the one at place i - 1.
    pub fn unadjusted(&self) -> &[Day]
        ensures value { result.now ≡ self.now.unadjusted }
        ensures bounds { KeepsBounds self.now }
    {
        self.unadjusted.as_slice()
    }

    /// The boundaries of its periods, adjusted, at the same places.
    pub fn adjusted(&self) -> &[Day]
        ensures value { result.now ≡ self.now.adjusted }
        ensures bounds { KeepsBounds self.now }
    {
        self.adjusted.as_slice()
    }

    /// Days, fraction, notional and rate of a period, counted from 1.
    pub(crate) fn entry(&self, number: u32) -> PeriodEntry
        requires low { 0 < number }
        requires high { number ≤ length self.now.periods }
        ensures { result ≡ slice_index_or self.now.periods (number - 1) no_period }
    {
        let end = number as usize;
        entry_by(
            &self.terms,
            day_at(self.adjusted.as_slice(), end - 1),
            day_at(self.adjusted.as_slice(), end),
            end == self.adjusted.len() - 1,
            day_at(self.unadjusted.as_slice(), end - 1),
            observed_at(self.resets.as_slice(), end - 1),
            &overnight_at(self.rates.as_slice(), end - 1),
        )
    }

    /// The days of a period alone, counted from 1.
    pub(crate) fn entry_days(&self, number: u32) -> i64
        requires low { 0 < number }
        requires high { number ≤ length self.now.periods }
        ensures { (slice_index_or self.now.periods (number - 1) no_period).days ≡ result }
    {
        let end = number as usize;
        let last = end == self.adjusted.len() - 1;
        let boundaries = self.adjusted.as_slice();
        days_by(
            self.terms.day_count,
            day_at(boundaries, end - 1),
            day_at(boundaries, end),
            last,
        )
    }

    /// The row that begins it.
    pub(crate) fn stream_row(&self, stream: u8) -> Row
        ensures { result ≡ stream_row stream self.now }
    {
        Row::Stream {
            stream,
            currency: self.terms.currency,
            day_count: self.terms.day_count,
            floating: self.terms.is_floating(),
        }
    }

    /// The row of a period, counted from 1.
    pub(crate) fn period_row(&self, stream: u8, number: u32) -> Row
        requires low { 0 < number }
        requires high { number ≤ length self.now.periods }
        ensures { result ≡ period_row stream self.now number }
    {
        let period = dated_period(self, number);
        Row::Period {
            stream,
            number,
            start: period.start,
            end: period.end,
            adjusted_start: period.adjusted_start,
            adjusted_end: period.adjusted_end,
            days: period.days,
            frac: period.frac,
            notional: period.notional,
            rate: period.rate,
        }
    }

    /// The row of the reset of a period, counted from 1.
    pub(crate) fn reset_row(&self, stream: u8, number: u32) -> Row
        requires floating { IsTrue self.now.floating }
        requires low { 0 < number }
        requires high { number ≤ length self.now.periods }
        ensures { result ≡ reset_row stream self.now number }
    {
        let entry = self.resets.as_slice()[number as usize - 1];
        Row::Reset {
            stream,
            number,
            reset: entry.reset,
            fixing: entry.fixing,
            observed: entry.observed,
        }
    }
}
