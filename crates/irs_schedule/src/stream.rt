//! The part of one stream in a schedule, or the first rule of its dates and amounts that is broken.
ghost use Rattle.std.specs.Prelude.{◌≡◌, ◌-◌, false, IfOk, List, length};
ghost use Rattle.irs_base.specs.Lists.{Every};
ghost use Rattle.irs_base.specs.Outcomes.{Meets};
ghost use Rattle.irs_terms.specs.Lawful.{IsLawfulStream};
ghost use Rattle.irs_terms.specs.declared.amounts.Leg.TheVariants.{Floating as OfFloating};
ghost use Rattle.irs_calendar.specs.declared.sections.Section.{Section};
ghost use Rattle.irs_payments.specs.Payments.{Covers};
ghost use Rattle.irs_rules.specs.TermsRules.{TermsKept};
ghost use Rattle.irs_schedule.specs.DaySets.{StreamSets};
ghost use Rattle.irs_schedule.specs.Parts.{is_daily, HasAmount, KeepsBounds, HasRates, resets_alone, resets_by};
ghost use Rattle.irs_schedule.specs.Parts.{resets_in, with_factors};
ghost use Rattle.irs_schedule.specs.Schedules.{entries_of, events_of, layout_of, passed_at, payment_dates_of};
ghost use Rattle.irs_schedule.specs.Schedules.{resets_over, stream_of, layout_dates};
ghost use Rattle.irs_schedule.specs.Private.Layouts.{sets_of};

use crate::amounts::{PeriodTable, paid_within};
use crate::center_table::StreamDays;
use crate::entries::PaymentEntries;
use crate::kept_terms::kept_terms;
use crate::layouts::Layout;
use crate::streams::StreamPart;
use irs_base::Stopped;
use irs_observed::{OvernightRates, OvernightResets, overnight_resets};
use irs_payments::{check_steps, payments, principals};
use irs_periods::{adjusted, boundaries_by, regular_span};
use irs_resets::{Fixings, resets};
use irs_terms::{Exchanges, Fault, FloatTerms, Leg, Payments, Resets, Stream};
use std::alloc::Global;

/// The payments, the principal exchanges and the resets of a stream.
#[derive(Drop)]
pub(crate) struct StreamEvents {
    /// The payments, in order of their periods.
    pub(crate) payments: Payments,
    /// The principal exchanges, in order.
    pub(crate) exchanges: Exchanges,
    /// The reset of each period; none where the rate is fixed.
    pub(crate) resets: Resets,
    /// The observed rate of each period, not rounded; none without calculation parameters.
    pub(crate) rates: OvernightRates,
}

/// The part of a stream. `Broken` is the first broken rule of the stream, and `Memory` comes where
/// memory ran out.
pub(crate) fn stream_part(
    alloc: Global,
    s: &Stream,
    days: &StreamDays<'_>,
    fix: &Fixings,
) -> Result<StreamPart, Stopped<Fault>>
    requires lawful { IsLawfulStream s.now }
    requires kept { (cal : List Section) × TermsKept cal s.now }
    ensures meets { Meets (stream_of (sets_of days.now) fix.now s.now) result }
    ensures bounds { IfOk result KeepsBounds }
{
    let layout = laid_out(alloc, s, days)?;
    // hands the prover that the boundaries are days
    let _days = layout.unadjusted.as_slice();
    let _moved = layout.adjusted.as_slice();
    let events = events_over(alloc, s, &layout, days, fix)?;
    let entries = entries_over(alloc, s, &layout, &events)?;
    let terms = kept_terms(alloc, s)?;
    Ok(StreamPart::new(
        terms,
        layout.unadjusted,
        layout.adjusted,
        events.exchanges,
        entries,
        events.resets,
        events.rates,
    ))
}

// The boundaries over the regular span. `Broken` is the first of K30 to K34.
fn laid_out(alloc: Global, s: &Stream, days: &StreamDays<'_>) -> Result<Layout, Stopped<Fault>>
    requires lawful { IsLawfulStream s.now }
    requires kept { (cal : List Section) × TermsKept cal s.now }
    ensures { Meets (layout_of (sets_of days.now) s.now) result }
{
    let span = regular_span(s)?;
    let unadjusted = boundaries_by(alloc, s, &span)?;
    let adjusted = adjusted(alloc, s, &unadjusted, days.start, days.end, days.middle)?;
    Ok(Layout {
        span,
        unadjusted,
        adjusted,
    })
}

// The payments over the boundaries, where the dates of all steps are boundaries (K36).
fn payment_dates(
    alloc: Global,
    s: &Stream,
    layout: &Layout,
    days: &StreamDays<'_>,
) -> Result<Payments, Stopped<Fault>>
    requires lawful { IsLawfulStream s.now }
    requires kept { (cal : List Section) × TermsKept cal s.now }
    requires layout { (layout_of (sets_of days.now) s.now).Answers layout.now }
    ensures { Meets (payment_dates_of (sets_of days.now) s.now layout.now) result }
{
    let (boundaries, moved) = (&layout.unadjusted, &layout.adjusted);
    let payments = payments(alloc, s, &layout.span, boundaries, moved, days.payment)?;
    check_steps(s, boundaries)?;
    Ok(payments)
}

// What is dated over the boundaries. `Broken` is the first of the rules of payments, steps, exchanges
// and resets, in this order.
fn events_over(
    alloc: Global,
    s: &Stream,
    layout: &Layout,
    days: &StreamDays<'_>,
    fix: &Fixings,
) -> Result<StreamEvents, Stopped<Fault>>
    requires lawful { IsLawfulStream s.now }
    requires kept { (cal : List Section) × TermsKept cal s.now }
    requires layout { (layout_of (sets_of days.now) s.now).Answers layout.now }
    ensures meets { Meets (events_of (sets_of days.now) fix.now s.now layout.now) result }
    ensures rates { IfOk result (λ e. HasRates s.now.leg (length layout.now.adjusted - 1) e.resets e.rates) }
{
    let payments = payment_dates(alloc, s, layout, days)?;
    let exchanges = principals(alloc, s, days.payment)?;
    let observed = observed_resets(alloc, s, layout, days, fix)?;
    Ok(StreamEvents {
        payments,
        exchanges,
        resets: observed.resets,
        rates: observed.rates,
    })
}

// The resets, and with calculation parameters the observed rates. `Broken` is the first of K37, K48, K33 and K38.
fn observed_resets(
    alloc: Global,
    s: &Stream,
    layout: &Layout,
    days: &StreamDays<'_>,
    fix: &Fixings,
) -> Result<OvernightResets, Stopped<Fault>>
    requires lawful { IsLawfulStream s.now }
    requires kept { (cal : List Section) × TermsKept cal s.now }
    requires layout { (layout_of (sets_of days.now) s.now).Answers layout.now }
    ensures meets { let sets = sets_of days.now in
        Meets (resets_in s.now.leg (resets_over sets s.now layout.now) sets.applicable fix.now) result }
    ensures rates { IfOk result (λ x. HasRates s.now.leg (length layout.now.adjusted - 1) x.resets x.rates) }
{
    match &s.leg {
        Leg::Fixed(_) => resets_alone(alloc, s, layout, days, fix),
        Leg::Floating(float) => floating_resets(alloc, s, float, layout, days, fix),
    }
}

// Those of a floating stream.
fn floating_resets(
    alloc: Global,
    s: &Stream,
    float: &FloatTerms,
    layout: &Layout,
    days: &StreamDays<'_>,
    fix: &Fixings,
) -> Result<OvernightResets, Stopped<Fault>>
    requires lawful { IsLawfulStream s.now }
    requires kept { (cal : List Section) × TermsKept cal s.now }
    requires layout { (layout_of (sets_of days.now) s.now).Answers layout.now }
    requires leg { s.now.leg ≡ OfFloating float.now }
    ensures meets { let sets = sets_of days.now in
        Meets (resets_by float.now float.now.parameters (resets_over sets s.now layout.now) sets.applicable fix.now)
        result }
    ensures rates { IfOk result (λ x. HasRates s.now.leg (length layout.now.adjusted - 1) x.resets x.rates) }
{
    let (span, moved) = (&layout.span, &layout.adjusted);
    match &float.parameters {
        None => resets_alone(alloc, s, layout, days, fix),
        Some(parameters) => overnight_resets(
            alloc,
            s,
            float,
            parameters,
            span,
            moved,
            days.reset,
            days.fixing,
            days.applicable,
            fix,
        ),
    }
}

// The resets of a stream without calculation parameters.
fn resets_alone(
    alloc: Global,
    s: &Stream,
    layout: &Layout,
    days: &StreamDays<'_>,
    fix: &Fixings,
) -> Result<OvernightResets, Stopped<Fault>>
    requires lawful { IsLawfulStream s.now }
    requires kept { (cal : List Section) × TermsKept cal s.now }
    requires layout { (layout_of (sets_of days.now) s.now).Answers layout.now }
    requires daily { is_daily s.now.leg ≡ false }
    ensures meets { Meets (resets_alone (resets_over (sets_of days.now) s.now layout.now) fix.now) result }
    ensures rates { IfOk result (λ x. HasRates s.now.leg (length layout.now.adjusted - 1) x.resets x.rates) }
{
    let moved = &layout.adjusted;
    let resets = resets(alloc, s, &layout.span, moved, days.reset, days.fixing, fix)?;
    Ok(OvernightResets {
        resets,
        rates: OvernightRates::new(alloc),
    })
}

// The payments with their amounts. `Broken` is K39.
fn entries_over(
    alloc: Global,
    s: &Stream,
    layout: &Layout,
    events: &StreamEvents,
) -> Result<PaymentEntries, Stopped<Fault>>
    requires lawful { IsLawfulStream s.now }
    requires kept { (cal : List Section) × TermsKept cal s.now }
    requires laid { (sets : StreamSets) × (layout_of sets s.now).Answers layout.now }
    requires covers { Covers 1 events.now.payments (length layout.now.unadjusted - 1) }
    requires rates { HasRates s.now.leg (length layout.now.adjusted - 1) events.now.resets events.now.rates }
    ensures meets { let dates = layout_dates s.now layout.now events.now.resets events.now.rates in
        Meets (with_factors passed_at events.now.rates (entries_of dates events.now.payments)) result }
    ensures bounds { IfOk result (Every (HasAmount s.now.currency)) }
{
    let table = PeriodTable {
        unadjusted: layout.unadjusted.as_slice(),
        adjusted: layout.adjusted.as_slice(),
        resets: events.resets.as_slice(),
        rates: events.rates.as_slice(),
    };
    paid_within(alloc, s, &table, events.payments.as_slice())
}
