//! The fixing that the first payment without an amount lacks.
//!
//! The rate of a calculation period is the line of an index and a tenor on its fixing date. With daily rates
//! it is that of its observation days. Where a line is absent, the rate isn't known, and neither is the amount
//! of the payment. The first such payment names the fixing to look for first: that is our rule.
ghost use Rattle.std.specs.Prelude.{◌≡◌, IfNone, IfOk, IfSome};
ghost use Rattle.irs_unfixed.specs.Unfixed.{IsFirstMissing, IsMadeFrom, PaymentLacks, missing_fixing, missing_place};
ghost use Rattle.irs_unfixed.specs.Unfixed.{made_from, EachHasAmount, UnfixedAt};

use crate::needed::needed_fixing;
use crate::periods::first_unrated;
use crate::places::{PaymentPlace, first_unfixed};
use irs_base::{Day, Memory, Text};
use irs_calendar::Calendars;
use irs_resets::Fixings;
use irs_schedule::Schedule;
use irs_terms::{Frequency, Swap};
use std::alloc::Global;

/// A payment without an amount, and the fixing that it lacks.
#[derive(Clone, Copy)]
pub struct Missing<'a> {
    /// The number of the stream, from 1.
    pub stream: u8,
    /// The number of the payment in its stream, from 1.
    pub payment: u32,
    /// The index of the fixing, in the words of the terms (FpML `floatingRateIndex`).
    pub index: &'a Text,
    /// Its tenor, where it has one (FpML `indexTenor`); of a daily rate 1D.
    pub tenor: Option<Frequency>,
    /// The day on which the rate is fixed: a fixing date, or an observation day.
    pub day: Day,
}

/// The first payment of a schedule without an amount, by stream and then by payment, with the fixing that it
/// lacks. `None` comes exactly where every payment has its amount.
///
/// The fixing is that of the payment's first calculation period whose rate isn't known. It is the line of the
/// stream's index and tenor on the fixing date of the period's reset. For a stub it may be that of others, which
/// are given for it (FpML `stubCalculationPeriodAmount`). With `calculationParameters` it is the index with the
/// tenor 1D on the first observation day that has no rate. No line of the fixings has it.
///
/// The calendars and the fixings are those by which the schedule was made. `Memory` says that memory ran out.
/// It is taken for a stream with `calculationParameters` alone.
pub fn first_missing<'a>(
    alloc: Global,
    swap: &'a Swap,
    calendars: &Calendars,
    fixings: &Fixings,
    schedule: &Schedule,
) -> Result<Option<Missing<'a>>, Memory>
    requires { IsMadeFrom (made_from swap.now calendars.now fixings.now) schedule.now }
    ensures some { let x = made_from swap.now calendars.now fixings.now in
        IfOk result (λ o. IfSome o (IsFirstMissing x schedule.now)) }
    ensures none { IfOk result (λ o. IfNone o (EachHasAmount schedule.now)) }
{
    match first_unfixed(schedule) {
        Some(place) => match missing_at(alloc, swap, calendars, fixings, schedule, place) {
            Ok(missing) => Ok(Some(missing)),
            Err(Memory) => Err(Memory),
        },
        None => Ok(None),
    }
}

// The fixing that the payment at a place lacks, which has no amount.
fn missing_at<'a>(
    alloc: Global,
    swap: &'a Swap,
    calendars: &Calendars,
    fixings: &Fixings,
    schedule: &Schedule,
    place: PaymentPlace,
) -> Result<Missing<'a>, Memory>
    requires made { IsMadeFrom (made_from swap.now calendars.now fixings.now) schedule.now }
    requires unfixed { UnfixedAt schedule.now place }
    ensures at { IfOk result (λ m. missing_place m ≡ place) }
    ensures lacks { let x = made_from swap.now calendars.now fixings.now in
        IfOk result (λ m. PaymentLacks x schedule.now place (missing_fixing m)) }
{
    let index = place.stream as usize - 1;
    let stream = &swap.streams.as_slice()[index];
    let part = &schedule.streams()[index];
    let payment = &part.payments()[place.payment as usize - 1];
    let Some(number) = first_unrated(part, payment) else {
        unreachable!()
    };
    match needed_fixing(alloc, stream, calendars, fixings, part, number) {
        Ok(needed) => Ok(Missing {
            stream: place.stream,
            payment: place.payment,
            index: needed.index,
            tenor: needed.tenor,
            day: needed.day,
        }),
        Err(Memory) => Err(Memory),
    }
}
