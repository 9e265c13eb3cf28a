//! The text of `observations`: the days that each rate of a stream with `calculationParameters` is made of.
//! No standard has such a text, so its format is our rule.
ghost use Rattle.std.specs.Prelude.{◌≡◌, ◌-◌, ◌<◌, ◌≤◌, Some, None, length, slice_get, IfOk, IfErr, IfSome, IfNone};
ghost use Rattle.irs_answers.specs.Tasks.{accruing, AreRowsIn, DailyStream, IsDailyAt, observations_of};
ghost use Rattle.irs_answers.specs.Tasks.{no_daily_stream as no_daily_stream_of};
ghost use Rattle.irs_answers.specs.Private.Outcomes.{IsAccruing, daily_stream, MeetsReply, IsCarriedOut, NoneUnread};

use crate::due::Found;
use crate::refusals::Refusal;
use crate::replies::Reply;
use irs_base::{Memory, Stopped};
use irs_daily::{ObservedRows, observations_text, observed_rows};
use irs_overnight::stream_at;
use irs_periods::span_of;
use irs_schedule::{Schedule, StreamPart, applicable_days};
use irs_terms::{Broken, CalculationParameters, Elem, Fault, FloatTerms, Leg, Rule, Stream, Swap};
use std::alloc::Global;

/// The days that each rate of the stream with that number is made of.
pub(crate) fn observations_answer(
    alloc: Global,
    number: u8,
    found: &Found<'_>,
) -> Result<Reply, Refusal>
    requires { IsAccruing (accruing found.now.swap found.now.calendars.now found.now.fixings.now) found.now.schedule }
    ensures meets { let x = accruing found.now.swap found.now.calendars.now found.now.fixings.now in
        MeetsReply (observations_of number x found.now.schedule) result }
    ensures carried { IfOk result IsCarriedOut }
    ensures placed { NoneUnread result }
{
    let (stream, float, parameters) = daily(&found.swap, number)?;
    let rows = rows_of(alloc, number, found, stream, float, parameters)?;
    let text = observations_text(alloc, number, &rows)?;
    Ok(Reply::Text(text))
}

// The rows of a stream that has its part of the schedule.
fn rows_of(
    alloc: Global,
    number: u8,
    found: &Found<'_>,
    stream: &Stream,
    float: &FloatTerms,
    parameters: &CalculationParameters,
) -> Result<ObservedRows, Memory>
    requires made { IsAccruing (accruing found.now.swap found.now.calendars.now found.now.fixings.now) found.now.schedule }
    requires daily { IsDailyAt found.now.swap number (daily_stream stream.now float.now parameters.now) }
    ensures { let x = accruing found.now.swap found.now.calendars.now found.now.fixings.now in
        IfOk result (AreRowsIn number x found.now.schedule (daily_stream stream.now float.now parameters.now)) }
{
    let part = part_at(&found.schedule, number);
    let span = span_of(stream);
    let days = applicable_days(alloc, found.calendars, stream)?;
    match observed_rows(
        alloc,
        stream,
        float,
        parameters,
        &span,
        part.adjusted(),
        &days,
        found.fixings,
    ) {
        Ok(rows) => Ok(rows),
        Err(Stopped::Broken(_)) => unreachable!(),
        Err(Stopped::Memory) => Err(Memory),
    }
}

// The part of the schedule of the stream with that number, from 1.
fn part_at(schedule: &Schedule, number: u8) -> &StreamPart
    requires low { 1 ≤ number }
    requires high { number - 1 < length schedule.now }
    ensures { slice_get schedule.now (number - 1) ≡ Some result.now }
{
    &schedule.streams()[number as usize - 1]
}

// The stream with that number, from 1, with its terms and its `calculationParameters`; K49 where there is none.
fn daily(swap: &Swap, number: u8) -> Result<(&Stream, &FloatTerms, &CalculationParameters), Broken>
    ensures some { IfOk result (λ p. IsDailyAt swap.now number (daily_stream p.0.now p.1.now p.2.now)) }
    ensures none { IfErr result (λ _. (x : DailyStream) → IsDailyAt swap.now number x → ⊥) }
    ensures broken { IfErr result (λ b. b ≡ no_daily_stream_of number) }
{
    match daily_at(swap, number) {
        Some(found) => Ok(found),
        None => Err(no_daily_stream(number)),
    }
}

// K49 of the stream with that number.
fn no_daily_stream(number: u8) -> Broken
    ensures { result ≡ no_daily_stream_of number }
{
    let fault = Fault {
        rule: Rule::K49,
        elem: Elem::SWAP_STREAM,
        index: 0,
    };
    fault.in_stream(number)
}

// The stream with that number, from 1, with its terms and its `calculationParameters`.
fn daily_at(swap: &Swap, number: u8) -> Option<(&Stream, &FloatTerms, &CalculationParameters)>
    ensures some { IfSome result (λ p. IsDailyAt swap.now number (daily_stream p.0.now p.1.now p.2.now)) }
    ensures none { IfNone result ((x : DailyStream) → IsDailyAt swap.now number x → ⊥) }
{
    let stream = stream_at(swap, number)?;
    match &stream.leg {
        Leg::Floating(float) => with_parameters(stream, float),
        Leg::Fixed(_) => None,
    }
}

// The stream, its terms and its `calculationParameters`, where it has them.
fn with_parameters<'a>(
    stream: &'a Stream,
    float: &'a FloatTerms,
) -> Option<(&'a Stream, &'a FloatTerms, &'a CalculationParameters)>
    ensures some { IfSome result
        (λ p. (p.0.now ≡ stream.now) × (p.1.now ≡ float.now) × (float.now.parameters ≡ Some p.2.now)) }
    ensures none { IfNone result (float.now.parameters ≡ None) }
{
    match &float.parameters {
        Some(parameters) => Some((stream, float, parameters)),
        None => None,
    }
}
