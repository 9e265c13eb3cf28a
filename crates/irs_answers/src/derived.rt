//! The tasks that derive rates for a floating stream from the file of fixings: their own rules, and the
//! fixing file that is printed.
ghost use Rattle.std.specs.Prelude.{◌≡◌, ◌≤◌, None, length, IfOk, IfErr, IfSome, IfNone};
ghost use Rattle.irs_base.specs.Limits.{most_index};
ghost use Rattle.irs_terms.specs.Lawful.{IsLawfulTenor};
ghost use Rattle.irs_average.specs.Averages.{most_step};
ghost use Rattle.irs_overnight.specs.Overnight.{no_floating_stream};
ghost use Rattle.irs_overnight.specs.Texts.{file_text};
ghost use Rattle.irs_answers.specs.Derived.{FloatingStream, IsFloatingAt, average_of, interpolate_of, overnight_of};
ghost use Rattle.irs_answers.specs.Private.Outcomes.{IsUnfixedSchedule, MeetsReply, IsCarriedOut, NoneUnread};

use crate::due::Found;
use crate::refusals::Refusal;
use crate::replies::Reply;
use irs_average::{Mean, Side, average, interpolate, stub_index};
use irs_base::{Line, Memory, Text};
use irs_overnight::{DerivedRow, check_stream, derived_text, overnight, stream_at};
use irs_schedule::reset_days;
use irs_terms::{Broken, FloatTerms, Frequency, Leg, Stream, Swap};
use std::alloc::Global;

/// The rates that daily rates give for the stream with that number.
pub(crate) fn overnight_answer(
    alloc: Global,
    number: u8,
    found: &Found<'_>,
) -> Result<Reply, Refusal>
    requires { IsUnfixedSchedule found.now.swap found.now.calendars.now found.now.schedule }
    ensures meets { MeetsReply
        (overnight_of number found.now.swap found.now.calendars.now found.now.fixings.now found.now.schedule) result }
    ensures carried { IfOk result IsCarriedOut }
    ensures placed { NoneUnread result }
{
    let swap = &found.swap;
    let (stream, float) = floating(swap, number)?;
    let days = reset_days(alloc, found.calendars, stream)?;
    let rows = overnight(alloc, &found.schedule, swap, number, &days, found.fixings)?;
    let text = fixings_page(alloc, rows.as_slice(), float.tenor, &float.index)?;
    Ok(Reply::Text(text))
}

/// The averages of the rates of the stream with that number.
pub(crate) fn average_answer(
    alloc: Global,
    number: u8,
    mean: Mean,
    step: u32,
    found: &Found<'_>,
) -> Result<Reply, Refusal>
    requires some { 1 ≤ step }
    requires few { step ≤ most_step }
    requires unfixed { IsUnfixedSchedule found.now.swap found.now.calendars.now found.now.schedule }
    ensures meets { let f = found.now in
        MeetsReply (average_of number mean step f.swap f.calendars.now f.fixings.now f.schedule) result }
    ensures carried { IfOk result IsCarriedOut }
    ensures placed { NoneUnread result }
{
    let (swap, schedule) = (&found.swap, &found.schedule);
    let (stream, float) = floating(swap, number)?;
    let days = reset_days(alloc, found.calendars, stream)?;
    // hands the prover the bounds of the schedule
    schedule.bounds();
    let rows = average(
        alloc,
        schedule,
        swap,
        number,
        mean,
        step,
        &days,
        found.fixings,
    )?;
    let text = fixings_page(alloc, rows.as_slice(), float.tenor, &float.index)?;
    Ok(Reply::Text(text))
}

/// The rate of the stub of the stream with that number, on a side, between those of two tenors.
pub(crate) fn interpolate_answer(
    alloc: Global,
    number: u8,
    side: Side,
    low: Frequency,
    high: Frequency,
    found: &Found<'_>,
) -> Result<Reply, Refusal>
    requires low { IsLawfulTenor low }
    requires high { IsLawfulTenor high }
    requires unfixed { IsUnfixedSchedule found.now.swap found.now.calendars.now found.now.schedule }
    ensures meets { MeetsReply
        (interpolate_of number side low high found.now.swap found.now.fixings.now found.now.schedule) result }
    ensures carried { IfOk result IsCarriedOut }
    ensures placed { NoneUnread result }
{
    let swap = &found.swap;
    floating(swap, number)?;
    let row = interpolate(
        &found.schedule,
        swap,
        number,
        side,
        low,
        high,
        found.fixings,
    )?;
    let Some((index, tenor)) = stub_index(swap, number, side) else {
        unreachable!()
    };
    Ok(Reply::Text(fixings_page(alloc, &[row], tenor, index)?))
}

// The floating stream with that number, from 1, and what it pays; K40 where there is none, or where it has
// `calculationParameters`.
fn floating(swap: &Swap, number: u8) -> Result<(&Stream, &FloatTerms), Broken>
    ensures floats { IfOk result (λ p. IsFloatingAt swap.now number (record { stream = p.0.now; float = p.1.now })) }
    ensures none { IfErr result (λ _. (x : FloatingStream) → IsFloatingAt swap.now number x → ⊥) }
    ensures broken { IfErr result (λ b. b ≡ no_floating_stream number) }
{
    if let Some(broken) = check_stream(swap, number) {
        return Err(broken);
    }
    match floating_at(swap, number) {
        Some(found) => Ok(found),
        None => unreachable!(),
    }
}

// The floating stream with that number, from 1, and what it pays; none where it has
// `calculationParameters`.
fn floating_at(swap: &Swap, number: u8) -> Option<(&Stream, &FloatTerms)>
    ensures some { IfSome result (λ p. IsFloatingAt swap.now number (record { stream = p.0.now; float = p.1.now })) }
    ensures none { IfNone result ((x : FloatingStream) → IsFloatingAt swap.now number x → ⊥) }
{
    let stream = stream_at(swap, number)?;
    match &stream.leg {
        Leg::Floating(float) => plain(stream, float),
        Leg::Fixed(_) => None,
    }
}

// The stream and its terms, where it has no `calculationParameters`.
fn plain<'a>(stream: &'a Stream, float: &'a FloatTerms) -> Option<(&'a Stream, &'a FloatTerms)>
    ensures some { IfSome result (λ p. (p.0.now ≡ stream.now) × (p.1.now ≡ float.now) × (float.now.parameters ≡ None)) }
    ensures none { IfNone result (float.now.parameters ≡ None → ⊥) }
{
    match float.parameters {
        None => Some((stream, float)),
        Some(_) => None,
    }
}

// A fixing file of derived rates.
fn fixings_page(
    alloc: Global,
    rows: &[DerivedRow],
    tenor: Option<Frequency>,
    index: &Text,
) -> Result<Vec<u8>, Memory>
    requires { length index.now ≤ most_index }
    ensures { IfOk result (λ t. t.items ≡ file_text rows.now tenor index.now) }
{
    let mut text = Vec::from_slice(alloc, b"# irs-fixings 1\n")?;
    let mut line = Line::new();
    for row in rows {
        derived_text(row, tenor, index, &mut line);
        text.extend_from_slice(line.bytes())?;
    }
    Ok(text)
}
