//! The rate of a stub between those of two tenors of its index.
ghost use Rattle.std.specs.Prelude.{◌≡◌, IfOk, IfErr, IfSome, IfNone, IsTrue};
ghost use Rattle.irs_terms.specs.declared.places.Broken.{Broken as BrokenRule};
ghost use Rattle.irs_resets.specs.Resets.{IsPeriod};
ghost use Rattle.irs_overnight.specs.Private.Bounds.{IsInRange};
ghost use Rattle.irs_overnight.specs.declared.derived.DerivedRow.{DerivedRow as Row};
ghost use Rattle.irs_average.specs.Interpolations.{BreaksStub, IsInterpolated, IsStubBroken, LiesAmongTwo, StubKept};
ghost use Rattle.irs_average.specs.Interpolations.{StubReadsBack, no_stub, outside_at, IsStubRow, LiesOutside};
ghost use Rattle.irs_average.specs.Interpolations.{IsStubAsked, stub_asked, stub_source};

use crate::stub_rates::{ends_around, found_between};
use crate::stubs::{Side, stub_index, stub_number};
use irs_base::Text;
use irs_overnight::{DerivedRow, fixing_date};
use irs_resets::Fixings;
use irs_schedule::{Schedule, StreamPart};
use irs_terms::{Broken, Elem, Fault, Frequency, Rule, Swap};

// K45.
fn without_stub() -> Fault
    ensures { result ≡ no_stub }
{
    Fault {
        rule: Rule::K45,
        elem: Elem::STUB_AMOUNT,
        index: 0,
    }
}

// K46 of the period with that number.
fn outside(number: u32) -> Fault
    ensures { result ≡ outside_at number }
{
    Fault {
        rule: Rule::K46,
        elem: Elem::STUB_AMOUNT,
        index: number,
    }
}

// The row of a stub, whose period counts from 1; `None` exactly where it doesn't end between the
// two tenors.
fn stub_row(
    part: &StreamPart,
    number: usize,
    index: &Text,
    low: Frequency,
    high: Frequency,
    fix: &Fixings,
) -> Option<DerivedRow>
    requires floating { IsTrue part.now.floating }
    requires period { IsPeriod part.now.adjusted number }
    ensures some { let source = stub_source part.now number index.now low high fix.now in
        IfSome result (IsStubRow source number) }
    ensures range { IfSome result IsInRange }
    ensures none { let source = stub_source part.now number index.now low high fix.now in
        IfNone result (LiesOutside source) }
{
    let adjusted = part.adjusted();
    let fixing = fixing_date(part, number);
    let (start, end) = (adjusted[number - 1], adjusted[number]);
    let low_rate = fix.rate_on(index, Some(low), fixing);
    let high_rate = fix.rate_on(index, Some(high), fixing);
    match ends_around(start, end, low, high) {
        Some((near, far)) => Some(DerivedRow {
            period: number as u32,
            fixing,
            found: found_between(low_rate, high_rate, near, far, end, fixing),
        }),
        None => None,
    }
}

// The row of the requested stub.
fn asked_row(
    s: &Schedule,
    swap: &Swap,
    stream: u8,
    side: Side,
    low: Frequency,
    high: Frequency,
    fix: &Fixings,
) -> Result<DerivedRow, Fault>
    requires { IsStubAsked (stub_asked swap.now stream side low high s.now fix.now) }
    ensures ok { let a = stub_asked swap.now stream side low high s.now fix.now in IfOk result (IsInterpolated a) }
    ensures range { IfOk result IsInRange }
    ensures broken { let a = stub_asked swap.now stream side low high s.now fix.now in IfErr result (BreaksStub a) }
{
    let Some((index, _)) = stub_index(swap, stream, side) else {
        return Err(without_stub());
    };
    let part = &s.streams()[stream as usize - 1];
    let number = stub_number(part, side);
    match stub_row(part, number, index, low, high, fix) {
        Some(row) => Ok(row),
        None => Err(outside(number as u32)),
    }
}

/// The rate of a floating stream's stub on a side, in units of 10^-9, with the number of its period
/// and its fixing date. Where the rate of a tenor has no line, that date comes in its place.
/// `stream` counts from 1, and `s` is the schedule of the swap without fixings. A tenor is 1 to 999
/// days, weeks, months or years.
///
/// The rate lies on the line through the rates of the two tenors of the stub's index on the fixing
/// date. Each of them is at the day on which its tenor ends. A tenor starts on the adjusted start
/// of the stub. One of months or years ends on the day of the same number, or the last day of a
/// shorter month. The rate is that at the adjusted end of the stub, rounded at 9 decimals, a half
/// up.
///
/// `Broken` is exactly K45 or else K46. By K45 the stream has a stub on that side, with a
/// `floatingRate`. By K46 both tenors end in the range of dates, the first before the second. The
/// stub ends at one of these days or between them. No memory is taken.
pub fn interpolate(
    s: &Schedule,
    swap: &Swap,
    stream: u8,
    side: Side,
    low: Frequency,
    high: Frequency,
    fix: &Fixings,
) -> Result<DerivedRow, Broken>
    // `check_stream` finds nothing, and the schedule is that of the swap.
    requires { IsStubAsked (stub_asked swap.now stream side low high s.now fix.now) }
    ensures ok { let a = stub_asked swap.now stream side low high s.now fix.now in IfOk result (IsInterpolated a) }
    // The row prints a fixing file that has exactly its rate.
    ensures fixings { let a = stub_asked swap.now stream side low high s.now fix.now in IfOk result (StubReadsBack a) }
    ensures kept { let a = stub_asked swap.now stream side low high s.now fix.now in IfOk result (λ _. StubKept a) }
    ensures broken { let a = stub_asked swap.now stream side low high s.now fix.now in IfErr result (IsStubBroken a) }
{
    // hands the prover the bounds of the schedule
    s.bounds();
    numbered_row(s, swap, stream, side, low, high, fix)
}

/// A law: where no rule is broken there is a row. There is at most one, and one broken rule.
pub fn interpolation_is_determined(
    s: &Schedule,
    swap: &Swap,
    stream: u8,
    side: Side,
    low: Frequency,
    high: Frequency,
    fix: &Fixings,
)
    requires { IsStubAsked (stub_asked swap.now stream side low high s.now fix.now) }
    ensures exists { let a = stub_asked swap.now stream side low high s.now fix.now in
        StubKept a → (row : Row) × IsInterpolated a row }
    ensures one { let a = stub_asked swap.now stream side low high s.now fix.now in
        (row other : Row) → IsInterpolated a row → IsInterpolated a other → row ≡ other }
    ensures one_broken { let a = stub_asked swap.now stream side low high s.now fix.now in
        (x y : BrokenRule) → IsStubBroken a x → IsStubBroken a y → x ≡ y }
{
    // hands the prover the row or the broken rule
    let _row = numbered_row(s, swap, stream, side, low, high, fix);
}

/// A law: the rate of a stub lies between those of the two tenors.
pub fn interpolation_lies_between_rates(
    s: &Schedule,
    swap: &Swap,
    stream: u8,
    side: Side,
    low: Frequency,
    high: Frequency,
    fix: &Fixings,
)
    ensures { let a = stub_asked swap.now stream side low high s.now fix.now in
        (row : Row) → IsInterpolated a row → LiesAmongTwo a row }
{}

// The same; a broken rule is named by the number of the stream.
fn numbered_row(
    s: &Schedule,
    swap: &Swap,
    stream: u8,
    side: Side,
    low: Frequency,
    high: Frequency,
    fix: &Fixings,
) -> Result<DerivedRow, Broken>
    requires { IsStubAsked (stub_asked swap.now stream side low high s.now fix.now) }
    ensures ok { let a = stub_asked swap.now stream side low high s.now fix.now in IfOk result (IsInterpolated a) }
    ensures range { IfOk result IsInRange }
    ensures broken { let a = stub_asked swap.now stream side low high s.now fix.now in IfErr result (IsStubBroken a) }
{
    match asked_row(s, swap, stream, side, low, high, fix) {
        Ok(row) => Ok(row),
        Err(fault) => Err(fault.in_stream(stream)),
    }
}
