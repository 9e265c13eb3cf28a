//! The rate of a stub on the line through the rates of two tenors (2006 ISDA Definitions, section
//! 8.3, linear interpolation). The rounding is our rule, and so is that no rate is extrapolated.
ghost use Rattle.std.specs.Prelude.{◌≡◌, ◌↔◌, IsTrue, ◌+◌, ◌*◌, ◌^◌, ◌<◌, ◌≤◌, ℤ, Some, IfSome, IfNone, pos, ◌<ℤ◌};
ghost use Rattle.std.specs.Prelude.{◌≤ℤ◌, ◌+ℤ◌, ◌-ℤ◌, ◌*ℤ◌, unsigned_abs};
ghost use Rattle.irs_base.specs.Days.{all_days};
ghost use Rattle.irs_base.specs.Limits.{Rounded};
ghost use Rattle.irs_base.specs.declared.rounding.Direction.TheVariants.{Nearest};
ghost use Rattle.irs_terms.specs.Lawful.{IsRate};
ghost use Rattle.irs_overnight.specs.Texts.{IsSmallFound};
ghost use Rattle.irs_average.specs.Interpolations.{IsFoundBetween, LiesBetween};

use crate::rates::{as_rate, over_days};
use crate::tenor_ends::tenor_end;
use irs_base::{Day, Direction, round};
use irs_overnight::{Found, days_between};
use irs_terms::Frequency;

// Whether the days lie in order, and the end of the stub is one of them or lies between.
fn are_around(near: Day, far: Day, end: Day) -> bool
    ensures { IsTrue result ↔ (near <ℤ far) × (near ≤ℤ end) × (end ≤ℤ far) }
{
    near < far && near <= end && end <= far
}

/// The days on which two tenors end. `None` comes exactly where they don't lie in range and in
/// order, or the end of the stub doesn't lie between them.
pub(crate) fn ends_around(
    start: Day,
    end: Day,
    low: Frequency,
    high: Frequency,
) -> Option<(Day, Day)>
    ensures some { IfSome result (λ ends. LiesBetween start end low high ends.0 ends.1) }
    ensures none { IfNone result ((near far : ℤ) → LiesBetween start end low high near far → ⊥) }
{
    let (Some(near), Some(far)) = (tenor_end(start, low), tenor_end(start, high)) else {
        return None;
    };
    if are_around(near, far, end) {
        return Some((near, far));
    }
    None
}

// By how much one rate is above another.
fn rise(low: i64, high: i64) -> i64
    requires low { IsRate low }
    requires high { IsRate high }
    ensures value { result ≡ high -ℤ low }
    ensures size { unsigned_abs result ≤ 2 * 10 ^ 10 }
{
    high - low
}

// The sum of two such products.
fn added(a: i128, b: i128) -> i128
    requires a { unsigned_abs a ≤ 2 * 10 ^ 10 * all_days }
    requires b { unsigned_abs b ≤ 2 * 10 ^ 10 * all_days }
    ensures value { result ≡ a +ℤ b }
    ensures size { unsigned_abs result ≤ 4 * 10 ^ 10 * all_days }
{
    a + b
}

// The value on the line through two rates that lie `width` days apart, `days` after the first;
// times the width.
fn line_value(low: i64, high: i64, width: i64, days: i64) -> i128
    requires low { IsRate low }
    requires high { IsRate high }
    requires width { unsigned_abs width < all_days }
    requires days { unsigned_abs days < all_days }
    ensures value { result ≡ low *ℤ width +ℤ (high -ℤ low) *ℤ days }
    ensures size { unsigned_abs result ≤ 4 * 10 ^ 10 * all_days }
{
    added(over_days(low, width), over_days(rise(low, high), days))
}

// A number of days above 0.
fn whole_days(days: i64) -> i128
    requires days { (pos 0 <ℤ days) × (unsigned_abs days < all_days) }
    ensures value { result ≡ days }
    ensures above { pos 0 <ℤ result }
    ensures size { unsigned_abs result < all_days }
{
    i128::from(days)
}

// The rounded rate there.
fn rounded_line(low: i64, high: i64, width: i64, days: i64) -> i128
    requires low { IsRate low }
    requires high { IsRate high }
    requires width { (pos 0 <ℤ width) × (unsigned_abs width < all_days) }
    requires days { unsigned_abs days < all_days }
    ensures { Rounded Nearest (low *ℤ width +ℤ (high -ℤ low) *ℤ days) width result }
{
    let value = line_value(low, high, width, days);
    round(Direction::Nearest, value, whole_days(width))
}

// The rounded rate, as a rate.
fn on_line(low: i64, high: i64, width: i64, days: i64) -> i64
    requires low { IsRate low }
    requires high { IsRate high }
    requires width { (pos 0 <ℤ width) × (unsigned_abs width < all_days) }
    requires days { (pos 0 ≤ℤ days) × (days ≤ℤ width) × (unsigned_abs days < all_days) }
    ensures rounded { Rounded Nearest (low *ℤ width +ℤ (high -ℤ low) *ℤ days) width result }
    ensures small { IsRate result }
{
    as_rate(rounded_line(low, high, width, days))
}

/// What two rates give between the ends of their tenors: a rate, or the fixing date where one of
/// them is missing.
pub(crate) fn found_between(
    low: Option<i64>,
    high: Option<i64>,
    near: Day,
    far: Day,
    end: Day,
    fixing: Day,
) -> Found
    requires low { IfSome low IsRate }
    requires high { IfSome high IsRate }
    requires order { near <ℤ far }
    requires from { near ≤ℤ end }
    requires to { end ≤ℤ far }
    ensures is { IsFoundBetween low high near far end fixing result }
    ensures small { IsSmallFound result }
{
    let (Some(low), Some(high)) = (low, high) else {
        return Found::Missing(fixing);
    };
    let (width, days) = (days_between(near, far), days_between(near, end));
    Found::Rate(on_line(low, high, width, days))
}
