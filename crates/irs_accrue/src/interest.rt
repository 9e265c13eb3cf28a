//! The simple interest of a calculation period for a fraction: notional times rate times fraction,
//! rounded once to the decimals of the currency.
ghost use Rattle.std.specs.Prelude.{◌≡◌, ◌*◌, ◌<◌, ◌≤◌, ◌^◌, pos, ◌*ℤ◌, ◌<ℤ◌, ◌≤ℤ◌, unsigned_abs};
ghost use Rattle.irs_base.specs.Days.{all_days};
ghost use Rattle.irs_base.specs.Limits.{most_numerator, most_rate};
ghost use Rattle.irs_terms.specs.Lawful.{decimals_of, IsNotional};
ghost use Rattle.irs_accrue.specs.Accruals.{IsAccrued, IsInterest};
ghost use Rattle.irs_accrue.specs.Private.Sizes.{IsSmall, most_product, most_scaled, most_divisor};

use irs_base::{Dec, Direction, MOST_RATE, round};
use irs_terms::{Currency, Frac};

/// The interest on a notional in units of 10^-4 at a rate in units of 10^-9, in the decimals of the
/// currency. `None` comes exactly where the rate isn't known or passes 10 in size.
pub(crate) fn amount_of(
    currency: Currency,
    notional: i128,
    known: Option<i64>,
    frac: Frac,
) -> Option<Dec>
    requires notional { IsNotional notional }
    requires frac { IsSmall frac }
    ensures { IsAccrued (decimals_of currency.letters) notional known frac result }
{
    let rate = known?;
    if rate.unsigned_abs() > MOST_RATE {
        return None;
    }
    Some(interest(currency.places(), notional, rate, frac))
}

fn interest(places: u8, notional: i128, rate: i64, frac: Frac) -> Dec
    requires places { places ≤ 3 }
    requires notional { IsNotional notional }
    requires rate { unsigned_abs rate ≤ most_rate }
    requires frac { IsSmall frac }
    ensures { IsInterest places notional rate frac result }
{
    let exact = earned(notional, rate, frac.num);
    Dec {
        units: round(Direction::Nearest, scaled(exact, places), divisor(frac.den)),
        places,
    }
}

// A product that fits.
fn product(a: i128, b: i128) -> i128
    requires { unsigned_abs a * unsigned_abs b < 2 ^ 127 }
    ensures value { result ≡ a *ℤ b }
    ensures size { unsigned_abs result ≡ unsigned_abs a * unsigned_abs b }
{
    a * b
}

fn ten_to(n: u8) -> i128
    requires { n ≤ 13 }
    ensures { result ≡ pos (10 ^ n) }
{
    i128::from(irs_base::power_of_ten(n))
}

// What the notional earns, times the denominator, in units of 10^-13.
fn earned(notional: i128, rate: i64, num: i64) -> i128
    requires notional { IsNotional notional }
    requires rate { unsigned_abs rate ≤ most_rate }
    requires num_low { pos 0 ≤ℤ num }
    requires num_high { num ≤ℤ pos most_numerator }
    ensures value { result ≡ notional *ℤ rate *ℤ num }
    ensures size { unsigned_abs result ≤ most_product }
{
    product(product(notional, i128::from(rate)), i128::from(num))
}

// The same in units of the currency's decimals, times 10^13.
fn scaled(exact: i128, places: u8) -> i128
    requires places { places ≤ 3 }
    requires size { unsigned_abs exact ≤ most_product }
    ensures value { result ≡ exact *ℤ pos (10 ^ places) }
    ensures size { unsigned_abs result ≤ most_scaled }
{
    product(exact, ten_to(places))
}

fn divisor(den: i64) -> i128
    requires low { pos 0 <ℤ den }
    requires high { den ≤ℤ pos all_days }
    ensures value { result ≡ den *ℤ pos (10 ^ 13) }
    ensures above { pos 0 <ℤ result }
    ensures size { unsigned_abs result ≤ most_divisor }
{
    product(i128::from(den), ten_to(13))
}
