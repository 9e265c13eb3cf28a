//! What a balance earns in a period: balance times rate times fraction.
ghost use Rattle.std.specs.Prelude.{◌≡◌, ◌*◌, ◌≤◌, ◌*ℤ◌, unsigned_abs};
ghost use Rattle.irs_base.specs.Limits.{most_rate};
ghost use Rattle.irs_compound.specs.Amounts.{IsDayCountFraction, Interest};
ghost use Rattle.irs_compound.specs.Private.AmountLaws.{most_balance, most_product};

use crate::products::product;
use irs_base::{Direction, round};
use irs_terms::Frac;

/// What a balance earns in a period, exactly, over the denominator of the fraction.
pub fn earned(balance: i128, rate: i64, frac: Frac) -> i128
    // Times a numerator and doubled, as rounding needs, it is at most 1.32 * 10^38, and 2^127 is above
    // 1.7 * 10^38.
    requires product_fits { unsigned_abs balance * unsigned_abs rate ≤ most_balance * most_rate }
    requires fraction_fits { IsDayCountFraction frac }
    ensures value { result ≡ balance *ℤ rate *ℤ frac.num }
    ensures size { unsigned_abs result ≤ most_product }
{
    product(product(balance, i128::from(rate)), i128::from(frac.num))
}

/// What a balance earns in a period, to the nearest unit of the balance.
pub fn interest(balance: i128, rate: i64, frac: Frac) -> i128
    requires product_fits { unsigned_abs balance * unsigned_abs rate ≤ most_balance * most_rate }
    requires fraction_fits { IsDayCountFraction frac }
    ensures { Interest balance rate frac result }
{
    let divisor = product(i128::from(frac.den), 1_000_000_000);
    round(Direction::Nearest, earned(balance, rate, frac), divisor)
}
