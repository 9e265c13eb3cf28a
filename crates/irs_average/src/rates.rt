//! The arithmetic of rates, in units of 10^-9: what is summed is kept in 128 bits.
ghost use Rattle.std.specs.Prelude.{◌≡◌, ◌*◌, ◌^◌, ◌<◌, ◌≤◌, ◌*ℤ◌, unsigned_abs};
ghost use Rattle.irs_base.specs.Days.{all_days};
ghost use Rattle.irs_terms.specs.Lawful.{IsRate};

/// A rate, or how far two of them are apart, over a number of days.
pub(crate) fn over_days(rate: i64, days: i64) -> i128
    requires rate { unsigned_abs rate ≤ 2 * 10 ^ 10 }
    requires days { unsigned_abs days < all_days }
    ensures value { result ≡ rate *ℤ days }
    ensures size { unsigned_abs result ≤ 2 * 10 ^ 10 * all_days }
{
    i128::from(rate) * i128::from(days)
}

/// A rate of at most 10 in size in 64 bits.
pub(crate) fn as_rate(rate: i128) -> i64
    requires { IsRate rate }
    ensures value { result ≡ rate }
    ensures small { IsRate result }
{
    rate as i64
}
