//! Products of whole numbers that fit 128 bits, and powers of ten.
ghost use Rattle.std.specs.Prelude.{◌≡◌, ◌<◌, ◌≤◌, ◌^◌, ◌*◌, pos, ◌<ℤ◌, ◌*ℤ◌, unsigned_abs};

use irs_base::power_of_ten;

/// A product that fits.
pub(crate) fn product(a: i128, b: i128) -> i128
    requires { unsigned_abs a * unsigned_abs b < 2 ^ 127 }
    ensures value { result ≡ a *ℤ b }
    ensures size { unsigned_abs result ≡ unsigned_abs a * unsigned_abs b }
{
    a * b
}

/// A power of ten.
pub(crate) fn ten_to(n: u8) -> i128
    requires { n ≤ 9 }
    ensures value { result ≡ pos (10 ^ n) }
    ensures above { pos 0 <ℤ result }
    ensures size { unsigned_abs result ≤ 10 ^ 9 }
{
    i128::from(power_of_ten(n))
}
