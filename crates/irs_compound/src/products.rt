//! Products of whole numbers that fit 128 bits, and powers of ten.
ghost use Rattle.std.specs.Prelude.{◌≡◌, ◌<◌, ◌≤◌, ◌^◌, ◌*◌, pos, ◌<ℤ◌, ◌≤ℤ◌, ◌*ℤ◌, unsigned_abs};
ghost use Rattle.irs_daycount.specs.Fractions.{act_act_denominator};

use irs_base::power_of_ten;

/// A product that fits.
pub fn product(a: i128, b: i128) -> i128
    requires { unsigned_abs a * unsigned_abs b < 2 ^ 127 }
    ensures value { result ≡ a *ℤ b }
    ensures size { unsigned_abs result ≡ unsigned_abs a * unsigned_abs b }
{
    a * b
}

/// A power of ten.
pub fn ten_to(n: u8) -> i128
    requires { n ≤ 18 }
    ensures value { result ≡ pos (10 ^ n) }
    ensures above { pos 0 <ℤ result }
    ensures size { unsigned_abs result ≤ 10 ^ 18 }
{
    i128::from(power_of_ten(n))
}

/// A denominator in units of 10^-n.
pub fn finer(den: i64, n: u8) -> i128
    requires den_low { pos 1 ≤ℤ den }
    requires den_high { den ≤ℤ pos act_act_denominator }
    requires n_fits { n ≤ 18 }
    ensures value { result ≡ den *ℤ pos (10 ^ n) }
    ensures above { pos 0 <ℤ result }
    ensures size { unsigned_abs result ≤ act_act_denominator * 10 ^ 18 }
{
    product(i128::from(den), ten_to(n))
}
