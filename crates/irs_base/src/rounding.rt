//! Rounding to a whole number: 2006 ISDA Definitions, article 8.
//!
//! A half goes towards plus infinity, and directed rounding is towards plus or minus infinity, for
//! negative numbers too. That is our rule.
ghost use Rattle.std.specs.Prelude.{◌≡◌, ◌+◌, ◌*◌, ◌<◌, ◌≤◌, ◌^◌, pos, ◌<ℤ◌, ◌≤ℤ◌, ◌+ℤ◌, ◌*ℤ◌};
ghost use Rattle.std.specs.Prelude.{unsigned_abs};
ghost use Rattle.irs_base.specs.Limits.{Rounded, rounded};

/// Where a number between two whole numbers goes (FpML `roundingDirection`).
#[derive(Clone, Copy, Debug, PartialEq, Eq)]
pub enum Direction {
    /// The least whole number not below it.
    Up,
    /// The greatest whole number not above it.
    Down,
    /// The nearest whole number, and the greater one of two.
    Nearest,
}

// The quotient below and the rest, by one division.
fn divide(p: i128, q: i128) -> (i128, i128)
    requires divisor { pos 0 <ℤ q }
    requires fits { 2 * unsigned_abs p + unsigned_abs q < 2 ^ 127 }
    ensures sum { p ≡ q *ℤ result.0 +ℤ result.1 }
    ensures rest { (pos 0 ≤ℤ result.1) × (result.1 <ℤ q) }
    ensures small { unsigned_abs result.0 ≤ unsigned_abs p }
{
    let below = p.div_euclid(q);
    (below, p - q * below)
}

// The rest is compared with what lacks to the divisor, since twice the divisor may not fit.
fn rounded_quotient(dir: Direction, p: i128, q: i128) -> i128
    requires divisor { pos 0 <ℤ q }
    requires fits { 2 * unsigned_abs p + unsigned_abs q < 2 ^ 127 }
    ensures { Rounded dir p q result }
{
    let (below, rest) = divide(p, q);
    match dir {
        Direction::Down => below,
        Direction::Up => { if rest > 0 { below + 1 } else { below } }
        Direction::Nearest => { if rest >= q - rest { below + 1 } else { below } }
    }
}

/// `p / q`, rounded to a whole number; `q` is above 0 and `2*|p| + q` fits.
#[tactic(auto, using(crate::proofs::RoundingLaws::rounded_value))]
pub fn round(dir: Direction, p: i128, q: i128) -> i128
    requires divisor { pos 0 <ℤ q }
    requires fits { 2 * unsigned_abs p + unsigned_abs q < 2 ^ 127 }
    ensures relation { Rounded dir p q result }
    ensures value { result ≡ rounded dir p q }
{
    rounded_quotient(dir, p, q)
}
