//! The tenor of a line of a fixing file: `-`, or a number from 1 to 999 followed by D, W, M or Y. The
//! number has no leading zeros.
ghost use Rattle.std.specs.Prelude.{◌≡◌, ◌≤◌, IfSome};
ghost use Rattle.irs_resets.specs.FixingFiles.{digit_at, first_digit, unit_of_letter, two_digit_number, three_digits};
ghost use Rattle.irs_resets.specs.FixingFiles.{with_unit, tenor_at};

use irs_terms::{Frequency, Unit};

/// The tenor of a floating rate index (FpML `indexTenor`). An index without a tenor, such as an
/// overnight rate, has `None`, which is written `-`.
pub type IndexTenor = Option<Frequency>;

fn digit(b: u8) -> Option<u16>
    ensures value { result ≡ digit_at b }
    ensures small { IfSome result (λ n. n ≤ 9) }
{
    if b'0' <= b && b <= b'9' {
        Some(u16::from(b - b'0'))
    } else {
        None
    }
}

// The first digit of a number, which is not zero.
fn leading(b: u8) -> Option<u16>
    ensures value { result ≡ first_digit b }
    ensures small { IfSome result (λ n. n ≤ 9) }
{
    if b == b'0' { None } else { digit(b) }
}

fn two(a: u8, b: u8) -> Option<u16>
    ensures { result ≡ two_digit_number a b }
{
    let (Some(x), Some(y)) = (leading(a), digit(b)) else {
        return None;
    };
    Some(10 * x + y)
}

fn three(a: u8, b: u8, c: u8) -> Option<u16>
    ensures { result ≡ three_digits a b c }
{
    let (Some(x), Some(y), Some(z)) = (leading(a), digit(b), digit(c)) else {
        return None;
    };
    Some(100 * x + 10 * y + z)
}

fn unit(b: u8) -> Option<Unit>
    ensures { result ≡ unit_of_letter b }
{
    match b {
        b'D' => Some(Unit::D),
        b'W' => Some(Unit::W),
        b'M' => Some(Unit::M),
        b'Y' => Some(Unit::Y),
        _ => None,
    }
}

fn frequency(count: Option<u16>, unit: Option<Unit>) -> Option<IndexTenor>
    ensures { result ≡ with_unit count unit }
{
    match (count, unit) {
        (Some(count), Some(unit)) => Some(Some(Frequency { count, unit })),
        (Some(_), None) | (None, _) => None,
    }
}

/// The tenor that a word spells: the inner `None` is `-`, the outer `None` is no tenor.
pub fn tenor(word: &[u8]) -> Option<IndexTenor>
    ensures { result ≡ tenor_at word.now }
{
    match word {
        [b'-'] => Some(None),
        [a, u] => frequency(leading(*a), unit(*u)),
        [a, b, u] => frequency(two(*a, *b), unit(*u)),
        [a, b, c, u] => frequency(three(*a, *b, *c), unit(*u)),
        _ => None,
    }
}
