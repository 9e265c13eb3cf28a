//! Dates of calendar and fixing files: `YYYY-MM-DD` of a day in range, and nothing else.
ghost use Rattle.std.specs.Prelude.{◌≡◌, ◌<◌, ℤ, IfSome, IfNone};
ghost use Rattle.irs_base.specs.Days.{IsDay};
ghost use Rattle.irs_base.specs.Texts.{IsPlainDate, digit_pair, day_number, date_at};

use crate::{Civil, Day, day_of};

fn pair(a: u8, b: u8) -> Option<u8>
    ensures value { result ≡ digit_pair a b }
    ensures small { IfSome result (λ n. n < 100) }
{
    if b'0' <= a && a <= b'9' && b'0' <= b && b <= b'9' {
        Some(10 * (a - b'0') + (b - b'0'))
    } else {
        None
    }
}

fn day(year: u16, month: u8, day: u8) -> Option<Day>
    requires { year < 10_000 }
    ensures { result ≡ day_number year month day }
{
    day_of(Civil {
        year: i32::from(year),
        month,
        day,
    })
}

fn date_of_bytes(bytes: &[u8]) -> Option<Day>
    ensures { result ≡ date_at bytes.now }
{
    if bytes.len() != 10 || bytes[4] != b'-' || bytes[7] != b'-' {
        return None;
    }
    let (Some(century), Some(year), Some(month), Some(of_month)) = (
        pair(bytes[0], bytes[1]),
        pair(bytes[2], bytes[3]),
        pair(bytes[5], bytes[6]),
        pair(bytes[8], bytes[9]),
    ) else {
        return None;
    };
    day(100 * u16::from(century) + u16::from(year), month, of_month)
}

/// The day of a date `YYYY-MM-DD`; `None` exactly where the text is no date of a day in range.
pub fn date(bytes: &[u8]) -> Option<Day>
    ensures value { result ≡ date_at bytes.now }
    ensures some { IfSome result (IsPlainDate bytes.now) }
    ensures none { IfNone result ((d : ℤ) → IsDay d → IsPlainDate bytes.now d → ⊥) }
{
    date_of_bytes(bytes)
}
