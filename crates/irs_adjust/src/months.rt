//! Whether two days lie in one calendar month.
ghost use Rattle.std.specs.Prelude.{◌↔◌, ◌≤ℤ◌, pos, IsTrue};
ghost use Rattle.irs_adjust.specs.MovedDays.{SameMonth};

use irs_base::{Day, civil_of};
use jiff_core::civil::days_in_month;

/// Both days lie in the same month of the same year.
pub fn in_same_month(a: Day, b: Day) -> bool
    ensures { IsTrue result ↔ SameMonth a b }
{
    // Most days to be adjusted are business days and stay.
    a.number() == b.number() || is_in_month_of(a, b)
}

// Whether b lies in the month of a. The days between them are added to the place of a in its month,
// and lead to a place in it.
fn is_in_month_of(a: Day, b: Day) -> bool
    ensures { IsTrue result ↔ SameMonth a b }
{
    let date = civil_of(a);
    let place = i32::from(date.day) + (b.number() - a.number());
    is_place(place, days_in_month(date.year as i16, date.month))
}

fn is_place(place: i32, length: u8) -> bool
    ensures { IsTrue result ↔ ((pos 1 ≤ℤ place) × (place ≤ℤ pos length)) }
{
    1 <= place && place <= i32::from(length)
}
