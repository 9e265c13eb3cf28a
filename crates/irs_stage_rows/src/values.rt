//! The values that rows give: fractions, rates, decimals and tenors.
ghost use Rattle.std.specs.Prelude.{◌≤◌, IfSome};

use irs_base::{Dec, read_dec};
use irs_elements::codes::tenor_unit;
use irs_terms::{Frac, Frequency};

/// The most decimals of an amount.
const MOST_DECIMALS: usize = 12;

/// A fraction as `90/360`.
pub fn fraction_of(text: &str) -> Option<Frac> {
    let (num, den) = text.split_once('/')?;
    Some(Frac {
        num: num.parse::<i64>().ok()?,
        den: den.parse::<i64>().ok()?,
    })
}

/// A rate in units of 10^-9; it may be out of range.
pub fn rate_of(text: &str) -> Option<i64> {
    let rate = read_dec(text.as_bytes(), 9)?;
    i64::try_from(rate).ok()
}

// How many decimals a text has.
fn places_of(text: &str) -> Option<u8>
    ensures { IfSome result (λ places. places ≤ 12) }
{
    let Some((_, decimals)) = text.split_once('.') else {
        return Some(0);
    };
    if decimals.len() > MOST_DECIMALS {
        return None;
    }
    Some(decimals.len() as u8)
}

/// An amount with as many decimals as its text has.
pub fn amount_of(text: &str) -> Option<Dec>
    ensures { IfSome result (λ amount. amount.places ≤ 12) }
{
    let places = places_of(text)?;
    let units = read_dec(text.as_bytes(), places)?;
    Some(Dec { units, places })
}

/// A tenor as `3 M`; `-` is none.
pub fn tenor_of(text: &str) -> Option<Option<Frequency>> {
    let Some((count, letter)) = text.split_once(' ') else {
        return Some(None);
    };
    Some(Some(Frequency {
        count: count.parse::<u16>().ok()?,
        unit: tenor_unit(letter)?,
    }))
}
