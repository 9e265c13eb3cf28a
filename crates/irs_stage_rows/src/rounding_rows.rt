//! What is reported of a fraction that is rounded: the whole number that it becomes.
//!
//! A row gives the direction, then the fraction.
use crate::telling::Told;
use crate::values::fraction_of;
use irs_base::round;
use irs_elements::codes::direction;

/// The greatest numerator and denominator of a row.
const MOST: u64 = 1_000;

/// The whole number that a fraction becomes.
pub fn rounding_lines(told: &mut Told, row: &str) -> Option<()> {
    let (name, fraction) = row.split_once(' ')?;
    let (direction, frac) = (direction(name)?, fraction_of(fraction)?);
    if frac.den <= 0 || frac.den.unsigned_abs() > MOST || frac.num.unsigned_abs() > MOST {
        return None;
    }
    let whole = round(direction, i128::from(frac.num), i128::from(frac.den));
    told.number("", whole);
    told.end();
    Some(())
}
