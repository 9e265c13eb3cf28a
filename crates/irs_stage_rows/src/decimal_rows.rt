//! What is reported of a text that may spell a decimal: its number of units of the last decimal, or
//! `none`.
//!
//! A row gives the text, then the number of decimals.
use crate::telling::Told;
use irs_base::read_dec;

/// The units of a decimal.
pub fn decimal_lines(told: &mut Told, row: &str) -> Option<()> {
    let (text, places) = row.split_once(" | ")?;
    let places = places.parse::<u8>().ok()?;
    if places > 12 {
        return None;
    }
    told.given_number(read_dec(text.as_bytes(), places));
    Some(())
}
