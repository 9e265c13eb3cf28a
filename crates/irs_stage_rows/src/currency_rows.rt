//! What is reported of a currency: how many decimals its amounts have.
use crate::telling::Told;
use irs_elements::words::currency;

/// The decimals of a currency.
pub fn currency_lines(told: &mut Told, row: &str) -> Option<()> {
    let currency = currency(row.as_bytes())?;
    told.number("", currency.places());
    told.end();
    Some(())
}
