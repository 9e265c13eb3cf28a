//! What is reported of a text that may spell a date: the number of its day from 1970-01-01 on, or
//! `none`.
use crate::telling::Told;
use irs_base::read_date;

/// The number of a date.
pub fn date_lines(told: &mut Told, row: &str) {
    match read_date(row.as_bytes()) {
        Some(day) => told.number("", day.number()),
        None => told.text("none"),
    }
    told.end();
}
