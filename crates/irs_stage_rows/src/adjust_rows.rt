//! What is reported of a day that is adjusted: the day that it becomes, or `none`.
//!
//! It is adjusted by a convention, as `FOLLOWING`, or by business days, as `-2 Business`.
use crate::telling::Told;
use irs_adjust::{adjust_by, move_by};
use irs_base::Day;
use irs_calendar::RunSet;
use irs_elements::codes::convention;
use irs_terms::{DayKind, Offset};

// The days of an offset by business days.
fn offset_of(text: &str) -> Option<i16> {
    text.strip_suffix(" Business")?.parse::<i16>().ok()
}

/// The day that a day becomes.
pub fn adjusted_told(told: &mut Told, days: &RunSet, how: &str, d: Day) -> Option<()> {
    let adjusted = match convention(how) {
        Some(code) => adjust_by(code, days, d),
        None => {
            let off = Offset {
                days: offset_of(how)?,
                kind: DayKind::Business,
            };
            move_by(off, days, d)
        }
    };
    told.given_day("", adjusted);
    Some(())
}
