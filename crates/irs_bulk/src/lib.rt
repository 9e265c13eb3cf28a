//! `bulk`: documents that differ in dates, convention, notional, rate and day count, the calendar
//! of their centre, and the sums over their schedules. A run prints the sums. All of it is our
//! rule.
#![tactic(auto)]

mod digits;
mod documents;
mod holidays;
mod runs;
mod summing;
mod totals;

pub use documents::{MOST_BULK, bulk_doc, bulk_limit};
pub use holidays::bulk_calendar;
pub use runs::bulk;
pub use totals::{Totals, bulk_text};
