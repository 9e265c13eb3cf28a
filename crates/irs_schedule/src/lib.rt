//! The schedule of a swap: its streams with their boundaries, payments, periods and resets, its
//! rows in order, and their texts.
#![tactic(auto)]

mod amounts;
mod center_days;
mod center_table;
mod entries;
mod kept_terms;
mod layouts;
mod making;
mod periods;
mod row;
mod schedule;
mod stream;
mod streams;
mod texts;
mod views;
mod walking;

pub use center_days::{CenterDays, applicable_days, reset_days};
pub use center_table::CenterTable;
pub use entries::{PaymentEntry, PeriodEntry};
pub use making::{SchedErr, find_centers, make_schedule, make_schedule_by, schedule_is_determined};
pub use row::Row;
pub use schedule::{Rows, Schedule};
pub use streams::StreamPart;
pub use texts::{put_frac, put_optional, row_text};
pub use views::CalculationPeriod;
