//! The days that make up each rate of a stream with calculation parameters. They are rows of its calculation
//! periods and of their observations, and the text of these rows.
#![tactic(auto)]

mod factors;
mod growth;
mod laws;
mod listing;
mod periods;
mod rows;
mod texts;

pub use laws::{one_list, rates_have_rows, rows_show_rates};
pub use listing::observed_rows;
pub use rows::{DayRow, NoRows, NoRowsWhy, ObservedRow, ObservedRows, PeriodRow};
pub use texts::observations_text;
