//! What has accrued on a day in a stream of a schedule, and its line.
#![tactic(auto)]

mod accruals;
mod daily;
mod interest;
mod running;
mod shares;
mod streams;
mod texts;

pub use accruals::{Accrual, accrued};
pub use streams::{accrued_of, accrued_of_is_determined};
pub use texts::accrued_text;
