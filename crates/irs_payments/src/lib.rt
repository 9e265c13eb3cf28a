//! Payments of a stream, the dates of its steps, and its principal exchanges.
#![tactic(auto)]

mod cuts;
mod dating;
mod error;
mod exchanges;
mod faults;
mod grouping;
mod payment_list;
mod steps;

pub use error::PayErr;
pub use exchanges::{principals, principals_are_determined};
pub use payment_list::{payments, payments_are_determined, payments_cover_all_periods};
pub use steps::{check_steps, steps_are_determined};
