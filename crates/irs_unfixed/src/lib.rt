//! Which payments of a schedule have no amount because a fixing is missing, and the fixing that the first of
//! them lacks.
#![tactic(auto)]

mod counts;
mod days;
mod laws;
mod lines;
mod missing;
mod needed;
mod periods;
mod places;

pub use counts::{payment_count, unfixed_count};
pub use laws::first_missing_is_determined;
pub use missing::{Missing, first_missing};
pub use places::PaymentPlace;
