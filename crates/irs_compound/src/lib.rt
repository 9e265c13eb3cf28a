//! Rates of calculation periods and amounts of payments: the 2006 ISDA Definitions, articles 5, 6
//! and 8.
#![tactic(auto)]

mod amounts;
mod balances;
mod compounding;
mod interest;
mod overnight;
mod payments;
mod periods;
mod products;
mod rates;
mod rising_rates;
mod rising_steps;
mod step_counts;
mod step_values;

pub use compounding::{Compounding, Flat, OutOfRange, Simple, SpreadExclusive, Straight};
pub use overnight::{overnight_rates_are_determined, rates_of_period};
pub use payments::{payment_amount, payment_amount_is_bounded, payment_amount_is_determined};
pub use periods::{Parts, PeriodTerm, Rates};
pub use rates::period_rates;
pub use rising_rates::{rates_are_determined, rates_of_rising};
pub use rising_steps::{in_force_of_rising, value_in_force_is_determined};
