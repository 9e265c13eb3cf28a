//! The rules of a swap's terms, K10 to K21 and K47: the first that is broken, with its place.
#![tactic(auto)]

mod centers;
mod date_order;
mod day_types;
mod faults;
mod frequencies;
mod known_centers;
mod legs;
mod multiples;
mod parameters;
mod payment_dates;
mod references;
mod step_dates;
mod terms;

pub use parameters::applicable_names;
pub use terms::{check_terms, terms_are_determined};
