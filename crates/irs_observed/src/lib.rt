//! The observed rate of a calculation period by daily rates, compounded or averaged, with lookback,
//! observation shift and lockout.
#![tactic(auto)]

mod averages;
mod daily;
mod daily_resets;
mod factors;
mod members;
mod method;
mod observation;
mod order;
mod origin;
mod overnight_rate;
mod overnight_rates;
mod period;
mod period_rates;
mod products;
mod rate_laws;
mod rates;
mod running;
mod walk;

pub use daily::{daily_rate, daily_rate_near};
pub use daily_resets::{OvernightResets, overnight_resets, overnight_resets_are_determined};
pub use method::{DailyRateMethod, YearDays};
pub use observation::{NoObservations, Observation, ObservationList};
pub use order::earlier_fault;
pub use origin::{RateOrigin, own_rate, rate_origin};
pub use overnight_rate::{OvernightRate, OvernightRates};
pub use overnight_rates::method_by;
pub use period::{Ends, observation_period, observations_reach_each_day};
pub use period_rates::{period_rate, printed_rate};
pub use rate_laws::rates_keep_their_range;
pub use rates::{FactorOutOfRange, ObservedRate, observed_rate};
pub use running::{rate_before, rate_before_is_determined};
pub use walk::{observations, observations_are_determined};
