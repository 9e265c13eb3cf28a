//! Daily rates compounded over the calculation periods of a floating stream: one rate a period, as
//! the lines of a fixing file.
#![tactic(auto)]

mod compounding;
mod derived;
mod factors;
mod observations;
mod periods;
mod precisions;
mod rules;
mod starts;
mod streams;
mod texts;

pub use compounding::{DerErr, overnight};
pub use derived::{Derived, DerivedRow, Found};
pub use observations::{Observation, first_absent};
pub use periods::fixing_date;
pub use precisions::precisions_agree;
pub use rules::{first_unrising, unrising};
pub use starts::{days_ahead, days_between};
pub use streams::{check_stream, floating_at, stream_at};
pub use texts::{derived_text, rates_read_back};
