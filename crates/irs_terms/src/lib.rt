//! Plain data: the terms of a swap as its streams give them, and the rows that are worked out from
//! them. Also the elements by their paths, the rules that terms may break, and the places at which
//! they do. The names of the terms are those of FpML 5's InterestRateStream.
#![tactic(auto)]

mod adjustments;
mod amounts;
mod codes;
mod currency;
mod dates;
mod elements;
mod frequency;
mod lengths;
mod listed;
mod needs;
mod parameters;
mod places;
mod results;
mod step_list;
mod stream;
mod stream_list;
mod suiting;

pub use adjustments::{AdjustableDate, Adjustments, Centers, Offset};
pub use amounts::{ExchangeFlags, FloatTerms, Leg, Rounding, StubRate, StubTerms};
pub use codes::{
    CompCode, ConvCode, DayCountCode, DayKind, RefState, Relative, RollCode, StubKind, Treatment,
};
pub use currency::Currency;
pub use dates::{FixTerms, PayTerms, ResetTerms};
pub use elements::{ELEMENTS, Elem, PATHS, elements_named, paths_fit, paths_listed};
pub use frequency::{Frequency, Unit};
pub use irs_base::Names;
pub use lengths::Length;
pub use listed::Listed;
pub use needs::{adjusts_days, counts_days, fixing_names, names_by, names_with, reset_names};
pub use parameters::{CalculationMethod, CalculationParameters, ObservationOffset};
pub use places::{Broken, Fault, Place, Rule};
pub use results::{Exchange, Exchanges, Frac, Payment, Payments, Reset, Resets, Span};
pub use step_list::{Step, StepList, StepValues};
pub use stream::Stream;
pub use stream_list::{StreamList, Swap};
pub use suiting::suits;
