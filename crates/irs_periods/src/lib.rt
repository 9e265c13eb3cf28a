//! The calculation periods of a stream: the regular span, the unadjusted boundaries, and the
//! adjusted ones.
#![tactic(auto)]

mod adjusting;
mod error;
mod listing;
mod nearest;
mod span;

pub use adjusting::{adjusted, adjusted_is_determined};
pub use error::PerErr;
pub use listing::{
    boundaries, boundaries_are_determined, boundaries_by, regular_periods_lie_between_stubs,
};
pub use span::{is_whole_term, regular_span, regular_span_is_determined, span_of};
