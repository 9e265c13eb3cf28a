//! Cash flows in FpML's elements: the flows that state a schedule, written as a JSON document that the
//! audit reads.
#![tactic(auto)]

mod emitting;
mod laws;
mod leaves;
mod rows;
mod writer;

pub use emitting::emit_flows;
pub use laws::{leaves_read_back, rows_read_back};
