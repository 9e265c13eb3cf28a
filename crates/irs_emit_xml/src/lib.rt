//! Cash flows in FpML's elements, as a document in XML: what a schedule's cash flows are in JSON, for those
//! who read FpML itself.
#![tactic(auto)]

mod emitting;
mod laws;
mod leaves;
mod rows;
#[cfg(test)]
mod tests;
mod writer;

pub use emitting::emit_xml;
pub use laws::written_is_read;
