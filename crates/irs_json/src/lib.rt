//! The carrier: FpML elements in a value that `serde_json` read.
//!
//! The mapping from JSON to elements is our rule. An element is a member
//! of a JSON object, and an attribute is a member whose name begins with `@`. A repeated element is
//! an array, or one value where there is one. A member that is null or an empty array counts as
//! absent.
#![tactic(auto)]

mod carrier;
mod leaves;
mod names;
mod places;
mod reading;
mod trim;
mod values;

pub use carrier::child;
pub use leaves::{LeafValue, is_attribute_name, leaf};
pub use names::{MemberIter, members};
pub use reading::{JsonErr, parse};
pub use serde_json::Value;
pub use values::{ItemIter, items};
