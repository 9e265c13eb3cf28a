//! FpML XML as a value. The crate reads XML 1.0 with Namespaces in XML 1.0. A document means a
//! value: the JSON in which we carry FpML.
#![tactic(auto)]

mod chars;
mod comments;
mod content;
mod document;
mod failure;
mod inside;
mod members;
mod namespaces;
mod places;
mod reader;
mod reading;
mod references;
mod settings;
mod tags;

pub use reading::{XmlErr, no_larger, one_value, read_xml};
pub use serde_json::Value;
