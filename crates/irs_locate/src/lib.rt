//! Where in a document a rule is broken: the line of an element, the name of a member, or the text of a leaf.
//! That a sentence says so is our rule.
#![tactic(auto)]

mod kinds;
mod lines;
mod markup;
mod members;
mod texts;
mod ways;

pub use irs_elements::Leaf;
pub use kinds::{Shape, kind_of, shape_at};
pub use lines::line_of;
pub use members::{member_is_determined, member_of};
pub use texts::text_of;
