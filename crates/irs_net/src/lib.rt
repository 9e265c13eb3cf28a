//! The net of a schedule: what falls due between the two parties of a swap on each date and in each
//! currency. It also says who the two parties are, and writes the line of a row.
#![tactic(auto)]

mod parties;
mod parts;
mod sides;
mod table;
mod texts;
mod totals;

pub use sides::{Sides, read_sides};
pub use table::{NetRow, NetTable, net};
pub use texts::net_text;
