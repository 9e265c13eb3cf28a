//! The reader of a trade's document (FpML 5, InterestRateStream): the table of its elements, its first
//! broken rule, and the swap that it spells.
#![tactic(auto)]

mod blocks;
mod document;
mod leaf_values;
mod reader;
mod references;
mod stream;
mod swap;
mod table;

pub use document::{first_in_document, the_swap};
pub use reader::{ReadErr, read_swap, swap_of_document_is_determined};
pub use table::{
    NAMES, ROWS, SWAP_NAMES, SWAP_ROWS, lines_follow, lists_listed, rows_whole, swap_rows_whole,
    tables_listed,
};
