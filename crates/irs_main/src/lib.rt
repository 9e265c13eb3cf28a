//! What the program `irs` does. It prints on standard output what its words call for. On standard error it says, in
//! one plain sentence, what a line means that reports something else.
#![tactic(auto)]

mod answering;
mod centers;
mod cuts;
mod day_rolls;
mod elements;
mod help;
mod lookup;
mod notes;
mod parts;
mod pieces;
mod sentences;
mod shown;
mod slips;
mod standard_error;
mod starting;
mod table;
mod usage;
mod values;
mod visible;
mod words;
mod wrong_words;

pub use answering::answer;
pub use centers::lists_are_visible;
pub use day_rolls::day_rolls_are_numbers;
pub use help::{HELP, VERSION};
pub use sentences::{put_sentence, silence_is_empty};
pub use shown::{shown_words, what_is_shown_is_one_line};
pub use slips::slips_are_found;
pub use starting::status_of;
pub use table::rules_listed;
pub use usage::{commands_listed, parameters_listed};
pub use values::codes_are_listed;
pub use visible::names_are_visible;
