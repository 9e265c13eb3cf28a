//! Every difference between the cash flows of two parties. The rows of a schedule and of another party's cash
//! flows are paired by their dates; what differs is listed and written as text.
#![tactic(auto)]

mod blocks;
mod counting;
mod dated;
mod exchange_breaks;
mod fields;
mod findings;
mod laws;
mod pairing;
mod payment_breaks;
mod period_breaks;
mod row_breaks;
mod streams;
#[cfg(test)]
mod tests;
mod texts;
mod values;

pub use counting::{Counts, counts_of};
pub use dated::{DatedRow, PairedRow};
pub use fields::{exchange_fields, payment_fields, period_fields, reset_fields};
pub use findings::{Break, BreakList, BreakPlace, What};
pub use laws::{
    agreed_is_unbroken, no_crossing, one_list, one_partner, only_pairing, same_either_way,
    stated_is_unbroken, unbroken_is_agreed,
};
pub use pairing::pair_rows;
pub use streams::breaks;
pub use texts::breaks_text;
pub use values::{FieldValues, Standing, Values, differ, standing_of};
