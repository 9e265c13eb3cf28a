//! The audit of cash flows: whether those that another party states agree with a schedule.
#![tactic(auto)]

mod agreement;
mod comparisons;
mod counts;
mod departures;
mod row_fields;
mod rows;
mod stated_rows;
mod stating;

pub use agreement::{audit, audit_stated};
pub use comparisons::{
    count_is_wrong, currency_is_wrong, day_is_wrong, fraction_is_wrong, number_is_wrong,
};
pub use departures::{Departure, Field, RowKind, Verdict};
pub use irs_flows::{FlowErr, Flows, ShapeKind, read_flows};
pub use stating::{flows_of, stated_amount};
