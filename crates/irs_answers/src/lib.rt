//! What a task comes to over its files. It has the steps that all tasks share, the last step of each, and
//! the texts that are due.
#![tactic(auto)]

mod accruing;
mod answers;
mod breaking;
mod carrying;
mod causes;
mod centers;
mod common;
mod derived;
mod derived_schedules;
mod due;
mod files;
mod flow_messages;
mod flows;
mod forms;
mod fronts;
mod laws;
mod listed;
mod messages;
mod misfits;
mod netting;
mod notes;
mod observing;
mod past_ten;
mod printed_rates;
mod refusals;
mod replies;
mod spots;
mod tasks;

pub use carrying::carrier;
pub use causes::Cause;
pub use common::Common;
pub use derived_schedules::derived_rates_are_used;
pub use due::{Found, find, reply_by, reply_of, schedule_of};
pub use files::TaskFiles;
pub use forms::{Form, ReadErr, Source, Unread, read_document};
pub use fronts::Front;
pub use irs_locate::{Leaf, Shape};
pub use laws::{
    emitted_flows_are_audited, every_schedule_has_the_printed_text, one_outcome_is_due,
};
pub use listed::Listed;
pub use misfits::Misfit;
pub use notes::{Note, NotedReply, Unfixed};
pub use past_ten::rates_past_ten_are_unpaid;
pub use printed_rates::printed_rates_are_used;
pub use refusals::Refusal;
pub use replies::{Reply, verdict_line};
pub use spots::Spot;
pub use tasks::Task;
