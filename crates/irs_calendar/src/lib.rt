//! Business days of centres: calendar files, and the business days of centres as sorted runs.
#![tactic(auto)]

mod calendars;
mod chosen;
mod end_lines;
mod files;
mod good_days;
mod holidays;
mod machine;
mod marks;
mod openings;
mod part;
mod run_set;
mod runs;
mod search;
mod section_list;
mod sections;
mod steps;
mod weekends;
mod words;

pub use calendars::{CalErr, Calendars, SelErr};
pub use end_lines::split_seen;
pub use good_days::GoodDays;
pub use run_set::RunSet;
pub use steps::Steps;
