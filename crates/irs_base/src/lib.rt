//! What the other crates use, except irs_json and irs_xml: days and months, decimals and rounding,
//! lists, texts and lines, and the outcomes of calls.
#![tactic(auto)]

mod day;
mod day_list;
mod decimals;
mod digits;
mod fields;
mod file_dates;
mod limits;
mod line;
mod lines;
mod memory;
mod months;
mod names;
mod putting;
mod reading;
mod rounding;
mod statuses;
mod stopped;
mod text;

pub use day::{Civil, Day, DayName, FIRST_DAY, LAST_DAY, ahead, civil_of, day_of, plus, weekday};
pub use day_list::DayList;
pub use decimals::{decimal_parts, number_of_parts, read_dec};
pub use digits::power_of_ten;
pub use fields::{first_field, is_gap, skip_gap};
pub use file_dates::date;
pub use limits::{
    ALL_DAYS, MOST_BYTES, MOST_CENTERS, MOST_EXCHANGES, MOST_FILES, MOST_HOLIDAYS, MOST_INDEX,
    MOST_NAME, MOST_PERIODS, MOST_RATE, MOST_ROWS, MOST_STEPS, MOST_STREAMS, file_limits_stated,
    limits_stated,
};
pub use line::{Dec, LONGEST_LINE, Line, day_digits};
pub use lines::split_line;
pub use memory::Memory;
pub use months::{month_day, month_index};
pub use names::Names;
pub use reading::read_date;
pub use rounding::{Direction, round};
pub use statuses::Status;
pub use stopped::Stopped;
pub use text::Text;
