//! Grids of roll days: the days on which the calculation or payment periods of a stream may begin
//! and end.
#![tactic(auto)]

mod anchor;
mod every_days;
mod fitting;
mod grid;
mod month_grid;
mod rolls;
mod steps;
mod stream_grid;

pub use anchor::Anchor;
pub use every_days::EveryDays;
pub use fitting::{fits, on_grid_from, on_grid_of};
pub use grid::Grid;
pub use irs_terms::suits;
pub use month_grid::{MonthDay, MonthEnd, MonthGrid, ThirdWednesday};
pub use rolls::{DayNumber, EndOfMonth, Imm, Roll};
pub use stream_grid::StreamGrid;
