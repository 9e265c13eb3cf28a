//! The stage rows: worked examples of each stage of a schedule and of what is worked out of one.
//! Each has a row, and what is reported of it.
//!
//! The rows, the streams that they change and the expected answers are in `data/`; their form is
//! ours.
#![tactic(auto)]

use rows::run_rows;
use sources::Sources;
use stages::{Stage, StreamStage};

mod adjust_rows;
mod amount_rows;
mod boundaries;
mod calendar_rows;
mod currency_rows;
mod date_rows;
mod day_count_rows;
mod decimal_rows;
mod documents;
mod edits;
mod exchange_rows;
mod files;
mod fixing_rows;
mod good_days;
mod grid_rows;
mod line_rows;
mod list_rows;
mod payment_rows;
mod period_rows;
mod rate_rows;
mod reset_rows;
mod rounding_rows;
mod rows;
mod rule_rows;
mod sources;
mod stages;
mod step_counts;
mod step_rows;
mod telling;
mod texts;
mod values;
mod words;

/// Each file of rows, and the stage of which it reports.
const FILES: [(&str, Stage); 24] = [
    ("calendars", Stage::Calendars),
    ("grids", Stage::Grids),
    ("fixing_files", Stage::FixingFiles),
    ("rules", Stage::Rules),
    ("periods", Stage::OfStream(StreamStage::Periods)),
    (
        "periods_over_days",
        Stage::OfStream(StreamStage::PeriodsOverDays),
    ),
    (
        "adjusted_periods",
        Stage::OfStream(StreamStage::AdjustedPeriods),
    ),
    ("payments", Stage::OfStream(StreamStage::Payments)),
    ("steps", Stage::OfStream(StreamStage::Steps)),
    ("exchanges", Stage::OfStream(StreamStage::Exchanges)),
    ("resets", Stage::OfStream(StreamStage::Resets)),
    ("rates", Stage::OfStream(StreamStage::Rates)),
    ("notionals", Stage::OfStream(StreamStage::Notionals)),
    ("amounts", Stage::Amounts),
    ("currencies", Stage::Currencies),
    ("lists", Stage::Lists),
    ("lines", Stage::Lines),
    ("dates", Stage::Dates),
    ("decimals", Stage::Decimals),
    ("roundings", Stage::Roundings),
    ("easter", Stage::Calendars),
    ("adjustments", Stage::Calendars),
    ("quarters", Stage::Grids),
    ("day_counts", Stage::DayCounts),
];

fn main(rt: HostRuntime) -> anyhow::Result<()> {
    let sources = Sources::read(&rt)?;
    for (file, stage) in FILES {
        run_rows(&rt, &sources, stage, file)?;
    }
    Ok(())
}
