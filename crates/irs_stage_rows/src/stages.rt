//! What each stage reports of what a row gives it.
ghost use Rattle.irs_terms.specs.Lawful.{IsLawfulSwap, IsLawfulStream};

use crate::amount_rows::amount_lines;
use crate::calendar_rows::calendar_lines;
use crate::currency_rows::currency_lines;
use crate::date_rows::date_lines;
use crate::day_count_rows::day_count_lines;
use crate::decimal_rows::decimal_lines;
use crate::documents::{one_stream, swap_of};
use crate::exchange_rows::exchange_lines;
use crate::files::file_of;
use crate::fixing_rows::fixing_lines;
use crate::grid_rows::grid_lines;
use crate::line_rows::line_lines;
use crate::list_rows::list_lines;
use crate::payment_rows::payment_lines;
use crate::period_rows::{adjusted_lines, day_lines, period_lines};
use crate::rate_rows::{notional_lines, rate_lines};
use crate::reset_rows::reset_lines;
use crate::rounding_rows::rounding_lines;
use crate::rule_rows::rule_lines;
use crate::sources::{Sources, calendars_of};
use crate::step_rows::step_lines;
use crate::telling::Told;
use irs_terms::{Stream, Swap};

/// What is worked out of a row.
#[derive(Clone, Copy)]
pub enum Stage {
    /// Business days of calendar files.
    Calendars,
    /// Days of a grid.
    Grids,
    /// A rate of a file of fixings.
    FixingFiles,
    /// The day of a text.
    Dates,
    /// The number of a text.
    Decimals,
    /// A fraction that is rounded.
    Roundings,
    /// The days and the fraction of a period.
    DayCounts,
    /// The amount of a payment.
    Amounts,
    /// The decimals of a currency.
    Currencies,
    /// What a copy of a list holds.
    Lists,
    /// A line that a command prints.
    Lines,
    /// The first rule of the terms that a swap breaks.
    Rules,
    /// What is worked out of one stream.
    OfStream(StreamStage),
}

/// What is worked out of one stream.
#[derive(Clone, Copy)]
pub enum StreamStage {
    /// The regular span and the unadjusted boundaries of the calculation periods.
    Periods,
    /// The unadjusted boundaries over a grid of days that is handed in.
    PeriodsOverDays,
    /// The adjusted boundaries.
    AdjustedPeriods,
    /// The payments over given boundaries.
    Payments,
    /// Whether the steps are on given boundaries.
    Steps,
    /// The principal exchanges.
    Exchanges,
    /// The resets over given boundaries.
    Resets,
    /// The rates of a period from an observed rate.
    Rates,
    /// The notional in force on a day.
    Notionals,
}

/// What a row gives of streams: their file, and edits of it. Where the stage works on more, such as
/// boundaries, the row gives that too.
#[derive(Clone, Copy)]
struct Given<'a> {
    file: &'a str,
    edits: &'a str,
    beside: Option<&'a str>,
}

// The parts of a text, `|` between them.
fn given_of(text: &str) -> Option<Given> {
    let (file, rest) = text.split_once(" | ")?;
    let (edits, beside) = match rest.split_once(" | ") {
        Some((edits, beside)) => (edits, Some(beside)),
        None => (rest, None),
    };
    Some(Given {
        file,
        edits,
        beside,
    })
}

// Reports a stage of a stream and of what is beside it.
fn tell_stream(
    told: &mut Told,
    rt: &HostRuntime,
    sources: &Sources,
    stage: StreamStage,
    s: &Stream,
    beside: &str,
) -> Option<()>
    requires { IsLawfulStream s.now }
{
    let (alloc, calendars) = (rt.alloc(), &sources.calendars);
    match stage {
        StreamStage::Periods => period_lines(told, alloc, s),
        StreamStage::PeriodsOverDays => day_lines(told, alloc, s),
        StreamStage::AdjustedPeriods => adjusted_lines(told, alloc, calendars, s),
        StreamStage::Payments => payment_lines(told, alloc, calendars, s, beside),
        StreamStage::Steps => step_lines(told, alloc, s, beside),
        StreamStage::Exchanges => exchange_lines(told, alloc, calendars, s),
        StreamStage::Resets => reset_lines(told, rt, sources, s, beside),
        StreamStage::Rates => rate_lines(told, s, beside),
        StreamStage::Notionals => notional_lines(told, s, beside),
    }
}

// Reports a stage of the one stream that a row gives.
fn tell_one(
    told: &mut Told,
    rt: &HostRuntime,
    sources: &Sources,
    stage: StreamStage,
    row: &str,
) -> Option<()> {
    let given = given_of(row)?;
    let swap = swap_of(rt, sources, given.file, given.edits)?;
    let stream = one_stream(&swap)?;
    tell_stream(told, rt, sources, stage, stream, given.beside.unwrap_or(""))
}

// Reports the rules of the terms, by the calendars of a file.
fn tell_rules_by(told: &mut Told, rt: &HostRuntime, swap: &Swap, file: &str) -> Option<()>
    requires { IsLawfulSwap swap.now }
{
    let bytes = file_of(rt, file)?;
    let calendars = calendars_of(rt.alloc(), &bytes)?;
    rule_lines(told, &calendars, swap);
    Some(())
}

// Reports the rules of the terms, by the calendars that a row gives, or else by those of all.
fn tell_rules(told: &mut Told, rt: &HostRuntime, sources: &Sources, row: &str) -> Option<()> {
    let given = given_of(row)?;
    let swap = swap_of(rt, sources, given.file, given.edits)?;
    match given.beside {
        Some(file) => tell_rules_by(told, rt, &swap, file),
        None => {
            rule_lines(told, &sources.calendars, &swap);
            Some(())
        }
    }
}

/// Reports the lines of a stage; none where a row isn't one, or its stage can't be called.
pub fn tell(
    told: &mut Told,
    rt: &HostRuntime,
    sources: &Sources,
    stage: Stage,
    row: &str,
) -> Option<()> {
    match stage {
        Stage::Calendars => calendar_lines(told, rt, row),
        Stage::Grids => grid_lines(told, row),
        Stage::FixingFiles => fixing_lines(told, rt, row),
        Stage::Dates => {
            date_lines(told, row);
            Some(())
        }
        Stage::Decimals => decimal_lines(told, row),
        Stage::Roundings => rounding_lines(told, row),
        Stage::DayCounts => day_count_lines(told, row),
        Stage::Amounts => amount_lines(told, rt.alloc(), row),
        Stage::Currencies => currency_lines(told, row),
        Stage::Lists => list_lines(told, rt.alloc(), row),
        Stage::Lines => line_lines(told, rt.alloc(), row),
        Stage::Rules => tell_rules(told, rt, sources, row),
        Stage::OfStream(stage) => tell_one(told, rt, sources, stage, row),
    }
}
