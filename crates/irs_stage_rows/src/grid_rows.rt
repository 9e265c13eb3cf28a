//! What is reported of a grid: the day with a number, the number of a day, or whether a day is on
//! it. Or it is whether its roll fits its anchor.
//!
//! A row gives the frequency, the roll and the anchor, then one of `day N`, `number of DATE`,
//! `on grid DATE`, `on grid of an anchor that may not fit DATE`, `on grid from an anchor that may not fit
//! DATE` and `fits`.
ghost use Rattle.std.specs.Prelude.{IsTrue};
ghost use Rattle.irs_terms.specs.Lawful.{IsLawfulRoll};

use crate::boundaries::day;
use crate::telling::Told;
use irs_base::Day;
use irs_elements::codes::{roll, unit};
use irs_roll::{Anchor, Grid, StreamGrid, fits, on_grid_from, on_grid_of, suits};
use irs_terms::{Frequency, RollCode, Unit};

/// The terms of a grid.
#[derive(Clone, Copy)]
struct GridTerms {
    freq: Frequency,
    roll: RollCode,
    anchor: Day,
}

fn terms_of(text: &str) -> Option<GridTerms> {
    let (count, rest) = text.split_once(' ')?;
    let (letter, rest) = rest.split_once(' ')?;
    let (name, anchor) = rest.split_once(' ')?;
    let freq = Frequency {
        count: count.parse::<u16>().ok()?,
        unit: unit(letter)?,
    };
    Some(GridTerms {
        freq,
        roll: roll(name)?,
        anchor: day(anchor)?,
    })
}

fn grid(t: GridTerms) -> Option<StreamGrid> {
    let GridTerms { freq, roll, anchor } = t;
    if freq.count == 0 || freq.unit == Unit::T || !suits(freq, roll) || !fits(roll, freq, anchor) {
        return None;
    }
    Some(StreamGrid::new(freq, roll, anchor))
}

fn is_lawful(roll: RollCode) -> bool
    ensures { IsTrue result → IsLawfulRoll roll }
{
    match roll {
        RollCode::Dom(number) => 1 <= number && number <= 30,
        RollCode::Eom | RollCode::Imm | RollCode::OnWeekday(_) | RollCode::NoRoll => true,
    }
}

// Whether a day is on the grid of an anchor that may not fit the roll. The anchor is made for this
// day, or for many days.
fn is_on(t: GridTerms, question: &str, d: Day) -> Option<bool> {
    if t.freq.count == 0 || t.freq.unit == Unit::T || !is_lawful(t.roll) {
        return None;
    }
    match question {
        "on grid of" => Some(on_grid_of(t.freq, t.roll, t.anchor, d)),
        "on grid from" => Some(on_grid_from(t.freq, t.roll, &Anchor::new(t.anchor), d)),
        _ => None,
    }
}

// What a grid says of a day.
fn day_told(told: &mut Told, grid: &StreamGrid, question: &str, d: Day) -> Option<()> {
    match question {
        "number of" => told.given_number(grid.index(d)),
        "on grid" => told.answer(grid.on_grid(d)),
        _ => return None,
    }
    Some(())
}

fn asked(told: &mut Told, grid: &StreamGrid, question: &str) -> Option<()> {
    let (question, given) = question.rsplit_once(' ')?;
    if question == "day" {
        told.given_day("", grid.nth(given.parse::<i64>().ok()?));
        return Some(());
    }
    day_told(told, grid, question, day(given)?)
}

/// What is reported of a grid.
pub fn grid_lines(told: &mut Told, row: &str) -> Option<()> {
    let (terms, question) = row.split_once(" | ")?;
    let terms = terms_of(terms)?;
    if let Some((asked, date)) = question.split_once(" an anchor that may not fit ") {
        told.answer(is_on(terms, asked, day(date)?)?);
        return Some(());
    }
    let grid = grid(terms);
    if question == "fits" {
        told.answer(grid.is_some());
        return Some(());
    }
    asked(told, &grid?, question)
}
