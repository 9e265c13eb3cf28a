//! What is reported of calendars: the fault of a file, or the first centre that is missing. Else it
//! is how many runs of business days the centres have together. Of a day it is reported whether it
//! is a business day, and the next business day and the one before. Or it is the day to which it is
//! adjusted, or the one that a search finds whose steps are counted. Of a centre it is reported
//! whether it has a calendar.
//!
//! A row gives the files with `//` between them, then the centres, then the day or nothing. `all`
//! in place of the centres is a set in which every day is a business day. The convention, or the
//! search, may come before the day. `has a calendar` in place of the day is a question on one
//! centre.
ghost use Rattle.std.specs.Prelude.{◌≤◌, All, IsTrue, length};
ghost use Rattle.irs_base.specs.Limits.{most_bytes};

use crate::adjust_rows::adjusted_told;
use crate::boundaries::day;
use crate::files::file_of;
use crate::step_counts::{next_told, previous_told};
use crate::telling::Told;
use irs_base::{Day, MOST_BYTES, MOST_CENTERS, MOST_FILES, Names, Text};
use irs_calendar::{CalErr, Calendars, GoodDays, RunSet, SelErr};
use std::alloc::Global;

fn are_short(files: &[Vec<u8>]) -> bool
    ensures { IsTrue result → All (λ f. length f.items ≤ most_bytes) files.now }
{
    match files {
        [] => true,
        [first, rest @ ..] => first.len() <= MOST_BYTES && are_short(rest),
    }
}

fn push_files(rt: &HostRuntime, files: &mut Vec<Vec<u8>>, text: &str) -> Option<()> {
    for each in text.split(" // ") {
        files.push(file_of(rt, each)?).ok()?;
    }
    Some(())
}

fn fault_told(told: &mut Told, fault: CalErr) -> Option<()> {
    let (word, file, line) = match fault {
        CalErr::Memory => return None,
        CalErr::Syntax(file, line) => ("syntax in file ", file, line),
        CalErr::Repeat(file, line) => ("repeat in file ", file, line),
        CalErr::TooMany(file, line) => ("too many in file ", file, line),
    };
    told.number(word, file);
    told.number(", line ", line);
    told.end();
    Some(())
}

// Whether the day is a business day, the next one and the one before.
fn day_told(told: &mut Told, days: &RunSet, d: Day) {
    let word = if days.is_good(d) { "good" } else { "not good" };
    told.line(word);
    told.given_day("next ", days.next_good(d));
    told.given_day("before ", days.prev_good(d));
}

// What becomes of a day, or which day is found from it.
fn found_told(told: &mut Told, days: &RunSet, how: &str, d: Day) -> Option<()> {
    match how {
        "next in seven steps" => next_told(told, days, d),
        "previous in counted steps" => {
            previous_told(told, days, d);
            Some(())
        }
        _ => adjusted_told(told, days, how, d),
    }
}

fn days_told(told: &mut Told, days: &RunSet, asked: &str) -> Option<()> {
    if let Some((how, date)) = asked.rsplit_once(' ') {
        return found_told(told, days, how, day(date)?);
    }
    if asked.is_empty() {
        told.number("", days.count());
        told.line(" runs of good days");
    } else {
        day_told(told, days, day(asked)?);
    }
    Some(())
}

/// Pushes names, which have spaces between them.
pub fn push_names(alloc: Global, names: &mut Names, centers: &str) -> Option<()> {
    for center in centers.split_whitespace() {
        names
            .push(Text::from_bytes(alloc, center.as_bytes()).ok()?)
            .ok()?;
    }
    Some(())
}

// Whether the one centre has a calendar.
fn calendar_told(told: &mut Told, calendars: &Calendars, names: &Names) -> Option<()> {
    let [name] = names.as_slice() else {
        return None;
    };
    told.answer(calendars.has_center(name));
    Some(())
}

fn selected(
    told: &mut Told,
    alloc: Global,
    calendars: &Calendars,
    names: &Names,
    asked: &str,
) -> Option<()> {
    if names.len() > MOST_CENTERS as usize {
        return None;
    }
    match calendars.select(alloc, names) {
        Ok(days) => days_told(told, &days, asked),
        Err(SelErr::NoCenter(number)) => {
            told.number("centre ", number);
            told.line(" is missing");
            Some(())
        }
        Err(SelErr::Memory) => None,
    }
}

fn centers_told(
    told: &mut Told,
    alloc: Global,
    calendars: &Calendars,
    centers: &str,
    asked: &str,
) -> Option<()> {
    if centers == "all" {
        return days_told(told, &RunSet::all(), asked);
    }
    let mut names = Names::new(alloc);
    push_names(alloc, &mut names, centers)?;
    if asked == "has a calendar" {
        calendar_told(told, calendars, &names)
    } else {
        selected(told, alloc, calendars, &names, asked)
    }
}

fn files_told(
    told: &mut Told,
    alloc: Global,
    files: &[Vec<u8>],
    centers: &str,
    asked: &str,
) -> Option<()> {
    if files.len() > MOST_FILES as usize || !are_short(files) {
        return None;
    }
    match Calendars::read(alloc, files) {
        Ok(calendars) => centers_told(told, alloc, &calendars, centers, asked),
        Err(fault) => fault_told(told, fault),
    }
}

/// What is reported of calendars.
pub fn calendar_lines(told: &mut Told, rt: &HostRuntime, row: &str) -> Option<()> {
    let (texts, rest) = row.split_once(" | ")?;
    let (centers, asked) = rest.split_once(" | ")?;
    let mut files = Vec::new(rt.alloc());
    push_files(rt, &mut files, texts)?;
    files_told(told, rt.alloc(), &files, centers, asked)
}
