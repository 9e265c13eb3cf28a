//! The rows: each gives what a stage works on, and a line that has to be reported of it.
use crate::sources::Sources;
use crate::stages::{Stage, tell};
use crate::telling::Told;
use anyhow::{Context, Result, bail};
use std::fs;

/// How many rows there were, and for how many the line was reported.
#[derive(Clone, Copy)]
struct Tally {
    rows: u32,
    told: u32,
}

impl Tally {
    const NONE: Tally = Tally { rows: 0, told: 0 };

    // One more row.
    fn with(self, is_told: bool) -> Tally {
        Tally {
            rows: self.rows.saturating_add(1),
            told: self.told.saturating_add(u32::from(is_told)),
        }
    }
}

/// A row: what it gives to its stage, and the line that has to be reported.
#[derive(Clone, Copy)]
struct Row<'a> {
    text: &'a str,
    given: &'a str,
    line: &'a str,
}

fn row_of(text: &str) -> Option<Row> {
    let (given, line) = text.rsplit_once(" | ")?;
    Some(Row { text, given, line })
}

// Reports a row, and prints what is reported where there is an echo. Returns whether its line is
// reported. Text that is no row is printed before its error.
fn is_told(
    rt: &HostRuntime,
    sources: &Sources,
    stage: Stage,
    row: Row,
    echo: Option<&HostRuntime>,
) -> Result<bool> {
    let mut told = Told::new(row.line, echo);
    if tell(&mut told, rt, sources, stage, row.given).is_none() {
        println!(rt; "no row: {}", row.text)?;
        bail!("no row");
    }
    if !told.is_printed {
        bail!("what is told can't be printed");
    }
    Ok(told.is_told)
}

// Runs a row; where its line isn't reported, prints it and what is reported. Returns whether it is
// reported.
fn run_row(rt: &HostRuntime, sources: &Sources, stage: Stage, text: &str) -> Result<bool> {
    let row = row_of(text).context("a row ends with its line")?;
    if is_told(rt, sources, stage, row, None)? {
        return Ok(true);
    }
    println!(rt; "not told: {text}")?;
    is_told(rt, sources, stage, row, Some(rt))
}

/// Runs the rows of a file, a line each; a line that begins with `#` is a remark. Prints each row
/// whose line isn't reported, with what is reported there. At the end it prints how many rows there
/// were and for how many the line was reported.
pub fn run_rows(rt: &HostRuntime, sources: &Sources, stage: Stage, file: &str) -> Result<()> {
    let text = fs::read_to_string(rt, file)?;
    let mut tally = Tally::NONE;
    for line in text.lines() {
        if !line.starts_with('#') {
            tally = tally.with(run_row(rt, sources, stage, line)?);
        }
    }
    println!(rt; "{file}: {} of {} rows", tally.told, tally.rows)?;
    Ok(())
}
