//! What every row may use: the words of edits, the calendars and the observed rates.
use anyhow::{Context, Result};
use irs_base::MOST_BYTES;
use irs_calendar::Calendars;
use irs_resets::Fixings;
use std::alloc::Global;
use std::fs;

/// The files `words`, `centers` and `fixings`.
#[derive(Drop)]
pub struct Sources {
    /// The words of edits, a line each.
    pub words: String,
    /// The centres of the rows.
    pub calendars: Calendars,
    /// The rates of the rows.
    pub fixings: Fixings,
}

fn calendars_in(rt: &HostRuntime, file: &str) -> Result<Calendars> {
    let text = fs::read_to_string(rt, file)?;
    calendars_of(rt.alloc(), text.as_bytes()).context("the calendars have a fault")
}

fn fixings_in(rt: &HostRuntime, file: &str) -> Result<Fixings> {
    let text = fs::read_to_string(rt, file)?;
    fixings_of(rt.alloc(), text.as_bytes()).context("the fixings have a fault")
}

impl Sources {
    /// Reads the three files; an error where one of them has a fault.
    pub fn read(rt: &HostRuntime) -> Result<Sources> {
        let words = fs::read_to_string(rt, "words")?;
        let calendars = calendars_in(rt, "centers")?;
        let fixings = fixings_in(rt, "fixings")?;
        Ok(Sources {
            words,
            calendars,
            fixings,
        })
    }
}

/// The calendars of one file; none where it is too long or has a fault.
pub fn calendars_of(alloc: Global, file: &[u8]) -> Option<Calendars> {
    if file.len() > MOST_BYTES {
        return None;
    }
    let files = [Vec::from_slice(alloc, file).ok()?];
    Calendars::read(alloc, &files).ok()
}

/// The fixings of a file; none where it is too long or has a fault.
pub fn fixings_of(alloc: Global, file: &[u8]) -> Option<Fixings> {
    if file.len() > MOST_BYTES {
        return None;
    }
    Fixings::read(alloc, file).ok()
}
