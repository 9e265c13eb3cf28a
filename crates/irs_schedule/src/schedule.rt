//! A schedule and its rows.
ghost use Rattle.std.specs.Prelude.{◌≡◌, ◌+◌, ◌≤◌, length};
ghost use Rattle.std.specs.Iterator.{YieldsFirst, item_count};
ghost use Rattle.irs_schedule.specs.Parts.{IsWithin};
ghost use Rattle.irs_schedule.specs.RowsOf.{most_schedule_rows, rows_of, RowHasPlaces};
ghost use Rattle.irs_base.specs.Lists.{Every};

use crate::Row;
use crate::streams::StreamPart;
use crate::walking::StreamRows;
use std::marker::Model;

/// The schedule of a swap. Contracts see a list with one part for each stream, in which every
/// calculation period has its days, fraction, notional and rate.
#[derive(Drop)]
pub struct Schedule {
    parts: Vec<StreamPart>,
}

impl Model for Schedule {
    ghost use Rattle.std.specs.Prelude.{List};
    ghost use Rattle.irs_schedule.specs.Parts.{Part, IsWithin};

    ghost Value = { List Part };

    ghost view = { λ s. s.parts.items };

    ghost invariant = { λ s. IsWithin s.parts.items };
}

impl Schedule {
    /// The schedule of these parts, one for each stream in order.
    pub(crate) fn of_parts(parts: Vec<StreamPart>) -> Schedule
        requires { IsWithin parts.items }
        ensures { result ≡ parts.items }
    {
        Schedule { parts }
    }

    /// What every schedule keeps. The call does nothing: its contract is the fact.
    pub fn bounds(&self)
        ensures { IsWithin self.now }
    {
        let _ = &self.parts;
    }

    /// Its streams in order; it takes no memory.
    pub fn streams(&self) -> &[StreamPart]
        ensures value { result.now ≡ self.now }
        ensures bounds { IsWithin self.now }
    {
        &self.parts
    }

    /// How many streams it has, 1 to 8; it takes no memory.
    pub fn stream_count(&self) -> u8
        ensures count { result ≡ length self.now }
        ensures bounds { IsWithin self.now }
    {
        self.parts.len() as u8
    }

    /// Its rows, in the order of its text; they take no memory.
    #[tactic(auto, using(crate::proofs::PlaceLemmas::rows_few, crate::proofs::CountLemmas::rows_count), unfolding(crate::specs::RowsOf::rows_of))]
    pub fn rows(&self) -> Rows<'_>
        ensures rows { result ≡ rows_of self.now }
        ensures places { Every RowHasPlaces result }
        ensures count { length (rows_of self.now) ≤ most_schedule_rows }
        ensures bounds { IsWithin self.now }
    {
        Rows {
            current: None,
            parts: &self.parts,
            stream: 0,
        }
    }
}

/// The rows of a schedule, seen as the list of those that are still to come.
#[derive(Drop)]
pub struct Rows<'a> {
    current: Option<StreamRows<'a>>,
    // The streams after the current one.
    parts: &'a [StreamPart],
    // The number of the current one.
    stream: u8,
}

impl<'a> Model for Rows<'a> {
    ghost use Rattle.std.specs.Prelude.{List, ◌+◌, ◌≤◌, length};
    ghost use Rattle.irs_schedule.specs.declared.row.Row.{Row};

    ghost Value = { List Row };

    ghost use Rattle.irs_base.specs.Limits.{most_streams};
    ghost use Rattle.irs_schedule.specs.AllWalks.{rows_left};

    ghost view = { rows_left };

    ghost invariant = { λ s. s.stream + length s.parts.now ≤ most_streams };
}

impl<'a> Iterator for Rows<'a> {
    type Item = Row;

    ghost next_gives = { YieldsFirst (λ rest. rest) };

    ghost remaining = { item_count (λ rest. rest) };

    fn next(&mut self) -> Option<Row> {
        if let Some(rows) = &mut self.current {
            if let Some(row) = rows.next() {
                return Some(row);
            }
        }
        let (part, rest) = self.parts.split_first()?;
        self.parts = rest;
        self.stream += 1;
        self.current = Some(StreamRows::new(part, self.stream));
        Some(part.stream_row(self.stream))
    }
}
