//! Fixings: the rates that were observed, from a file.
//!
//! Lines end in LF or CRLF, and the last one may have no end. A line of spaces and tabs alone and a
//! line whose first byte is `#` are ignored. But a last line `# end N` is at fault if N isn't the
//! number of lines before it. Each other line gives the rate of an index at a date and tenor, and no
//! two lines give the same index, date and tenor. The format is our rule.
ghost use Rattle.std.specs.Prelude.{◌≡◌, ◌≤◌, ◌↔◌, [], length, IfSome, IsErrOf, IsTrue};
ghost use Rattle.irs_base.specs.Limits.{most_bytes};
ghost use Rattle.irs_calendar.specs.Grammar.{seen_lines};
ghost use Rattle.irs_terms.specs.Lawful.{IsRate};
ghost use Rattle.std.specs.Map.{lookup};
ghost use Rattle.std.specs.Str.{bytes_eq};
ghost use Rattle.irs_resets.specs.Rates.{SameRates, rate_at, rate_of};
ghost use Rattle.irs_resets.specs.Private.FixingFiles.{IsTail, HasNewRate, IsSpelt, line_of};
ghost use Rattle.irs_resets.specs.FixingFiles.{StopsAt};
ghost use Rattle.irs_resets.specs.Resets.{DeterminedUpTo, MeetsFile, fixings_of};
ghost use Rattle.irs_resets.specs.declared.fixings.FixErr.TheVariants.{Memory as OfMemory};

use crate::fixing_line::{Tail, fixing_line};
use crate::store::{Rates, Slot, Table};
use crate::words::is_passed;
use irs_base::{Day, Memory, Text, split_line};
use irs_calendar::split_seen;
use irs_terms::Frequency;
use std::alloc::Global;
use std::marker::Model;
use thiserror::Error;

/// The first line of a fixing file that is at fault. Lines count from 1.
#[derive(Clone, Copy, Debug, Error)]
pub enum FixErr {
    /// The line isn't ignored and spells no fixing. So it is with a last line `# end N` whose number is false.
    #[error("line {0} spells no fixing")]
    Syntax(u32),
    /// An earlier line has the date, tenor and index of this line.
    #[error("line {0} repeats the date, tenor and index of an earlier line")]
    Repeat(u32),
    /// Memory ran out.
    #[error("out of memory")]
    Memory,
}

impl From<Memory> for FixErr {
    ghost from_gives = { λ _ e. e ≡ OfMemory };

    fn from(_e: Memory) -> FixErr {
        FixErr::Memory
    }
}

/// Observed rates, by index, date and tenor.
#[derive(Drop)]
pub struct Fixings {
    table: Option<Table>,
}

impl Model for Fixings {
    ghost use Rattle.irs_resets.specs.Rates.{RateTable};

    ghost Value = { RateTable };

    ghost use Rattle.irs_resets.specs.Rates.{or_empty, AreSmall};

    ghost view = { λ f. or_empty f.table };

    ghost invariant = { λ f. AreSmall (or_empty f.table) };
}

// Reads a line into the table. `last` is how an earlier line ends, and then how this one does.
fn read_line<'a>(
    alloc: Global,
    mut table: Table,
    line: &'a [u8],
    number: u32,
    last: &mut Option<Tail<'a>>,
) -> Result<Table, FixErr>
    requires { IfSome last.old (λ t. IsTail t.text.now t.tenor t.index.now) }
    ensures tail { IfSome last.new (λ t. IsTail t.text.now t.tenor t.index.now) }
    ensures meets { MeetsFile (line_of table line.now number) result }
    ensures memory { IsErrOf result OfMemory → HasNewRate table line.now }
{
    if is_passed(line) {
        return Ok(table);
    }
    let Some(fixing) = fixing_line(line, *last) else {
        return Err(FixErr::Syntax(number));
    };
    *last = Some(fixing.tail);
    let is_new = table.add(alloc, fixing.tail.index, fixing.slot, fixing.rate)?;
    if is_new {
        Ok(table)
    } else {
        Err(FixErr::Repeat(number))
    }
}

impl Fixings {
    /// No fixings at all.
    pub fn none() -> Fixings
        ensures { result ≡ [] }
    {
        Fixings { table: None }
    }

    /// The fixings of a file of at most `MOST_BYTES` bytes. `Syntax` is the first line at fault, where it
    /// spells no fixing, and `Repeat` the first one, where it repeats an earlier line. Memory may run out
    /// at a line that gives a rate, so a fault in a later line isn't reported then.
    pub fn read(alloc: Global, bytes: &[u8]) -> Result<Fixings, FixErr>
        requires { length bytes.now ≤ most_bytes }
        ensures meets { MeetsFile (fixings_of bytes.now) result }
        // Running out of memory hides no fault of the lines up to the one that was read.
        ensures memory { IsErrOf result OfMemory → StopsAt (seen_lines bytes.now) }
    {
        let mut table = Table::new(alloc);
        let mut rest = bytes;
        let mut before: u32 = 0;
        let mut last = None;
        while !rest.is_empty() {
            let (line, more) = split_seen(rest, before);
            before += 1;
            table = read_line(alloc, table, line, before, &mut last)?;
            rest = more;
        }
        Ok(Fixings { table: Some(table) })
    }

    /// The rate of the line with that index, tenor and date; `None` exactly where there is no such
    /// line. The index is compared by its bytes and the tenor by number and letter, so that 12M
    /// isn't 1Y. No memory is taken.
    pub fn rate_on(&self, index: &Text, tenor: Option<Frequency>, d: Day) -> Option<i64>
        ensures value { result ≡ rate_at self.now index.now (record { date = d; tenor = tenor }) }
        ensures small { IfSome result IsRate }
    {
        let (rate, _) = self.of(index).rate_near(tenor, d, 0);
        rate
    }

    /// The rates of an index, for several look-ups. The index is compared by its bytes. No memory is
    /// taken.
    pub fn of(&self, index: &Text) -> IndexRates<'_>
        ensures { result ≡ lookup (bytes_eq index.now) self.now }
    {
        match &self.table {
            Some(table) => IndexRates {
                rates: table.of(index.as_slice()),
            },
            None => IndexRates { rates: None },
        }
    }
}

/// The rates of one index, by date and tenor.
#[derive(Drop)]
pub struct IndexRates<'a> {
    rates: Option<&'a Rates>,
}

impl<'a> Model for IndexRates<'a> {
    ghost use Rattle.std.specs.Prelude.{Option, option_copied};
    ghost use Rattle.irs_resets.specs.Rates.{AreSmallOf, SlotRates};

    ghost Value = { Option SlotRates };

    ghost view = { λ r. option_copied r.rates };

    ghost invariant = { λ r. AreSmallOf (option_copied r.rates) };
}

impl<'a> IndexRates<'a> {
    /// As `rate_on` of the fixings, and the place where the rate of the next day may be. It is looked for at
    /// a place first. So look-ups of days in order take few steps, each from the place of the one before.
    /// The rate is the same from every place.
    pub fn rate_near(&self, tenor: Option<Frequency>, d: Day, place: usize) -> (Option<i64>, usize)
        ensures value { result.0 ≡ rate_of self.now (record { date = d; tenor = tenor }) }
        ensures small { IfSome result.0 IsRate }
    {
        match self.rates {
            Some(rates) => rates.rate_near(&Slot { date: d, tenor }, place),
            None => (None, place),
        }
    }
}

/// A law: a file gives one set of rates, or one first line at fault.
pub fn fixings_are_determined(bytes: &[u8])
    ensures { DeterminedUpTo SameRates (fixings_of bytes.now) }
{
    let mut rest = bytes;
    while !rest.is_empty() {
        let (line, more) = split_line(rest);
        // hands the prover that the line spells a fixing or doesn't
        let _decided = is_spelt(line);
        rest = more;
    }
}

fn is_spelt(line: &[u8]) -> bool
    ensures { IsTrue result ↔ IsSpelt line.now }
{
    match fixing_line(line, None) {
        Some(_) => true,
        None => false,
    }
}
