//! What is found where a schedule is compared with cash flows: the breaks, and how the fields of each pair are
//! counted.
ghost use Rattle.std.specs.Prelude.{◌≡◌, ◌↔◌, IsTrue, OnOk};
ghost use Rattle.irs_base.specs.Lists.{Every};
ghost use Rattle.irs_breaks.specs.BreakLists.{HasBreak, break_at};
ghost use Rattle.irs_breaks.specs.Findings.{IsPrintable, IsPrintableWhat, one_pair, joined_findings, no_findings};
ghost use Rattle.irs_breaks.specs.Findings.{one_break};

use crate::counting::Counts;
use crate::values::FieldValues;
use irs_audit::RowKind;
use irs_base::{Day, Dec, Memory};
use std::alloc::Global;
use std::marker::Model;

/// The rows of a break: one of ours and one of theirs, or one alone.
#[derive(Clone, Copy)]
pub struct BreakPlace {
    /// The stream, counted from 1.
    pub stream: usize,
    /// The kind of the rows.
    pub kind: RowKind,
    /// The date of the row of ours, else of theirs, where it has one; of a reset that of its calculation period.
    pub day: Option<Day>,
    /// The number of the row of ours, counted from 1; that of its calculation period for a reset.
    pub ours: Option<usize>,
    /// The number of the row of theirs, counted from 1; that of its calculation period for a reset.
    pub theirs: Option<usize>,
}

/// What breaks. A value is the amount of an exchange or a payment, the notional of a calculation period or
/// the observed rate of a reset. A stated value is in units of 10^-12, with the least number of decimals to
/// write.
#[derive(Clone, Copy)]
pub enum What {
    /// The schedule has the row and the cash flows lack it; its value, where it is known.
    Missing(Option<Dec>),
    /// The cash flows alone have the row; the decimals, and its value, where it is stated.
    Extra(u8, Option<i128>),
    /// A row of the cash flows states no date; the decimals, and its value, where it is stated.
    Undated(u8, Option<i128>),
    /// A field that the schedule knows is stated otherwise.
    Field(FieldValues),
}

/// A difference between a schedule and cash flows.
#[derive(Clone, Copy)]
pub struct Break {
    /// The rows.
    pub place: BreakPlace,
    /// What breaks there.
    pub what: What,
}

/// The breaks between a schedule and cash flows in order, and how the fields of each pair of rows are counted.
#[derive(Drop)]
pub struct BreakList {
    breaks: Vec<Break>,
    pairs: Vec<Counts>,
}

impl Model for BreakList {
    ghost use Rattle.irs_base.specs.Lists.{Every};
    ghost use Rattle.irs_breaks.specs.Findings.{Findings, IsPrintable};

    ghost Value = { Findings };

    ghost view = { λ l. record { breaks = l.breaks.items; pairs = l.pairs.items } };

    ghost invariant = { λ l. Every IsPrintable l.breaks.items };
}

impl BreakList {
    /// A list of nothing.
    pub(crate) fn new(alloc: Global) -> BreakList
        ensures { result ≡ no_findings }
    {
        BreakList {
            breaks: Vec::new(alloc),
            pairs: Vec::new(alloc),
        }
    }

    /// Appends what breaks at a place.
    pub(crate) fn push_break(&mut self, place: &BreakPlace, what: &What) -> Result<(), Memory>
        requires { IsPrintableWhat what.now }
        ensures { OnOk result (self.new ≡ joined_findings self.old (one_break (break_at place.now what.now))) }
    {
        let place = BreakPlace {
            stream: place.stream,
            kind: place.kind,
            day: place.day,
            ours: place.ours,
            theirs: place.theirs,
        };
        let what = match what {
            What::Missing(value) => What::Missing(*value),
            What::Extra(places, value) => What::Extra(*places, *value),
            What::Undated(places, value) => What::Undated(*places, *value),
            What::Field(found) => What::Field(FieldValues {
                field: found.field,
                values: found.values,
            }),
        };
        self.breaks.push(Break { place, what })?;
        Ok(())
    }

    /// Appends how the fields of a pair are counted.
    pub(crate) fn push_pair(&mut self, counts: Counts) -> Result<(), Memory>
        ensures { OnOk result (self.new ≡ joined_findings self.old (one_pair counts)) }
    {
        self.pairs.push(counts)?;
        Ok(())
    }

    /// The breaks in order.
    pub fn breaks(&self) -> &[Break]
        ensures value { result.now ≡ self.now.breaks }
        ensures printable { Every IsPrintable self.now.breaks }
    {
        &self.breaks
    }

    /// How the fields of each pair of exchanges, payments and calculation periods are counted, those of a reset
    /// with those of its calculation period.
    pub fn pairs(&self) -> &[Counts]
        ensures { result.now ≡ self.now.pairs }
    {
        &self.pairs
    }

    /// Whether there is a break.
    pub fn any(&self) -> bool
        ensures { IsTrue result ↔ HasBreak self.now }
    {
        !self.breaks.is_empty()
    }
}
