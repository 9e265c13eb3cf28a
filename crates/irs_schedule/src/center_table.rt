//! The good business days of the streams of a swap. Each list of centres is looked up in the calendars once,
//! however many elements and streams have it.
ghost use Rattle.std.specs.Prelude.{◌≡◌, ◌↔◌, ℕ, Contains, Some, option_copied, IfOk, IsSome, IsTrue, IfSome, OnOk};
ghost use Rattle.std.specs.Prelude.{slice_get};
ghost use Rattle.irs_terms.specs.Lawful.{IsLawfulSwap, IsLawfulStream};
ghost use Rattle.irs_terms.specs.declared.stream.Stream.{Stream as StreamTerms};
ghost use Rattle.irs_schedule.specs.DaySets.{applicable_days, boundary_days, payment_days, reset_days, fixing_days};
ghost use Rattle.irs_schedule.specs.DaySets.{days_of_centers};
ghost use Rattle.irs_schedule.specs.Private.Layouts.{CanFind, HasMore, HasMoreOf, HasStream, HasSwap, centers_named};
ghost use Rattle.irs_rules.specs.TermsRules.{TermsKept};

use crate::center_days::CenterDays;
use irs_base::{Memory, Names};
use irs_calendar::Calendars;
use irs_rules::applicable_names;
use irs_terms::{Stream, Swap, fixing_names, names_by, names_with, reset_names};
use std::alloc::Global;
use std::marker::Model;

/// The good business days of the lists of centres that the elements of a swap name, each list once. Contracts
/// see the sections of the calendars and the lists.
#[derive(Drop)]
pub struct CenterTable<'cal, 'swap> {
    cal: &'cal Calendars,
    found: Vec<CenterDays<'cal, 'swap>>,
}

impl<'cal, 'swap> Model for CenterTable<'cal, 'swap> {
    ghost use Rattle.std.specs.Prelude.{◌≡◌, All, map};
    ghost use Rattle.irs_schedule.specs.DaySets.{FoundCenters};

    ghost Value = { FoundCenters };

    ghost view = { λ t. record { sections = t.cal.now; lists = map (λ days. days.names) t.found.items } };

    ghost invariant = { λ t. All (λ days. days.sections ≡ t.cal.now) t.found.items };
}

/// The good business days of one stream's elements, out of a table.
#[derive(Drop)]
pub(crate) struct StreamDays<'a> {
    /// Of the first boundary: of `firstPeriodStartDate`, else of the effective date.
    pub start: &'a CenterDays<'a, 'a>,
    /// Of the termination date.
    pub end: &'a CenterDays<'a, 'a>,
    /// Of the other boundaries of calculation periods.
    pub middle: &'a CenterDays<'a, 'a>,
    /// Of payment dates and of principal exchanges.
    pub payment: &'a CenterDays<'a, 'a>,
    /// Of reset dates.
    pub reset: &'a CenterDays<'a, 'a>,
    /// Of fixing dates.
    pub fixing: &'a CenterDays<'a, 'a>,
    /// The applicable business days of daily rates.
    pub applicable: &'a CenterDays<'a, 'a>,
}

impl<'cal, 'swap> CenterTable<'cal, 'swap> {
    /// The table without lists over these calendars; it takes no memory.
    pub fn none(alloc: Global, cal: &'cal Calendars) -> CenterTable<'cal, 'swap>
        ensures { result.sections ≡ cal.now }
    {
        CenterTable {
            cal,
            found: Vec::new(alloc),
        }
    }

    /// The calendars in which the lists of centres are looked up.
    pub fn calendars(&self) -> &Calendars
        ensures { result.now ≡ self.now.sections }
    {
        self.cal
    }

    /// The good business days of every element of the swap, whose centres are all in the calendars.
    pub(crate) fn new(
        alloc: Global,
        swap: &'swap Swap,
        cal: &'cal Calendars,
    ) -> Result<CenterTable<'cal, 'swap>, Memory>
        requires lawful { IsLawfulSwap swap.now }
        requires kept { (i : ℕ) (s : StreamTerms) → slice_get swap.now.streams i ≡ Some s → TermsKept cal.now s }
        ensures { IfOk result (HasSwap cal.now swap.now) }
    {
        let mut table = CenterTable::none(alloc, cal);
        for s in swap.streams.as_slice() {
            table.add_stream(alloc, s)?;
        }
        Ok(table)
    }

    /// Whether the table has the names of each element of the swap.
    pub(crate) fn has_swap(&self, swap: &Swap) -> bool
        ensures { IsTrue result → HasSwap self.now.sections swap.now self.now }
    {
        for s in swap.streams.as_slice() {
            if !self.has_stream(s) {
                return false;
            }
        }
        true
    }

    // Whether the table has the names of each element of the stream.
    fn has_stream(&self, s: &Stream) -> bool
        ensures { IsTrue result → HasStream self.now s.now }
    {
        if !self.has(names_by(&s.first_date().adj)) {
            return false;
        }
        if !self.has(names_by(&s.termination.adj)) {
            return false;
        }
        if !self.has(names_by(&s.period_adj)) {
            return false;
        }
        if !self.has(names_with(s.pay.offset, &s.pay.adj)) {
            return false;
        }
        if !self.has(reset_names(&s.reset)) {
            return false;
        }
        if !self.has(fixing_names(&s.reset)) {
            return false;
        }
        self.has(applicable_names(&s.leg))
    }

    // Whether the table has these names.
    fn has(&self, names: Option<&Names>) -> bool
        ensures { IsTrue result ↔ Contains self.now.lists (option_copied names.entry) }
    {
        self.get(names).is_some()
    }

    /// The good business days of a stream of the swap.
    pub(crate) fn stream_days<'table>(&'table self, s: &Stream) -> StreamDays<'table>
        requires { HasStream self.now s.now }
        ensures start { days_of_centers result.start.now ≡ (boundary_days self.now.sections s.now).start }
        ensures end { days_of_centers result.end.now ≡ (boundary_days self.now.sections s.now).end }
        ensures middle { days_of_centers result.middle.now ≡ (boundary_days self.now.sections s.now).middle }
        ensures payment { days_of_centers result.payment.now ≡ payment_days self.now.sections s.now }
        ensures reset { days_of_centers result.reset.now ≡ reset_days self.now.sections s.now }
        ensures fixing { days_of_centers result.fixing.now ≡ fixing_days self.now.sections s.now }
        ensures applicable { days_of_centers result.applicable.now ≡ applicable_days self.now.sections s.now }
    {
        StreamDays {
            start: self.days_of(names_by(&s.first_date().adj)),
            end: self.days_of(names_by(&s.termination.adj)),
            middle: self.days_of(names_by(&s.period_adj)),
            payment: self.days_of(names_with(s.pay.offset, &s.pay.adj)),
            reset: self.days_of(reset_names(&s.reset)),
            fixing: self.days_of(fixing_names(&s.reset)),
            applicable: self.days_of(applicable_names(&s.leg)),
        }
    }

    // The good business days of each element of one more stream.
    fn add_stream(&mut self, alloc: Global, s: &'swap Stream) -> Result<(), Memory>
        requires lawful { IsLawfulStream s.now }
        requires kept { TermsKept self.old.sections s.now }
        ensures { OnOk result (HasMoreOf s.now self.old self.new) }
    {
        self.add(alloc, names_by(&s.first_date().adj))?;
        self.add(alloc, names_by(&s.termination.adj))?;
        self.add(alloc, names_by(&s.period_adj))?;
        self.add(alloc, names_with(s.pay.offset, &s.pay.adj))?;
        self.add(alloc, reset_names(&s.reset))?;
        self.add(alloc, fixing_names(&s.reset))?;
        self.add(alloc, applicable_names(&s.leg))?;
        Ok(())
    }

    // The good business days of the centres with these names, which may have been found already.
    fn add(&mut self, alloc: Global, names: Option<&'swap Names>) -> Result<(), Memory>
        requires { CanFind self.old.sections (option_copied names) }
        ensures { OnOk result (HasMore (option_copied names.entry) self.old self.new) }
    {
        if self.has(names) {
            return Ok(());
        }
        let days = CenterDays::find(alloc, self.cal, names)?;
        self.found.push(days)?;
        Ok(())
    }

    // The good business days of the centres with these names, where the table has them.
    fn get(&self, names: Option<&Names>) -> Option<&CenterDays<'cal, 'swap>>
        ensures there { IsSome result ↔ Contains self.now.lists (option_copied names.entry) }
        ensures value { IfSome result (λ days. days.now ≡ centers_named self.now.sections (option_copied names.entry)) }
    {
        for days in &self.found {
            if days.has_names(names) {
                return Some(days);
            }
        }
        None
    }

    // The good business days of the centres with these names, which the table has.
    fn days_of(&self, names: Option<&Names>) -> &CenterDays<'cal, 'swap>
        requires { Contains self.now.lists (option_copied names) }
        ensures { result.now ≡ centers_named self.now.sections (option_copied names.entry) }
    {
        match self.get(names) {
            Some(days) => days,
            None => unreachable!(),
        }
    }
}
