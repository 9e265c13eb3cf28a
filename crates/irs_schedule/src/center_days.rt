//! The good business days by which a date is adjusted or moved (2006 ISDA Definitions, article 1, 'Business
//! Day'). They are those of the business centres that an element names, or every day of the range where
//! it needs none.
ghost use Rattle.std.specs.Prelude.{◌≡◌, ◌≤◌, ◌↔◌, length, None, option_copied, IfOk, IsTrue};
ghost use Rattle.irs_base.specs.Limits.{most_centers};
ghost use Rattle.irs_calendar.specs.GoodDays.{SameDays, set_of_runs};
ghost use Rattle.irs_calendar.specs.Sections.{day_set_of, first_missing};
ghost use Rattle.irs_schedule.specs.DaySets.{applicable_days, days_of_names, reset_days, days_of_centers};
ghost use Rattle.irs_rules.specs.TermsRules.{TermsKept};
ghost use Rattle.irs_terms.specs.Lawful.{IsLawfulStream};
ghost use Rattle.irs_schedule.specs.Private.Layouts.{CanFind, centers_named};

use irs_base::{Day, Memory, Names, Text};
use irs_calendar::{Calendars, GoodDays, RunSet, SelErr};
use irs_rules::applicable_names;
use irs_terms::{Stream, reset_names};
use std::alloc::Global;
use std::marker::Model;

/// The good business days of an element: those of the centres that it names, or every day of the range.
/// Contracts see the sections of the calendars and the names.
#[derive(Drop)]
pub struct CenterDays<'cal, 'swap> {
    cal: &'cal Calendars,
    names: Option<&'swap Names>,
    runs: RunSet,
}

impl<'cal, 'swap> Model for CenterDays<'cal, 'swap> {
    ghost use Rattle.std.specs.Prelude.{option_copied};
    ghost use Rattle.irs_calendar.specs.GoodDays.{SameDays, set_of_runs};
    ghost use Rattle.irs_schedule.specs.DaySets.{days_of_names, NamedCenters};

    ghost Value = { NamedCenters };

    ghost view = { λ c. record { sections = c.cal.now; names = option_copied c.names } };

    ghost invariant = { λ c. SameDays (set_of_runs c.runs) (days_of_names c.cal.now (option_copied c.names)) };
}

impl<'cal, 'swap> CenterDays<'cal, 'swap> {
    /// The good business days of the centres with these names; without names every day of the range. There
    /// are at most 16 names, and each is in the calendars.
    pub(crate) fn find(
        alloc: Global,
        cal: &'cal Calendars,
        names: Option<&'swap Names>,
    ) -> Result<CenterDays<'cal, 'swap>, Memory>
        requires { CanFind cal.now (option_copied names) }
        ensures { IfOk result (λ days. days ≡ centers_named cal.now (option_copied names.entry)) }
    {
        Ok(CenterDays {
            cal,
            names,
            runs: runs_of(alloc, cal, names)?,
        })
    }

    /// These are the good business days of the centres with these names.
    pub(crate) fn has_names(&self, names: Option<&Names>) -> bool
        ensures { IsTrue result ↔ self.now.names ≡ option_copied names.entry }
    {
        match (self.names, names) {
            (None, None) => true,
            (Some(own), Some(other)) => same_names(own.as_slice(), other.as_slice()),
            (None, Some(_)) | (Some(_), None) => false,
        }
    }
}

impl<'cal, 'swap> GoodDays for CenterDays<'cal, 'swap> {
    ghost days = { days_of_centers };

    fn cover(&self) -> (Day, Day) {
        self.runs.cover()
    }

    fn is_good(&self, d: Day) -> bool {
        self.runs.is_good(d)
    }

    fn next_good(&self, d: Day) -> Option<Day> {
        self.runs.next_good(d)
    }

    fn next_good_near(&self, d: Day, near: usize) -> (Option<Day>, usize) {
        self.runs.next_good_near(d, near)
    }

    fn prev_good(&self, d: Day) -> Option<Day> {
        self.runs.prev_good(d)
    }
}

/// The good business days by which the reset dates of a stream are adjusted. They are those of the centres of
/// its `resetDatesAdjustments`, or every day of the range where these adjustments need no days. The
/// names of the centres are all in the calendars. The answer is `Memory` only where memory ran out.
#[tactic(auto, using(crate::proofs::CenterLemmas::finds_reset))]
pub fn reset_days<'cal, 'swap>(
    alloc: Global,
    cal: &'cal Calendars,
    s: &'swap Stream,
) -> Result<CenterDays<'cal, 'swap>, Memory>
    requires lawful { IsLawfulStream s.now }
    requires kept { TermsKept cal.now s.now }
    ensures { IfOk result (λ days. days_of_centers days ≡ reset_days cal.now s.now) }
{
    CenterDays::find(alloc, cal, reset_names(&s.reset))
}

/// The applicable business days of a stream, on which its daily rates are observed. They are the good
/// days of the centres of its `applicableBusinessDays`, or every day of the range where it has no
/// calculation parameters. The names of the centres are all in the calendars. The answer is `Memory`
/// only where memory ran out.
#[tactic(auto, using(crate::proofs::CenterLemmas::finds_applicable))]
pub fn applicable_days<'cal, 'swap>(
    alloc: Global,
    cal: &'cal Calendars,
    s: &'swap Stream,
) -> Result<CenterDays<'cal, 'swap>, Memory>
    requires lawful { IsLawfulStream s.now }
    requires kept { TermsKept cal.now s.now }
    ensures { IfOk result (λ days. days_of_centers days ≡ applicable_days cal.now s.now) }
{
    CenterDays::find(alloc, cal, applicable_names(&s.leg))
}

// The runs of good business days of the centres with these names; without names the whole range.
fn runs_of(alloc: Global, cal: &Calendars, names: Option<&Names>) -> Result<RunSet, Memory>
    requires { CanFind cal.now (option_copied names) }
    ensures { IfOk result (λ runs. SameDays (set_of_runs runs) (days_of_names cal.now (option_copied names.entry))) }
{
    match names {
        None => Ok(RunSet::all()),
        Some(listed) => selected(alloc, cal, listed),
    }
}

// The runs of good business days of the centres with these names.
fn selected(alloc: Global, cal: &Calendars, names: &Names) -> Result<RunSet, Memory>
    requires few { length names.now ≤ most_centers }
    requires found { first_missing cal.now 1 names.now ≡ None }
    ensures { IfOk result (λ runs. SameDays (set_of_runs runs) (day_set_of cal.now names.now)) }
{
    match cal.select(alloc, names) {
        Ok(runs) => Ok(runs),
        Err(SelErr::Memory) => Err(Memory),
        Err(SelErr::NoCenter(_)) => unreachable!(),
    }
}

// The lists have the same names in the same order.
fn same_names(a: &[Text], b: &[Text]) -> bool
    ensures { IsTrue result ↔ a.now ≡ b.now }
{
    if a.len() != b.len() {
        return false;
    }
    for (i, name) in a.iter().enumerate() {
        if name.as_slice() != b[i].as_slice() {
            return false;
        }
    }
    true
}
