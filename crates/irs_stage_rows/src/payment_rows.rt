//! What is reported of payments: the rule that is broken, or of each payment its date and its first
//! and last calculation period. The adjusted date follows where it is another.
ghost use Rattle.std.specs.Prelude.{IsTrue};
ghost use Rattle.irs_terms.specs.Lawful.{IsLawfulStream};
ghost use Rattle.irs_terms.specs.Centers.{IsSaid};

use crate::boundaries::{Boundaries, boundaries_of, run_from_to};
use crate::good_days::days_of;
use crate::telling::Told;
use irs_base::Day;
use irs_calendar::Calendars;
use irs_payments::payments;
use irs_terms::{DayKind, Offset, Payments, Span, Stream, StubKind};
use std::alloc::Global;

// Whether the offset is 0, or its kind of days is said.
fn is_said(offset: &Offset) -> bool
    ensures { IsTrue result → IsSaid offset.now }
{
    match offset.kind {
        DayKind::Business | DayKind::Calendar => true,
        DayKind::Unsaid => offset.days == 0,
    }
}

fn span_of(first: Day, last: Day, anchor: Day) -> Span {
    Span {
        first,
        last,
        anchor,
    }
}

// The regular span. It begins after the first period where the stub is an initial one, and ends
// before the last period where it is a final one. Else it is the whole term.
fn regular_part(stub: Option<StubKind>, days: &[Day]) -> Option<Span> {
    let first = *days.first()?;
    let last = *days.last()?;
    let second = *days.get(1)?;
    let last_but_one = *days.get(days.len().saturating_sub(2))?;
    match stub {
        None => Some(span_of(first, last, first)),
        Some(StubKind::ShortInitial | StubKind::LongInitial) => Some(span_of(second, last, last)),
        Some(StubKind::ShortFinal | StubKind::LongFinal) => {
            Some(span_of(first, last_but_one, first))
        }
    }
}

/// What is reported of a list of payments.
pub fn payments_told(told: &mut Told, list: &Payments) {
    let mut between = "";
    for payment in list.as_slice() {
        told.dates(between, payment.unadjusted, payment.adjusted);
        told.number(" ", payment.first_period);
        told.number("-", payment.last_period);
        between = ", ";
    }
    told.end();
}

fn payments_over(
    told: &mut Told,
    alloc: Global,
    calendars: &Calendars,
    s: &Stream,
    boundaries: &Boundaries,
) -> Option<()>
    requires { IsLawfulStream s.now }
{
    let Boundaries {
        unadjusted,
        adjusted,
    } = boundaries;
    let (from, to) = (s.first_day(), s.termination.day);
    if !is_said(&s.pay.offset)
        || to <= from
        || !run_from_to(unadjusted.as_slice(), from, to)
        || adjusted.len() != unadjusted.len()
    {
        return None;
    }
    let span = regular_part(s.stub, unadjusted.as_slice())?;
    let days = days_of(alloc, calendars, &s.pay.adj.centers)?;
    match payments(alloc, s, &span, unadjusted, adjusted, &days) {
        Ok(list) => {
            payments_told(told, &list);
            Some(())
        }
        Err(stopped) => told.stopped(stopped),
    }
}

/// The payments of a stream over boundaries.
pub fn payment_lines(
    told: &mut Told,
    alloc: Global,
    calendars: &Calendars,
    s: &Stream,
    beside: &str,
) -> Option<()>
    requires { IsLawfulStream s.now }
{
    let boundaries = boundaries_of(alloc, beside)?;
    payments_over(told, alloc, calendars, s, &boundaries)
}
