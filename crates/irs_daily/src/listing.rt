//! The days that make up each rate of a stream with calculation parameters, in rows.
ghost use Rattle.std.specs.Prelude.{◌≡◌, ◌++◌, ◌∷◌, ◌<◌, ◌^◌, length, IfSome, OnOk};
ghost use Rattle.irs_base.specs.Lists.{IsRising};
ghost use Rattle.irs_base.specs.Outcomes.{Meets};
ghost use Rattle.irs_terms.specs.Lawful.{IsLawfulStubs};
ghost use Rattle.irs_observed.specs.OvernightRates.{overnight_source};
ghost use Rattle.irs_daily.specs.ObservedRows.{observed_rows_of};

use crate::periods::{PeriodRows, period_rows};
use crate::rows::{NoRows, ObservedRow, ObservedRows};
use irs_base::{Day, Memory, Stopped};
use irs_calendar::GoodDays;
use irs_resets::Fixings;
use irs_terms::{CalculationParameters, FloatTerms, Span, Stream};
use std::alloc::Global;

// Appends rows.
fn push_all(rows: &mut ObservedRows, more: &[ObservedRow]) -> Result<(), Memory>
    ensures { OnOk result (rows.new ≡ rows.old ++ more.now) }
{
    for row in more {
        rows.push(*row)?;
    }
    Ok(())
}

// Appends the rows of a period.
fn push_period(rows: &mut ObservedRows, period: &PeriodRows) -> Result<(), Memory>
    ensures { OnOk result (rows.new ≡ rows.old ++ period.now.head ∷ period.now.days) }
{
    rows.push(period.head)?;
    push_all(rows, period.days.as_slice())
}

/// The days that make up each rate of a stream with calculation parameters. Each calculation period, in order, has a
/// row with its method and its factor. After it is a row for each observation with its daily rate. A stub with a
/// rate of its own has one row. `applicable` are the good business days of `applicableBusinessDays`, and `adjusted`
/// the adjusted boundaries of the periods.
///
/// `Broken` is the first calculation period without rows; where a schedule was made with these fixings, there is none.
/// `Memory` is that memory ran out.
pub fn observed_rows<G: GoodDays>(
    alloc: Global,
    s: &Stream,
    float: &FloatTerms,
    parameters: &CalculationParameters,
    span: &Span,
    adjusted: &[Day],
    applicable: &G,
    fixings: &Fixings,
) -> Result<ObservedRows, Stopped<NoRows>>
    requires few { length adjusted.now < 2 ^ 32 }
    requires rising { IsRising adjusted.now }
    requires stubs { IfSome s.now.stubs IsLawfulStubs }
    ensures meets { let source =
        overnight_source s.now span.now adjusted.now (G.days applicable.now) float.now parameters.now in
        Meets (observed_rows_of source fixings.now) result }
{
    let mut rows = ObservedRows::new(alloc);
    for number in 1..adjusted.len() {
        match period_rows(
            alloc, s, float, parameters, span, adjusted, number, applicable, fixings,
        ) {
            Ok(period) => push_period(&mut rows, &period)?,
            Err(Stopped::Broken(why)) => {
                return Err(Stopped::Broken(NoRows {
                    number: number as u32,
                    why,
                }));
            }
            Err(Stopped::Memory) => return Err(Stopped::Memory),
        }
    }
    Ok(rows)
}
