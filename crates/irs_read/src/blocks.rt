//! The blocks of a stream: frequencies, offsets, adjustments, schedules of values, parameters of daily rates.
ghost use Rattle.irs_base.specs.Lists.{Pairs};
ghost use Rattle.irs_elements.specs.Elements.{once as once_of, seen, values_in};
ghost use Rattle.irs_read.specs.Private.Sayings.{IsSaid, Or, number_by};
ghost use Rattle.irs_read.specs.StreamElements.{adjustable, adjusting as adjusting_by, adjustments as adjustments_by};
ghost use Rattle.irs_read.specs.StreamElements.{always, center_list, centers as centers_by, frequency as frequency_by};
ghost use Rattle.irs_read.specs.StreamElements.{offset as offset_by, rate, schedule as schedule_by, step as step_by};
ghost use Rattle.irs_read.specs.StreamElements.{observed, observing, parameters as parameters_by, tenor as tenor_by};
ghost use Rattle.irs_read.specs.StreamElements.{unadjusted};
ghost use Rattle.serde_json.specs.View.{view};
ghost use Rattle.std.specs.Prelude.{IfOk, Some, codes, map};

use crate::leaf_values::{Scale, center, must, number, one, or, or_else};
use crate::references::the_named;
use irs_base::Memory;
use irs_elements::{codes, leaf_text, numbers, once, values_at};
use irs_json::Value;
use irs_terms::{
    AdjustableDate, Adjustments, CalculationParameters, Centers, ConvCode, DayKind, Frequency,
    Names, ObservationOffset, Offset, Step, StepList, StepValues,
};
use itoa::Buffer;
use std::alloc::Global;

/// The lists of centres that a reference may name.
pub type Lists<'a> = &'a [Option<&'a Value>];

/// A frequency.
pub fn frequency(v: &Value) -> Frequency
    requires { IsSaid (frequency_by.says (view v.now)) }
    ensures { frequency_by.says (view v.now) result }
{
    let count = must!(v, "periodMultiplier", text => numbers::multiplier(text.as_bytes()));
    let unit = must!(v, "period", text => codes::unit(text));
    Frequency { count, unit }
}

/// A tenor.
pub fn tenor(v: &Value) -> Frequency
    requires { IsSaid (tenor_by.says (view v.now)) }
    ensures { tenor_by.says (view v.now) result }
{
    let count = must!(v, "periodMultiplier", text => numbers::multiplier(text.as_bytes()));
    let unit = must!(v, "period", text => codes::tenor_unit(text));
    Frequency { count, unit }
}

/// An offset in days.
pub fn offset(v: &Value) -> Offset
    requires { IsSaid (offset_by.says (view v.now)) }
    ensures { offset_by.says (view v.now) result }
{
    let days = must!(v, "periodMultiplier", text => numbers::offset(text.as_bytes()));
    let kind = or_else!(v, "dayType", DayKind::Unsaid, text => codes::day_kind(text));
    Offset { days, kind }
}

/// The names of a list of centres.
#[tactic(auto, using(crate::proofs::EachSaid::says_more, crate::proofs::EachSaid::says_all))]
pub fn names(alloc: Global, list: &Value) -> Result<Names, Memory>
    requires { IsSaid (center_list.says (view list.now)) }
    ensures { IfOk result (center_list.says (view list.now)) }
{
    let mut names = Names::new(alloc);
    for name in values_at(list, "businessCenter") {
        names.push(center(alloc, name)?)?;
    }
    Ok(names)
}

// The centres of the list that is referenced, else of the list that is given here.
fn centers(alloc: Global, lists: Lists, v: &Value) -> Result<Centers, Memory>
    requires { IsSaid ((centers_by (map seen lists.now)).says (view v.now)) }
    ensures { IfOk result ((centers_by (map seen lists.now)).says (view v.now)) }
{
    match once(v, "businessCentersReference") {
        None => Ok(
            or!(v, "businessCenters", Centers::Absent, list => Centers::Listed(names(alloc, list)?)),
        ),
        Some(reference) => match the_named(lists, reference) {
            None => Ok(Centers::Dangling),
            Some(list) => Ok(Centers::Listed(names(alloc, list)?)),
        },
    }
}

/// The members of adjustments.
pub fn adjusting(alloc: Global, lists: Lists, v: &Value) -> Result<Adjustments, Memory>
    requires { IsSaid ((adjusting_by (map seen lists.now)).says (view v.now)) }
    ensures { IfOk result ((adjusting_by (map seen lists.now)).says (view v.now)) }
{
    let code = must!(v, "businessDayConvention", text => codes::convention(text));
    let centers = centers(alloc, lists, v)?;
    Ok(Adjustments { code, centers })
}

/// Adjustments, NONE without centres where they are absent.
pub fn adjustments_or(
    alloc: Global,
    lists: Lists,
    v: &Value,
    name: &str,
) -> Result<Adjustments, Memory>
    requires { IsSaid (Or (adjustments_by (map seen lists.now)).says unadjusted (once_of name.now (view v.now))) }
    ensures { IfOk result (Or (adjustments_by (map seen lists.now)).says unadjusted (once_of name.now (view v.now))) }
{
    Ok(
        or!(v, name, Adjustments { code: ConvCode::Unadjusted, centers: Centers::Absent },
            v => adjusting(alloc, lists, v)?),
    )
}

/// A date, and how it is adjusted: `unadjustedDate` and `dateAdjustments`, which both occur.
pub fn adjustable_date(alloc: Global, lists: Lists, v: &Value) -> Result<AdjustableDate, Memory>
    requires { IsSaid ((adjustable (map seen lists.now)).says (view v.now)) }
    ensures { IfOk result ((adjustable (map seen lists.now)).says (view v.now)) }
{
    let day = must!(v, "unadjustedDate", text => numbers::day(text.as_bytes()));
    let adj = one!(v, "dateAdjustments", v => adjusting(alloc, lists, v)?);
    Ok(AdjustableDate { day, adj })
}

fn step(scale: Scale, v: &Value) -> Step
    requires { IsSaid ((step_by (number_by scale)).says (view v.now)) }
    ensures { (step_by (number_by scale)).says (view v.now) result }
{
    let day = must!(v, "stepDate", text => numbers::day(text.as_bytes()));
    let value = number(scale, v, "stepValue");
    Step { day, value }
}

#[tactic(auto, using(crate::proofs::EachSaid::says_more, crate::proofs::EachSaid::says_all))]
fn steps(alloc: Global, scale: Scale, v: &Value) -> Result<StepList, Memory>
    requires { IsSaid (Pairs (step_by (number_by scale)).says (values_in (codes "step") (Some (view v.now)))) }
    ensures { IfOk result
        (Pairs (step_by (number_by scale)).says (values_in (codes "step") (Some (view v.now)))) }
{
    let mut steps = StepList::new(alloc);
    for found in values_at(v, "step") {
        steps.push(step(scale, found))?;
    }
    Ok(steps)
}

/// A schedule of values.
pub fn schedule(alloc: Global, scale: Scale, v: &Value) -> Result<StepValues, Memory>
    requires { IsSaid ((schedule_by (number_by scale)).says (view v.now)) }
    ensures { IfOk result ((schedule_by (number_by scale)).says (view v.now)) }
{
    let initial = number(scale, v, "initialValue");
    let steps = steps(alloc, scale, v)?;
    Ok(StepValues { initial, steps })
}

/// A schedule of rates, or one value without steps where it is absent.
pub fn schedule_or(
    alloc: Global,
    initial: i128,
    v: &Value,
    name: &str,
) -> Result<StepValues, Memory>
    requires { IsSaid (Or (schedule_by rate).says (always initial) (once_of name.now (view v.now))) }
    ensures { IfOk result
        (Or (schedule_by rate).says (always initial) (once_of name.now (view v.now))) }
{
    Ok(
        or!(v, name, StepValues { initial, steps: StepList::new(alloc) }, v => schedule(alloc, Scale::Rates, v)?),
    )
}

// The days of an observation shift, a lookback or a lockout.
fn offset_days(v: &Value) -> u8
    requires { IsSaid (observed.says (view v.now)) }
    ensures { observed.says (view v.now) result }
{
    must!(v, "offsetDays", text => numbers::observation_days(text.as_bytes()))
}

// An observation shift, a lookback or a lockout, whichever is there.
fn observation_offset(v: &Value) -> ObservationOffset
    requires { IsSaid (observing.says (view v.now)) }
    ensures { observing.says (view v.now) result }
{
    if let Some(shift) = once(v, "observationShift") {
        ObservationOffset::Shift(offset_days(shift))
    } else if let Some(lookback) = once(v, "lookback") {
        ObservationOffset::Lookback(offset_days(lookback))
    } else {
        or!(v, "lockout", ObservationOffset::Absent, lockout => ObservationOffset::Lockout(offset_days(lockout)))
    }
}

/// How daily rates become the rate of a period.
pub fn parameters(alloc: Global, v: &Value) -> Result<CalculationParameters, Memory>
    requires { IsSaid (parameters_by.says (view v.now)) }
    ensures { IfOk result (parameters_by.says (view v.now)) }
{
    let method = must!(v, "calculationMethod", text => codes::calculation_method(text));
    let offset = observation_offset(v);
    let centers = one!(v, "applicableBusinessDays", list => names(alloc, list)?);
    Ok(CalculationParameters {
        method,
        offset,
        centers,
    })
}
