//! What is reported of steps: `on the boundaries`, or the first that is off them.
ghost use Rattle.irs_terms.specs.Lawful.{IsLawfulStream};

use crate::boundaries::{boundaries_of, is_rising};
use crate::telling::Told;
use irs_base::DayList;
use irs_payments::check_steps;
use irs_terms::Stream;
use std::alloc::Global;

fn steps_told(told: &mut Told, s: &Stream, list: &DayList) -> Option<()>
    requires { IsLawfulStream s.now }
{
    if !is_rising(list.as_slice()) {
        return None;
    }
    match check_steps(s, list) {
        Ok(()) => told.line("on the boundaries"),
        Err(fault) => told.fault(fault),
    }
    Some(())
}

/// Whether the steps of a stream are on boundaries.
pub fn step_lines(told: &mut Told, alloc: Global, s: &Stream, beside: &str) -> Option<()>
    requires { IsLawfulStream s.now }
{
    let boundaries = boundaries_of(alloc, beside)?;
    steps_told(told, s, &boundaries.unadjusted)
}
