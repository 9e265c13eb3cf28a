//! The holidays of a centre: days that rise strictly.
ghost use Rattle.std.specs.Prelude.{◌≡◌, ℤ, List, [], ◌∷◌, ◌++◌, OnOk, OnErr, Some, length};
ghost use Rattle.irs_calendar.specs.Rising.{RisesByPlace};
ghost use Rattle.irs_calendar.specs.Private.Rising.{IsAfter, all_before};

use irs_base::{Day, Memory};
use std::alloc::Global;
use std::marker::Model;

/// Days that rise strictly.
#[derive(Drop)]
pub struct Holidays {
    days: Vec<Day>,
}

impl Model for Holidays {
    ghost Value = { List ℤ };

    ghost view = { λ h. h.days.items };

    ghost invariant = { λ h. RisesByPlace h.days.items };
}

impl Holidays {
    /// No days.
    pub fn new(alloc: Global) -> Holidays
        ensures { result ≡ [] }
    {
        Holidays {
            days: Vec::new(alloc),
        }
    }

    /// Appends a day, which is after the others.
    pub fn push(&mut self, d: Day) -> Result<(), Memory>
        requires { IsAfter d self.old }
        ensures ok { OnOk result (self.new ≡ self.old ++ d ∷ []) }
        ensures err { OnErr result (self.new ≡ self.old) }
    {
        self.days.push(d)?;
        Ok(())
    }

    /// The days in order.
    pub fn as_slice(&self) -> &[Day]
        ensures { result.now ≡ self.now }
    {
        &self.days
    }

    /// How many days there are.
    pub fn len(&self) -> usize
        ensures { result ≡ length self.now }
    {
        self.days.len()
    }

    /// The day is after each of them.
    pub fn is_after(&self, d: Day) -> bool
        ensures { result ≡ all_before d self.now }
    {
        match self.days.last() {
            None => true,
            Some(x) => *x < d,
        }
    }
}
