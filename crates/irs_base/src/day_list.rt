//! Lists of days.
ghost use Rattle.std.specs.Prelude.{◌≡◌, ℤ, List, [], ◌∷◌, ◌++◌, length, IfOk, OnOk, OnErr};
ghost use Rattle.irs_base.specs.Lists.{AreDays};

use crate::{Day, Memory};
use std::alloc::Global;
use std::marker::Model;

/// Days in order.
#[derive(Drop)]
pub struct DayList {
    days: Vec<Day>,
}

impl Model for DayList {
    ghost Value = { List ℤ };

    ghost view = { λ t. t.days.items };

    ghost invariant = { λ t. AreDays t.days.items };
}

impl DayList {
    /// The empty list; it takes no memory.
    pub fn new(alloc: Global) -> DayList
        ensures { result ≡ [] }
    {
        DayList {
            days: Vec::new(alloc),
        }
    }

    /// Appends a day. If memory ran out the list is as it was.
    #[tactic(auto, using(crate::proofs::DayListLemmas::are_days_more))]
    pub fn push(&mut self, x: Day) -> Result<(), Memory>
        ensures ok { OnOk result (self.new ≡ self.old ++ x ∷ []) }
        ensures err { OnErr result (self.new ≡ self.old) }
    {
        // hands the prover the range of the day
        let _number = x.number();
        self.days.push(x)?;
        Ok(())
    }

    /// How many days there are.
    pub fn len(&self) -> usize
        ensures { result ≡ length self.now }
    {
        self.days.len()
    }

    /// The days in order.
    pub fn as_slice(&self) -> &[Day]
        ensures value { result.now ≡ self.now }
        ensures days { AreDays self.now }
    {
        &self.days
    }

    /// An equal list; `Memory` where memory ran out.
    pub fn copy(&self, alloc: Global) -> Result<DayList, Memory>
        ensures { IfOk result (λ t. t ≡ self.now) }
    {
        Ok(DayList {
            days: Vec::from_slice(alloc, &self.days)?,
        })
    }
}
