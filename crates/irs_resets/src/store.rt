//! Where rates are kept: by index, and for each index by date and tenor.
//!
//! A look-up takes a number of steps that is logarithmic in the number of rates.
ghost use Rattle.std.specs.Prelude.{◌≡◌, ℤ, List, [], None, IfOk, OnErr, option_copied};
ghost use Rattle.std.specs.Map.{lookup};
ghost use Rattle.std.specs.Str.{bytes_eq};
ghost use Rattle.irs_resets.specs.Rates.{is_slot, rate_at};
ghost use Rattle.irs_resets.specs.Private.FixingFiles.{AddsNew, AddsNewAt};
ghost use Rattle.irs_resets.specs.declared.store.Slot.{Slot as AtSlot};

use crate::in_order::InOrder;
use irs_base::{Day, Memory};
use irs_terms::Frequency;
use std::alloc::Global;
use std::collections::BTreeMap;
use std::marker::Model;

/// A date and a tenor.
#[derive(Clone, Copy, PartialEq, Eq, PartialOrd, Ord)]
pub struct Slot {
    /// The day on which the rate was observed.
    pub date: Day,
    /// The tenor of the index; `None` where it has none.
    pub tenor: Option<Frequency>,
}

/// The rates of one index, by date and tenor. Those that come in the order of their slots are a list. A
/// rate that comes out of order goes to a map.
#[derive(Drop)]
pub struct Rates {
    in_order: InOrder,
    others: BTreeMap<Slot, i64>,
}

impl Model for Rates {
    ghost use Rattle.std.specs.Prelude.{ℤ, List, ◌++◌};
    ghost use Rattle.irs_resets.specs.declared.store.Slot.{Slot as AtSlot};

    ghost Value = { List (AtSlot × ℤ) };

    ghost view = { λ r. r.in_order ++ r.others.entries };
}

impl Rates {
    fn new(alloc: Global) -> Rates
        ensures { result ≡ [] }
    {
        Rates {
            in_order: InOrder::new(alloc),
            others: BTreeMap::new(alloc),
        }
    }

    /// The rate of a slot, and the place where the next one may be. It is looked for at a place first.
    pub fn rate_near(&self, slot: &Slot, near: usize) -> (Option<i64>, usize)
        ensures { result.0 ≡ lookup (is_slot slot.now) self.now }
    {
        let (rate, next) = self.in_order.rate_near(slot, near);
        if rate.is_some() {
            return (rate, next);
        }
        (self.others.get(slot).copied(), next)
    }

    // Adds a rate, and whether its slot had none.
    fn add(&mut self, slot: &Slot, rate: i64) -> Result<bool, Memory>
        ensures adds { IfOk result (AddsNew self.old slot.now rate self.new) }
        ensures memory { OnErr result (lookup (is_slot slot.now) self.old ≡ None) }
    {
        if self.in_order.ends_before(slot) {
            if self.others.contains_key(slot) {
                return Ok(false);
            }
            self.in_order.push(*slot, rate)?;
            return Ok(true);
        }
        let (old, _) = self.in_order.rate_near(slot, 0);
        if old.is_some() {
            return Ok(false);
        }
        let had = self.others.insert(*slot, rate)?;
        Ok(had.is_none())
    }
}

/// The rates of all indexes.
#[derive(Drop)]
pub struct Table {
    indexes: BTreeMap<Vec<u8>, Rates>,
}

impl Model for Table {
    ghost use Rattle.std.specs.Prelude.{ℤ, ℕ, List};
    ghost use Rattle.irs_resets.specs.declared.store.Slot.{Slot as AtSlot};

    ghost Value = { List (List ℕ × List (AtSlot × ℤ)) };

    ghost use Rattle.irs_resets.specs.Rates.{by_bytes};

    ghost view = { λ t. by_bytes t.indexes.entries };
}

impl Table {
    /// No rates; it takes no memory.
    pub fn new(alloc: Global) -> Table
        ensures { result ≡ [] }
    {
        Table {
            indexes: BTreeMap::new(alloc),
        }
    }

    /// The rates of an index; `None` where there are none.
    pub fn of(&self, index: &[u8]) -> Option<&Rates>
        ensures { option_copied result ≡ lookup (bytes_eq index.now) self.now }
    {
        self.indexes.get(index)
    }

    /// Adds a rate, and whether its index had none at its date and tenor. The table can't be used any more if
    /// it had one, or if memory runs out.
    pub fn add(
        &mut self,
        alloc: Global,
        index: &[u8],
        slot: Slot,
        rate: i64,
    ) -> Result<bool, Memory>
        ensures adds { IfOk result (AddsNewAt self.old index.now slot rate self.new) }
        ensures memory { OnErr result (rate_at self.old index.now slot ≡ None) }
    {
        match self.indexes.get_mut(index) {
            Some(rates) => rates.add(&slot, rate),
            None => self.add_first(alloc, index, slot, rate),
        }
    }

    // The same of an index that has no rates.
    fn add_first(
        &mut self,
        alloc: Global,
        index: &[u8],
        slot: Slot,
        rate: i64,
    ) -> Result<bool, Memory>
        requires { lookup (bytes_eq index.now) self.old ≡ None }
        ensures adds { IfOk result (AddsNewAt self.old index.now slot rate self.new) }
    {
        let mut rates = Rates::new(alloc);
        let is_new = rates.add(&slot, rate)?;
        self.indexes.insert(Vec::from_slice(alloc, index)?, rates)?;
        Ok(is_new)
    }
}
