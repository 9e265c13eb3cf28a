//! Rates in the order of their dates and tenors.
ghost use Rattle.std.specs.Prelude.{◌≡◌, ◌<◌, ◌++◌, ◌∷◌, ℤ, [], length, slice_get, IfSome, IfNone, IsTrue, OnOk};
ghost use Rattle.std.specs.Map.{lookup};
ghost use Rattle.irs_resets.specs.Rates.{is_slot};
ghost use Rattle.irs_resets.specs.SlotOrder.{AreInOrder};
ghost use Rattle.irs_resets.specs.Private.SlotOrder.{ComesAfter, IsPlace};

use crate::store::Slot;
use irs_base::Memory;
use std::alloc::Global;
use std::cmp::Ordering;
use std::marker::Model;

/// Rates in the order of their slots, each slot once.
#[derive(Drop)]
pub struct InOrder {
    entries: Vec<(Slot, i64)>,
}

impl Model for InOrder {
    ghost use Rattle.std.specs.Prelude.{ℤ, List};
    ghost use Rattle.irs_resets.specs.declared.store.Slot.{Slot as AtSlot};
    ghost use Rattle.irs_resets.specs.SlotOrder.{AreInOrder};

    ghost Value = { List (AtSlot × ℤ) };

    ghost view = { λ r. r.entries.items };

    ghost invariant = { λ r. AreInOrder r.entries.items };
}

// Whether the rate at a place is that of the slot.
fn is_there(entries: &[(Slot, i64)], place: usize, slot: &Slot) -> bool
    ensures { IsTrue result → IsPlace entries.now slot.now place }
{
    place < entries.len() && slot.cmp(&entries[place].0).is_eq()
}

// The place of the slot, by halves.
fn place_of(entries: &[(Slot, i64)], slot: &Slot) -> Option<usize>
    requires { AreInOrder entries.now }
    ensures some { IfSome result (IsPlace entries.now slot.now) }
    ensures none { IfNone result (lookup (is_slot slot.now) entries.now ≡ None) }
{
    let mut low = 0;
    let mut high = entries.len();
    while low < high {
        let mid = low + (high - low) / 2;
        match slot.cmp(&entries[mid].0) {
            Ordering::Greater => low = mid + 1,
            Ordering::Equal => return Some(mid),
            Ordering::Less => high = mid,
        }
    }
    None
}

// The place of the slot: the one that is named, if it is there, else by halves.
fn find(entries: &[(Slot, i64)], slot: &Slot, near: usize) -> Option<usize>
    requires { AreInOrder entries.now }
    ensures some { IfSome result (IsPlace entries.now slot.now) }
    ensures none { IfNone result (lookup (is_slot slot.now) entries.now ≡ None) }
{
    if is_there(entries, near, slot) {
        Some(near)
    } else {
        place_of(entries, slot)
    }
}

// The slot and the rate at a place.
fn entry_at(entries: &[(Slot, i64)], place: usize) -> (Slot, i64)
    requires { place < length entries.now }
    ensures { slice_get entries.now place ≡ Some result }
{
    entries[place]
}

// Whether the slot comes after those of the rates.
fn comes_after(entries: &[(Slot, i64)], slot: &Slot) -> bool
    requires { AreInOrder entries.now }
    ensures { IsTrue result → ComesAfter entries.now slot.now }
{
    let count = entries.len();
    count == 0 || entries[count - 1].0.cmp(slot).is_lt()
}

impl InOrder {
    /// No rates; it takes no memory.
    pub fn new(alloc: Global) -> InOrder
        ensures { result ≡ [] }
    {
        InOrder {
            entries: Vec::new(alloc),
        }
    }

    /// Whether the slot comes after those of the rates.
    pub fn ends_before(&self, slot: &Slot) -> bool
        ensures { IsTrue result → ComesAfter self.now slot.now }
    {
        comes_after(self.entries.as_slice(), slot)
    }

    /// The rate of a slot, and the place after it. It is looked for at a place first, and then by halves.
    pub fn rate_near(&self, slot: &Slot, near: usize) -> (Option<i64>, usize)
        ensures { result.0 ≡ lookup (is_slot slot.now) self.now }
    {
        let entries = self.entries.as_slice();
        match find(entries, slot, near) {
            Some(place) => {
                let (_, rate) = entry_at(entries, place);
                (Some(rate), place + 1)
            }
            None => (None, near),
        }
    }

    /// Adds the rate of a slot that comes after the others.
    pub fn push(&mut self, slot: Slot, rate: i64) -> Result<(), Memory>
        requires { ComesAfter self.old slot }
        ensures ok { OnOk result (self.new ≡ self.old ++ (slot, rate) ∷ []) }
    {
        self.entries.push((slot, rate))?;
        Ok(())
    }
}
