//! The pairing of two lists of rows by their dates.
//!
//! On a date that both lists have, our k-th row is paired with their k-th row. These common dates cut the
//! other dates into gaps. Where a gap holds as many rows of ours as of theirs, they are paired in order. The
//! standard has no such pairing; it is our rule.
ghost use Rattle.std.specs.Prelude.{◌≡◌, ◌<◌, ◌≤◌, ℕ, ℤ, IfOk, IsFalse, IsTrue, OnOk, Option, is_none, length, take};
ghost use Rattle.irs_base.specs.Lists.{Every, Pairs};
ghost use Rattle.irs_breaks.specs.Pairing.{At, IsPairing, IsPlacedRow, row_of_ours};
ghost use Rattle.irs_breaks.specs.Private.Blocks.{AreRising, IsBlock, IsEdge, IsPartner, IsBeforeAll, IsMergedBefore};
ghost use Rattle.irs_breaks.specs.Private.Blocks.{IsMergedTo, IsNotBefore, ListsUndated, ListsUndatedExtras};
ghost use Rattle.irs_breaks.specs.declared.dated.DatedRow.{DatedRow};

use crate::blocks::{Block, next_block};
use crate::dated::rows_in_order;
use crate::{DatedRow, PairedRow};
use irs_base::{Day, Memory};
use std::alloc::Global;

// The place of the partner of the row of ours at the place k of a block.
fn partner(
    ours: &[DatedRow],
    theirs: &[DatedRow],
    i: usize,
    j: usize,
    block: Block,
    k: usize,
) -> Option<usize>
    requires ours { AreRising ours.now }
    requires theirs { AreRising theirs.now }
    requires edge { IsEdge ours.now theirs.now i j }
    requires block { IsBlock ours.now theirs.now i j block }
    requires low { i ≤ k }
    requires high { k < block.ours }
    ensures { (x : DatedRow) → At ours.now k x → IsPartner ours.now theirs.now x result }
{
    if k - i < block.pairs {
        Some(theirs[j + (k - i)].place)
    } else {
        None
    }
}

// The partners of the rows of ours in a block.
fn push_partners(
    partners: &mut Vec<Option<usize>>,
    ours: &[DatedRow],
    theirs: &[DatedRow],
    i: usize,
    j: usize,
    block: Block,
) -> Result<(), Memory>
    requires ours { AreRising ours.now }
    requires theirs { AreRising theirs.now }
    requires edge { IsEdge ours.now theirs.now i j }
    requires block { IsBlock ours.now theirs.now i j block }
    requires so_far { Pairs (IsPartner ours.now theirs.now) (take i ours.now) partners.old.items }
    ensures { OnOk result (Pairs (IsPartner ours.now theirs.now) (take block.ours ours.now) partners.new.items) }
{
    for k in i..block.ours {
        partners.push(partner(ours, theirs, i, j, block, k))?;
    }
    Ok(())
}

// The partner of each row of ours.
fn partners(
    alloc: Global,
    ours: &[DatedRow],
    theirs: &[DatedRow],
) -> Result<Vec<Option<usize>>, Memory>
    requires ours { AreRising ours.now }
    requires theirs { AreRising theirs.now }
    ensures { IfOk result (λ list. Pairs (IsPartner ours.now theirs.now) ours.now list.items) }
{
    let mut list = Vec::new(alloc);
    let (mut i, mut j) = (0, 0);
    while i < ours.len() || j < theirs.len() {
        let block = next_block(ours, theirs, i, j);
        push_partners(&mut list, ours, theirs, i, j, block)?;
        i = block.ours;
        j = block.theirs;
    }
    Ok(list)
}

// Whether the row at a place has no partner.
fn is_alone(partners: &[Option<usize>], place: usize) -> bool
    requires { place < length partners.now }
    ensures { (o : Option ℕ) → At partners.now place o → result ≡ is_none o }
{
    match partners[place] {
        Some(_partner) => false,
        None => true,
    }
}

// Whether the row of theirs at the place q has an earlier date than the rows of ours from the place p on.
fn comes_first(ours: &[DatedRow], p: usize, theirs: &[DatedRow], q: usize) -> bool
    requires ours { AreRising ours.now }
    requires in_ours { p ≤ length ours.now }
    requires in_theirs { q < length theirs.now }
    ensures first { IsTrue result → IsBeforeAll ours.now p theirs.now q }
    ensures after { IsFalse result → IsNotBefore ours.now p theirs.now q }
{
    p == ours.len() || theirs[q].day < ours[p].day
}

// Appends the rows of theirs from the place q on that come before the row of ours at the place p and have no
// partner. The result is the place of the first row of theirs after them.
fn push_before(
    rows: &mut Vec<PairedRow>,
    ours: &[DatedRow],
    p: usize,
    theirs: &[DatedRow],
    partners: &[Option<usize>],
    q: usize,
) -> Result<usize, Memory>
    requires ours { AreRising ours.now }
    requires theirs { AreRising theirs.now }
    requires partners { Pairs (IsPartner theirs.now ours.now) theirs.now partners.now }
    requires within { p ≤ length ours.now }
    requires merged { IsMergedTo ours.now theirs.now p q rows.old.items }
    ensures { IfOk result (λ r. IsMergedBefore ours.now theirs.now p r rows.new.items) }
{
    let mut next = q;
    while next < theirs.len() && comes_first(ours, p, theirs, next) {
        if is_alone(partners, next) {
            let row = theirs[next];
            rows.push(PairedRow {
                day: Some(row.day),
                ours: None,
                theirs: Some(row.place),
            })?;
        }
        next += 1;
    }
    Ok(next)
}

// The row of ours at a place, with its partner.
fn paired_row(ours: &[DatedRow], partners: &[Option<usize>], place: usize) -> PairedRow
    requires ours { place < length ours.now }
    requires partners { place < length partners.now }
    ensures { (x : DatedRow) (o : Option ℕ) → At ours.now place x → At partners.now place o → result ≡ row_of_ours x o }
{
    let row = ours[place];
    PairedRow {
        day: Some(row.day),
        ours: Some(row.place),
        theirs: partners[place],
    }
}

// The rows of both lists in order, those that are paired once.
fn merged(
    alloc: Global,
    ours: &[DatedRow],
    theirs: &[DatedRow],
    of_ours: &[Option<usize>],
    of_theirs: &[Option<usize>],
) -> Result<Vec<PairedRow>, Memory>
    requires ours { AreRising ours.now }
    requires theirs { AreRising theirs.now }
    requires of_ours { Pairs (IsPartner ours.now theirs.now) ours.now of_ours.now }
    requires of_theirs { Pairs (IsPartner theirs.now ours.now) theirs.now of_theirs.now }
    ensures { IfOk result (λ rows. IsMergedTo ours.now theirs.now (length ours.now) (length theirs.now) rows.items) }
{
    let mut rows = Vec::new(alloc);
    let mut q = 0;
    for p in 0..ours.len() {
        q = push_before(&mut rows, ours, p, theirs, of_theirs, q)?;
        rows.push(paired_row(ours, of_ours, p))?;
    }
    push_before(&mut rows, ours, ours.len(), theirs, of_theirs, q)?;
    Ok(rows)
}

// Whether the row at a place has no date.
fn is_undated(dates: &[Option<Day>], place: usize) -> bool
    requires { place < length dates.now }
    ensures { (date : Option ℤ) → At dates.now place date → result ≡ is_none date }
{
    match dates[place] {
        Some(_) => false,
        None => true,
    }
}

// The rows of ours without a date.
fn push_undated(rows: &mut Vec<PairedRow>, ours: &[Option<Day>]) -> Result<(), Memory>
    ensures { OnOk result (ListsUndated ours.now rows.old.items rows.new.items (length ours.now)) }
{
    for place in 0..ours.len() {
        if is_undated(ours, place) {
            rows.push(PairedRow {
                day: None,
                ours: Some(place),
                theirs: None,
            })?;
        }
    }
    Ok(())
}

// The rows of theirs without a date, after those of ours.
fn push_undated_extras(rows: &mut Vec<PairedRow>, theirs: &[Option<Day>]) -> Result<(), Memory>
    ensures { OnOk result (ListsUndatedExtras theirs.now rows.old.items rows.new.items (length theirs.now)) }
{
    for place in 0..theirs.len() {
        if is_undated(theirs, place) {
            rows.push(PairedRow {
                day: None,
                ours: None,
                theirs: Some(place),
            })?;
        }
    }
    Ok(())
}

/// The rows of two lists, by their dates: each pair, and each row that has no partner. They are ordered by
/// our date, or theirs where ours is absent, then by our place, then by theirs. What is absent comes last.
/// Only rows whose date isn't before `from`, and rows without a date, take part; the earliest day takes all.
/// `Memory` comes only where memory ran out.
pub fn pair_rows(
    alloc: Global,
    from: Day,
    ours: &[Option<Day>],
    theirs: &[Option<Day>],
) -> Result<Vec<PairedRow>, Memory>
    ensures pairing { IfOk result (λ rows. IsPairing from ours.now theirs.now rows.items) }
    ensures placed { IfOk result (λ rows. Every (IsPlacedRow (length ours.now) (length theirs.now)) rows.items) }
{
    let our_rows = rows_in_order(alloc, from, ours)?;
    let their_rows = rows_in_order(alloc, from, theirs)?;
    let of_ours = partners(alloc, &our_rows, &their_rows)?;
    let of_theirs = partners(alloc, &their_rows, &our_rows)?;
    let mut rows = merged(alloc, &our_rows, &their_rows, &of_ours, &of_theirs)?;
    push_undated(&mut rows, ours)?;
    push_undated_extras(&mut rows, theirs)?;
    Ok(rows)
}
