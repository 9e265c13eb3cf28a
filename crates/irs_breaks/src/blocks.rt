//! Two lists of rows in the order of their dates, walked block by block. A block holds the rows of one common
//! date, or those of a gap between common dates.
ghost use Rattle.std.specs.Prelude.{◌≡◌, ◌<◌, ◌≤◌, ◌+◌, IsFalse, IsTrue, length};
ghost use Rattle.irs_breaks.specs.Pairing.{At};
ghost use Rattle.irs_breaks.specs.Private.Blocks.{AreRising, IsBlock, IsDateEnd, IsEdge, IsGapTo, MeetsAt, MeetsBoth};
ghost use Rattle.irs_breaks.specs.declared.dated.DatedRow.{DatedRow};

use crate::DatedRow;

/// Where a block of two lists ends, and how many pairs it has.
#[derive(Clone, Copy)]
pub(crate) struct Block {
    /// The place of the first row of ours after it.
    pub(crate) ours: usize,
    /// The place of the first row of theirs after it.
    pub(crate) theirs: usize,
    /// How many rows of either list are paired, from the first of the block on.
    pub(crate) pairs: usize,
}

// The place of the first row after those of the date of the row at a place.
fn date_end(rows: &[DatedRow], start: usize) -> usize
    requires rising { AreRising rows.now }
    requires within { start < length rows.now }
    ensures { (r : DatedRow) → At rows.now start r → IsDateEnd rows.now start r.day result }
{
    let day = rows[start].day;
    let mut end = start + 1;
    while end < rows.len() && rows[end].day == day {
        end += 1;
    }
    end
}

// The places at which the next common date begins, or the ends of both lists.
fn gap_end(ours: &[DatedRow], theirs: &[DatedRow], i: usize, j: usize) -> (usize, usize)
    requires ours { AreRising ours.now }
    requires theirs { AreRising theirs.now }
    requires in_ours { i ≤ length ours.now }
    requires in_theirs { j ≤ length theirs.now }
    ensures gap { IsGapTo ours.now theirs.now i j result.0 result.1 }
    ensures meets { MeetsAt ours.now theirs.now result.0 result.1 }
{
    let (mut p, mut q) = (i, j);
    while p < ours.len() && q < theirs.len() && ours[p].day != theirs[q].day {
        if ours[p].day < theirs[q].day {
            p += 1;
        } else {
            q += 1;
        }
    }
    if p < ours.len() && q < theirs.len() {
        (p, q)
    } else {
        (ours.len(), theirs.len())
    }
}

// Whether the next rows of both lists have the same date.
fn meet(ours: &[DatedRow], theirs: &[DatedRow], i: usize, j: usize) -> bool
    ensures meet { IsTrue result → MeetsBoth ours.now theirs.now i j }
    ensures apart { IsFalse result → (x z : DatedRow) → At ours.now i x → At theirs.now j z → ¬ (x.day ≡ z.day) }
{
    i < ours.len() && j < theirs.len() && ours[i].day == theirs[j].day
}

/// The next block after these places, where a row is left.
pub(crate) fn next_block(ours: &[DatedRow], theirs: &[DatedRow], i: usize, j: usize) -> Block
    requires ours { AreRising ours.now }
    requires theirs { AreRising theirs.now }
    requires edge { IsEdge ours.now theirs.now i j }
    requires left { i + j < length ours.now + length theirs.now }
    ensures { IsBlock ours.now theirs.now i j result }
{
    if meet(ours, theirs, i, j) {
        let (p, q) = (date_end(ours, i), date_end(theirs, j));
        let pairs = if p - i < q - j { p - i } else { q - j };
        Block {
            ours: p,
            theirs: q,
            pairs,
        }
    } else {
        let (p, q) = gap_end(ours, theirs, i, j);
        let pairs = if p - i == q - j { p - i } else { 0 };
        Block {
            ours: p,
            theirs: q,
            pairs,
        }
    }
}
