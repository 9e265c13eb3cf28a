//! The days of a stretch, a bit a day that is set on holidays, so that the next holiday is found in
//! few steps.
ghost use Rattle.std.specs.Prelude.{◌≡◌, ℕ, ◌+◌, ◌*◌, ◌<◌, ◌≤◌, ◌^◌, ◌==◌, ◌||◌, true, IfOk, map, length};
ghost use Rattle.std.specs.Int.{bit_at};
ghost use Rattle.irs_calendar.specs.Rising.{is_listed};
ghost use Rattle.irs_calendar.specs.Private.Closed.{any_listed, is_marked, IsClosed, IsNextBit, IsNext, AreSet};
ghost use Rattle.irs_calendar.specs.Private.Closed.{AreHeld, AreMarks};

use crate::chosen::days_after;
use crate::holidays::Holidays;
use crate::sections::Section;
use irs_base::{Day, Memory};
use std::alloc::Global;

/// Marks day k.
fn mark(marks: &mut [u64], k: u32)
    requires { k < 64 * length marks.old }
    ensures { (i : ℕ) → is_marked marks.new i ≡ (is_marked marks.old i || i == k) }
{
    marks[k as usize / 64] |= 1 << (k % 64);
}

/// Marks the days that are on the list; day 0 is the day `first`.
fn close_days(marks: &mut [u64], first: Day, limit: u32, holidays: &Holidays)
    requires { limit ≤ 64 * length marks.old }
    ensures { IsClosed first limit (λ d. is_listed d holidays.now) marks.old marks.new }
{
    for h in holidays.as_slice() {
        if first <= *h {
            let k = days_after(first, *h);
            if k < limit {
                mark(marks, k);
            }
        }
    }
}

/// Marks the days that are on the holiday list of any section.
fn close_all(marks: &mut [u64], first: Day, limit: u32, sections: &[&Section])
    requires { limit ≤ 64 * length marks.old }
    ensures { IsClosed first limit (any_listed (map (λ s. s.now) sections.now)) marks.old marks.new }
{
    for s in sections {
        close_days(marks, first, limit, &s.holidays);
    }
}

/// The marks of the first limit days from `first` on.
pub fn marks_of(
    alloc: Global,
    first: Day,
    limit: u32,
    sections: &[&Section],
) -> Result<Vec<u64>, Memory>
    requires { limit < 2 ^ 24 }
    ensures { IfOk result (λ v. AreMarks first limit (any_listed (map (λ s. s.now) sections.now)) v.items) }
{
    let mut marks = vec![in alloc; 0; limit as usize / 64 + 1]?;
    close_all(&mut marks, first, limit, sections);
    Ok(marks)
}

/// The first bit that is set from bit k on; 64 if there is none.
fn next_bit(word: u64, k: u32) -> u32
    requires { k < 64 }
    ensures { IsNextBit word k result }
{
    let rest = word >> k;
    if rest == 0 {
        64
    } else {
        k + rest.trailing_zeros()
    }
}

/// The first day from day k on that is marked; the limit if there is none below it.
fn next_marked(marks: &[u64], k: u32, limit: u32) -> u32
    requires below { k < limit }
    requires room { limit ≤ 64 * length marks.now }
    requires few { length marks.now < 2 ^ 20 }
    ensures { IsNext (is_marked marks.now) k result limit }
{
    let mut place = k as usize / 64;
    let mut bit = next_bit(marks[place], k % 64);
    while bit == 64 && place + 1 < marks.len() {
        place += 1;
        bit = next_bit(marks[place], 0);
    }
    let found = place as u32 * 64 + bit;
    if found < limit { found } else { limit }
}

/// The same, where `h` is that day if it isn't passed.
pub fn marked_from(marks: &[u64], k: u32, h: u32, limit: u32) -> u32
    requires below { k < limit }
    requires room { limit ≤ 64 * length marks.now }
    requires few { length marks.now < 2 ^ 20 }
    requires known { k < h → IsNext (is_marked marks.now) k h limit }
    ensures { IsNext (is_marked marks.now) k result limit }
{
    if k < h {
        return h;
    }
    next_marked(marks, k, limit)
}

/// The bit after those that are set in a row from bit k on; of a whole word after the first.
fn behind_set(word: u64, k: u32) -> u32
    requires below { k < 64 }
    requires set { bit_at word k ≡ 1 }
    ensures { AreSet word k result }
{
    let rest = word >> k;
    if rest == u64::MAX {
        k + 1
    } else {
        k + rest.trailing_ones()
    }
}

/// The day after those that are marked in a row from day `end` on, or one that is still marked. It
/// isn't beyond the bound, where the bound is ahead.
pub fn behind_marked(marks: &[u64], end: u32, bound: u32, limit: u32) -> u32
    requires below { end ≤ limit }
    requires room { limit ≤ 64 * length marks.now }
    requires few { length marks.now < 2 ^ 20 }
    requires marked { end < bound → end < limit → is_marked marks.now end ≡ true }
    ensures { AreHeld (is_marked marks.now) end result bound limit }
{
    if bound <= end || limit <= end {
        return end + 1;
    }
    let bit = behind_set(marks[end as usize / 64], end % 64);
    (end / 64 * 64 + bit).min(bound)
}
