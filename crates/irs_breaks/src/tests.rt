//! Pairings of short lists, worked out from the definition on paper.
use crate::{PairedRow, pair_rows};
use irs_base::{Day, Memory, read_date};
use std::alloc::Global;
use std::test::*;

// The number of a row, from 1, and 0 where there is none.
fn number(place: Option<usize>) -> usize {
    match place {
        Some(n) => n.saturating_add(1),
        None => 0,
    }
}

// A day of January 2025; 0 is a row without a date.
fn day(number: u8) -> Option<Day> {
    if number == 0 || number > 31 {
        return None;
    }
    let mut text = *b"2025-01-00";
    text[8] = b'0' + number / 10;
    text[9] = b'0' + number % 10;
    read_date(&text)
}

fn days(alloc: Global, numbers: &[u8]) -> Result<Vec<Option<Day>>, Memory> {
    let mut list = Vec::new(alloc);
    for n in numbers {
        list.push(day(*n))?;
    }
    Ok(list)
}

fn rows(alloc: Global, from: u8, ours: &[u8], theirs: &[u8]) -> Result<Vec<PairedRow>, Memory> {
    let (x, y) = (days(alloc, ours)?, days(alloc, theirs)?);
    let first = match day(from) {
        Some(d) => d,
        None => Day::earliest(),
    };
    pair_rows(alloc, first, &x, &y)
}

// Whether the rows are listed like this: each is our number and theirs, 0 where there is none.
fn listed(alloc: Global, from: u8, ours: &[u8], theirs: &[u8], wanted: &[(usize, usize)]) -> bool {
    match rows(alloc, from, ours, theirs) {
        Ok(rows) => {
            let mut same = rows.len() == wanted.len();
            for (row, want) in rows.iter().zip(wanted.iter()) {
                same = same && number(row.ours) == want.0 && number(row.theirs) == want.1;
            }
            same
        }
        Err(_) => false,
    }
}

#[test]
fn equal_dates_are_paired(rt: HostRuntime) {
    let alloc = rt.alloc();
    assert!(rt; listed(alloc, 0, &[15, 31], &[15, 31], &[(1, 1), (2, 2)]));
    // The order of the rows is no difference.
    assert!(rt; listed(alloc, 0, &[15, 31], &[31, 15], &[(1, 2), (2, 1)]));
    // On one date each side is in the order of its numbers, and the last row of the longer side is alone.
    assert!(rt;
        listed(
            alloc,
            0,
            &[15, 15, 15],
            &[15, 15],
            &[(1, 1), (2, 2), (3, 0)]
        )
    );
    assert!(rt; listed(alloc, 0, &[15], &[15, 15, 15], &[(1, 1), (0, 2), (0, 3)]));
}

#[test]
fn moved_dates_are_paired(rt: HostRuntime) {
    let alloc = rt.alloc();
    assert!(rt; listed(alloc, 0, &[15, 31], &[16, 31], &[(1, 1), (2, 2)]));
    // A gap of two and two, in the order of dates: theirs are the third and the second.
    assert!(rt;
        listed(
            alloc,
            0,
            &[2, 10, 11, 20],
            &[2, 15, 12, 20],
            &[(1, 1), (2, 3), (3, 2), (4, 4)]
        )
    );
    // A gap of one and two pairs nothing, and the gap after it is whole.
    assert!(rt;
        listed(
            alloc,
            0,
            &[5, 10, 21],
            &[4, 6, 10, 20],
            &[(0, 1), (1, 0), (0, 2), (2, 3), (3, 4)]
        )
    );
    // Without a common date all rows are in one gap.
    assert!(rt; listed(alloc, 0, &[1, 2, 3], &[9, 8, 7], &[(1, 3), (2, 2), (3, 1)]));
    assert!(rt;
        listed(
            alloc,
            0,
            &[1, 2, 3],
            &[9, 8],
            &[(1, 0), (2, 0), (3, 0), (0, 2), (0, 1)]
        )
    );
}

#[test]
fn what_has_no_partner_is_alone(rt: HostRuntime) {
    let alloc = rt.alloc();
    assert!(rt; listed(alloc, 0, &[15, 31], &[31], &[(1, 0), (2, 1)]));
    assert!(rt;
        listed(
            alloc,
            0,
            &[15, 31],
            &[15, 31, 20, 0],
            &[(1, 1), (0, 3), (2, 2), (0, 4)]
        )
    );
    assert!(rt; listed(alloc, 0, &[], &[3], &[(0, 1)]));
    assert!(rt; listed(alloc, 0, &[0, 3], &[0], &[(2, 0), (1, 0), (0, 1)]));
    assert!(rt; listed(alloc, 0, &[], &[], &[]));
}

#[test]
fn earlier_rows_are_left_aside(rt: HostRuntime) {
    let alloc = rt.alloc();
    assert!(rt; listed(alloc, 20, &[15, 31], &[31], &[(2, 1)]));
    assert!(rt; listed(alloc, 15, &[15, 31], &[31], &[(1, 0), (2, 1)]));
    // A row that was left aside is in no gap: the two that are left are paired.
    assert!(rt; listed(alloc, 10, &[8, 12], &[13, 0], &[(2, 1), (0, 2)]));
}
