//! What one line of a calendar file says by itself.
//!
//! Fields are separated by spaces or tabs, and those at a line's end are dropped. A line of spaces and
//! tabs alone and a line whose first byte is `#` say nothing. A line that begins with a space or a tab
//! and isn't blank is at fault.
ghost use Rattle.std.specs.Prelude.{◌≡◌, ◌<◌, IfSome, true};
ghost use Rattle.std.specs.List.{list_all};
ghost use Rattle.irs_base.specs.Texts.{fields};
ghost use Rattle.irs_calendar.specs.Private.Files.{said_of};
ghost use Rattle.irs_calendar.specs.Grammar.{is_visible, is_center_field, said_center, said_cover, weekday_place};
ghost use Rattle.irs_calendar.specs.Grammar.{weekend_of, no_days, said_holiday, said_by, line_said};

use crate::part::Said;
use irs_base::{MOST_NAME, date, first_field, is_gap};

/// All bytes are from `!` to `~`.
fn are_plain(name: &[u8]) -> bool
    ensures { result ≡ list_all is_visible name.now }
{
    name.iter().all(|b| b'!' <= *b && *b <= b'~')
}

/// It is the name of a centre: 1 to 32 such bytes, a field having one at least.
fn is_good_name(name: &[u8]) -> bool
    ensures { result ≡ is_center_field name.now }
{
    name.len() <= MOST_NAME && are_plain(name)
}

/// A line `center NAME`, by what follows its first word.
fn center(rest: &[u8]) -> Said<'_>
    ensures { said_of result ≡ said_center (fields rest.now) }
{
    let Some((name, more)) = first_field(rest) else {
        return Said::Wrong;
    };
    if first_field(more).is_some() || !is_good_name(name) {
        return Said::Wrong;
    }
    Said::Center(name)
}

/// A line `cover DATE DATE`.
fn cover(rest: &[u8]) -> Said<'_>
    ensures { said_of result ≡ said_cover (fields rest.now) }
{
    let Some((from, more)) = first_field(rest) else {
        return Said::Wrong;
    };
    let Some((to, end)) = first_field(more) else {
        return Said::Wrong;
    };
    if first_field(end).is_some() {
        return Said::Wrong;
    }
    let (Some(first), Some(last)) = (date(from), date(to)) else {
        return Said::Wrong;
    };
    if first <= last {
        Said::Cover(first, last)
    } else {
        Said::Wrong
    }
}

/// The place of a weekday in the week, from Monday.
fn weekday_named(name: &[u8]) -> Option<usize>
    ensures value { result ≡ weekday_place name.now }
    ensures range { IfSome result (λ p. p < 7) }
{
    if name == b"MON".as_slice() {
        Some(0)
    } else if name == b"TUE".as_slice() {
        Some(1)
    } else if name == b"WED".as_slice() {
        Some(2)
    } else if name == b"THU".as_slice() {
        Some(3)
    } else if name == b"FRI".as_slice() {
        Some(4)
    } else if name == b"SAT".as_slice() {
        Some(5)
    } else if name == b"SUN".as_slice() {
        Some(6)
    } else {
        None
    }
}

/// A line `weekend`, with different names of weekdays.
fn weekend(names: &[u8]) -> Said<'_>
    ensures { said_of result ≡ weekend_of (Some no_days) (fields names.now) }
{
    let mut days = [false; 7];
    let mut rest = names;
    while let Some((name, more)) = first_field(rest) {
        let Some(place) = weekday_named(name) else {
            return Said::Wrong;
        };
        if days[place] {
            return Said::Wrong;
        }
        days[place] = true;
        rest = more;
    }
    Said::Weekend(days)
}

/// A line of one date.
fn holiday<'a>(word: &'a [u8], rest: &'a [u8]) -> Said<'a>
    ensures { said_of result ≡ said_holiday word.now (fields rest.now) }
{
    if first_field(rest).is_some() {
        return Said::Wrong;
    }
    match date(word) {
        Some(d) => Said::Holiday(d),
        None => Said::Wrong,
    }
}

/// A line by its first word.
fn by_word<'a>(word: &'a [u8], rest: &'a [u8]) -> Said<'a>
    ensures { said_of result ≡ said_by word.now (fields rest.now) }
{
    if word == b"center".as_slice() {
        center(rest)
    } else if word == b"cover".as_slice() {
        cover(rest)
    } else if word == b"weekend".as_slice() {
        weekend(rest)
    } else {
        holiday(word, rest)
    }
}

/// What a line says.
pub fn said(line: &[u8]) -> Said<'_>
    ensures { said_of result ≡ line_said line.now }
{
    if !line.is_empty() && line[0] == b'#' {
        return Said::Nothing;
    }
    let Some((word, rest)) = first_field(line) else {
        return Said::Nothing;
    };
    if is_gap(line[0]) {
        return Said::Wrong;
    }
    by_word(word, rest)
}
