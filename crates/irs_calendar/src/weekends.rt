//! The weekdays that are closed in some section, and how long they stay so.
ghost use Rattle.std.specs.Prelude.{◌≡◌, ◌+◌, ◌<◌, ◌^◌, map};
ghost use Rattle.irs_calendar.specs.Private.Closed.{off_on, IsStretch, AreShut, AreNext, ArePlaces, IsWeek, IsWeekend};
ghost use Rattle.irs_calendar.specs.Private.Closed.{day_after, weekend_after};

use crate::sections::{Section, weekday_place};
use irs_base::Day;

/// A closed weekday: its distance in days from a first day, and its place in the week.
#[derive(Clone, Copy)]
pub struct Weekend {
    /// Its distance from the first day, in days.
    pub day: u32,
    /// Its weekday: 0 for Monday to 6 for Sunday.
    pub place: usize,
}

/// The closed weekdays, and for each of them how long the weekend stays closed from it on. It also
/// says which weekday closes next, and how far away that is.
#[derive(Drop)]
pub struct Week {
    shut: [u8; 7],
    next: [u8; 7],
    places: [u8; 7],
}

/// The weekday is on the weekend list of some section.
fn is_off(sections: &[&Section], place: usize) -> bool
    requires { place < 7 }
    ensures { result ≡ off_on (map (λ s. s.now) sections.now) place }
{
    for s in sections {
        if s.weekend[place] {
            return true;
        }
    }
    false
}

/// The number of days from the weekday on that are all closed, or all open: at most a week.
fn stretch(sections: &[&Section], place: usize, closed: bool) -> u8
    requires { place < 7 }
    ensures { IsStretch (off_on (map (λ s. s.now) sections.now)) closed place result }
{
    let mut n: u8 = 0;
    while n < 7 {
        if is_off(sections, (place + n as usize) % 7) != closed {
            return n;
        }
        n += 1;
    }
    n
}

/// How long it stays closed from each weekday on.
fn shut_from(sections: &[&Section]) -> [u8; 7]
    ensures { AreShut (off_on (map (λ s. s.now) sections.now)) result }
{
    let mut shut = [0; 7];
    for p in 0..7 {
        shut[p] = stretch(sections, p, true);
    }
    shut
}

/// The distance from each weekday to the next closed one after these, in days.
fn next_behind(sections: &[&Section], shut: &[u8; 7]) -> [u8; 7]
    requires { AreShut (off_on (map (λ s. s.now) sections.now)) shut.now }
    ensures { AreNext (off_on (map (λ s. s.now) sections.now)) shut.now result }
{
    let mut next = [0; 7];
    for p in 0..7 {
        next[p] = shut[p] + stretch(sections, (p + shut[p] as usize) % 7, false);
    }
    next
}

/// The place of that weekday in the week.
fn places_of(next: &[u8; 7]) -> [u8; 7]
    ensures { ArePlaces next.now result }
{
    let mut places = [0; 7];
    for p in 0..7 {
        places[p] = ((p + next[p] as usize) % 7) as u8;
    }
    places
}

/// The week of several sections together.
pub fn week_of(sections: &[&Section]) -> Week
    ensures { IsWeek (off_on (map (λ s. s.now) sections.now)) result }
{
    let shut = shut_from(sections);
    let next = next_behind(sections, &shut);
    let places = places_of(&next);
    Week { shut, next, places }
}

/// The first closed weekday from the first day on, or a day beyond the limit if there is none.
pub fn first_weekend(sections: &[&Section], first: Day, limit: u32) -> Weekend
    requires { limit < 2 ^ 24 }
    ensures { IsWeekend (map (λ s. s.now) sections.now) first limit 0 result }
{
    let place = weekday_place(first);
    let free = stretch(sections, place, false);
    if free == 7 {
        return Weekend {
            day: limit + 1,
            place,
        };
    }
    Weekend {
        day: u32::from(free),
        place: (place + free as usize) % 7,
    }
}

/// The day after those that are closed from day `end` on. They are the weekend's, or there is a
/// holiday and `behind` is the day after the holidays.
pub fn day_after(week: &Week, weekend: Weekend, end: u32, behind: u32) -> u32
    requires weekday { weekend.place < 7 }
    requires few { end < 2 ^ 30 }
    ensures { result ≡ day_after week.now weekend end behind }
{
    if end == weekend.day {
        end + u32::from(week.shut[weekend.place])
    } else {
        behind
    }
}

/// The weekend after that.
pub fn weekend_after(week: &Week, weekend: Weekend, end: u32) -> Weekend
    requires weekday { weekend.place < 7 }
    requires few { end < 2 ^ 30 }
    ensures { result ≡ weekend_after week.now weekend end }
{
    if end != weekend.day {
        return weekend;
    }
    Weekend {
        day: end + u32::from(week.next[weekend.place]),
        place: usize::from(week.places[weekend.place]),
    }
}
