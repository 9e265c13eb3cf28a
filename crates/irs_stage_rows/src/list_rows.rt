//! What is reported of lists: what a copy holds of what was pushed.
//!
//! A row says what is in the list, then gives its items with `,` between them. The items of `days`
//! are dates. Those of `steps` are a day and a value in units of its last place. Those of
//! `payments` are a date and a first and last period. Those of `exchanges` are a date and an
//! amount, those of `resets` a date and an observed rate or `none`. A date is written as a boundary
//! is. For `text` it gives a text and a byte that is pushed after its copy. For `names` it gives
//! names as centres are given, and their number is reported too. For `streams` it gives `none`, and
//! the number is reported.
use crate::boundaries::{dates, day};
use crate::calendar_rows::push_names;
use crate::exchange_rows::exchanges_told;
use crate::payment_rows::payments_told;
use crate::reset_rows::resets_told;
use crate::telling::Told;
use crate::values::{amount_of, rate_of};
use irs_base::{DayList, Names, Text};
use irs_terms::{
    Exchange, Exchanges, Payment, Payments, Reset, Resets, Step, StepList, StreamList,
};
use std::alloc::Global;

fn step_of(text: &str) -> Option<Step> {
    let (date, value) = text.split_once(' ')?;
    Some(Step {
        day: day(date)?,
        value: value.parse::<i128>().ok()?,
    })
}

fn payment_of(text: &str) -> Option<Payment> {
    let (date, periods) = text.split_once(' ')?;
    let (unadjusted, adjusted) = dates(date)?;
    let (first, last) = periods.split_once('-')?;
    Some(Payment {
        unadjusted,
        adjusted,
        first_period: first.parse::<u32>().ok()?,
        last_period: last.parse::<u32>().ok()?,
    })
}

fn exchange_of(text: &str) -> Option<Exchange> {
    let (date, amount) = text.split_once(' ')?;
    let (unadjusted, adjusted) = dates(date)?;
    Some(Exchange {
        unadjusted,
        adjusted,
        amount: amount_of(amount)?,
    })
}

fn observed_of(text: &str) -> Option<Option<i64>> {
    if text == "none" {
        return Some(None);
    }
    Some(Some(rate_of(text)?))
}

fn reset_of(text: &str) -> Option<Reset> {
    let (date, observed) = text.split_once(' ')?;
    let (reset, fixing) = dates(date)?;
    Some(Reset {
        reset,
        fixing,
        observed: observed_of(observed)?,
    })
}

// What a copy of a text holds with a byte after it.
fn text_told(told: &mut Told, alloc: Global, text: &Text, byte: u8) -> Option<()> {
    let mut copy = text.copy(alloc).ok()?;
    copy.push(byte).ok()?;
    told.bytes("", copy.as_slice());
    told.end();
    Some(())
}

fn text_copied(told: &mut Told, alloc: Global, items: &str) -> Option<()> {
    let (text, pushed) = items.split_once(' ')?;
    let [byte] = pushed.as_bytes() else {
        return None;
    };
    let text = Text::from_bytes(alloc, text.as_bytes()).ok()?;
    text_told(told, alloc, &text, *byte)
}

fn names_told(told: &mut Told, names: &Names) {
    told.number("", names.len());
    told.end();
    let mut between = "";
    for name in names.as_slice() {
        told.bytes(between, name.as_slice());
        between = " ";
    }
    told.end();
}

fn names_copied(told: &mut Told, alloc: Global, items: &str) -> Option<()> {
    let mut names = Names::new(alloc);
    push_names(alloc, &mut names, items)?;
    let copy = names.copy(alloc).ok()?;
    names_told(told, &copy);
    Some(())
}

fn days_told(told: &mut Told, days: &DayList) {
    let mut between = "";
    for each in days.as_slice() {
        told.day(between, *each);
        between = ", ";
    }
    told.end();
}

fn push_days(days: &mut DayList, items: &str) -> Option<()> {
    for item in items.split(", ") {
        days.push(day(item)?).ok()?;
    }
    Some(())
}

fn days_copied(told: &mut Told, alloc: Global, items: &str) -> Option<()> {
    let mut days = DayList::new(alloc);
    push_days(&mut days, items)?;
    let copy = days.copy(alloc).ok()?;
    days_told(told, &copy);
    Some(())
}

fn steps_told(told: &mut Told, list: &StepList) {
    let mut between = "";
    for step in list.as_slice() {
        told.day(between, step.day);
        told.number(" ", step.value);
        between = ", ";
    }
    told.end();
}

fn push_steps(list: &mut StepList, items: &str) -> Option<()> {
    for item in items.split(", ") {
        list.push(step_of(item)?).ok()?;
    }
    Some(())
}

fn steps_copied(told: &mut Told, alloc: Global, items: &str) -> Option<()> {
    let mut list = StepList::new(alloc);
    push_steps(&mut list, items)?;
    let copy = list.copy(alloc).ok()?;
    steps_told(told, &copy);
    Some(())
}

fn push_payments(list: &mut Payments, items: &str) -> Option<()> {
    for item in items.split(", ") {
        list.push(payment_of(item)?).ok()?;
    }
    Some(())
}

fn payments_copied(told: &mut Told, alloc: Global, items: &str) -> Option<()> {
    let mut list = Payments::new(alloc);
    push_payments(&mut list, items)?;
    let copy = list.copy(alloc).ok()?;
    payments_told(told, &copy);
    Some(())
}

fn push_exchanges(list: &mut Exchanges, items: &str) -> Option<()> {
    for item in items.split(", ") {
        list.push(exchange_of(item)?).ok()?;
    }
    Some(())
}

fn exchanges_copied(told: &mut Told, alloc: Global, items: &str) -> Option<()> {
    let mut list = Exchanges::new(alloc);
    push_exchanges(&mut list, items)?;
    let copy = list.copy(alloc).ok()?;
    exchanges_told(told, &copy);
    Some(())
}

fn push_resets(list: &mut Resets, items: &str) -> Option<()> {
    for item in items.split(", ") {
        list.push(reset_of(item)?).ok()?;
    }
    Some(())
}

fn resets_copied(told: &mut Told, alloc: Global, items: &str) -> Option<()> {
    let mut list = Resets::new(alloc);
    push_resets(&mut list, items)?;
    let copy = list.copy(alloc).ok()?;
    resets_told(told, &copy);
    Some(())
}

fn no_streams(told: &mut Told, alloc: Global, items: &str) -> Option<()> {
    if items != "none" {
        return None;
    }
    told.number("", StreamList::new(alloc).len());
    told.end();
    Some(())
}

/// What is reported of a list.
pub fn list_lines(told: &mut Told, alloc: Global, row: &str) -> Option<()> {
    let (kind, items) = row.split_once(" | ")?;
    match kind {
        "text" => text_copied(told, alloc, items),
        "names" => names_copied(told, alloc, items),
        "days" => days_copied(told, alloc, items),
        "steps" => steps_copied(told, alloc, items),
        "payments" => payments_copied(told, alloc, items),
        "exchanges" => exchanges_copied(told, alloc, items),
        "resets" => resets_copied(told, alloc, items),
        "streams" => no_streams(told, alloc, items),
        _ => None,
    }
}
