//! The documents of `bulk`: one fixed stream of monthly periods over twenty years each.
ghost use Rattle.std.specs.Prelude.{◌≡◌, ◌+◌, ◌<◌, ◌≤◌, [], ◌++◌, IfOk, OnOk, length, map, slice_index_or};
ghost use Rattle.irs_base.specs.Texts.{date_text};
ghost use Rattle.irs_bulk.specs.Documents.{adjustments_text, amounts_text, convention_text, date_element, dates_text};
ghost use Rattle.irs_bulk.specs.Documents.{day_count_text, bulk_document_text, document_with, effective_month};
ghost use Rattle.irs_bulk.specs.Documents.{most_bulk};
ghost use Rattle.irs_bulk.specs.Documents.{notional_text, payments_text, bulk_rate_text, roll_of};

use crate::digits::{put, put_date, put_number, put_two_digits};
use irs_base::Memory;
use std::alloc::Global;

/// The most documents of a run.
pub const MOST_BULK: u32 = 500;

/// The limit is the number that the specification states.
pub fn bulk_limit()
    ensures { MOST_BULK ≡ most_bulk }
{}

const CONVENTIONS: [&str; 6] = [
    "NONE",
    "FOLLOWING",
    "MODFOLLOWING",
    "PRECEDING",
    "MODPRECEDING",
    "NEAREST",
];

const DAY_COUNTS: [&str; 7] = [
    "1/1",
    "ACT/ACT.ISDA",
    "ACT/365.FIXED",
    "ACT/360",
    "30/360",
    "30E/360",
    "30E/360.ISDA",
];

fn name_at(names: &[&'static str], place: usize) -> &'static str
    requires { place < length names.now }
    ensures { result.now ≡ slice_index_or (map (λ n. n.now) names.now) place [] }
{
    names[place]
}

#[tactic(auto, unfolding(crate::specs::Documents::convention_text))]
fn convention(k: u32, plain: bool) -> &'static str
    requires { 0 < k }
    ensures { result.now ≡ convention_text plain k }
{
    if plain {
        "NONE"
    } else {
        name_at(&CONVENTIONS, (k as usize - 1) % 6)
    }
}

// The members of an adjustments element.
#[tactic(auto, unfolding(crate::specs::Documents::adjustments_text))]
fn adjustments(alloc: Global, convention: &str) -> Result<Vec<u8>, Memory>
    ensures { IfOk result (λ t. t.items ≡ adjustments_text convention.now) }
{
    let mut text = Vec::from_slice(alloc, b"\"businessDayConvention\":\"")?;
    put(&mut text, convention)?;
    put(
        &mut text,
        "\",\"businessCenters\":{\"businessCenter\":\"BULK\"}",
    )?;
    Ok(text)
}

// The date of document k in a year, with its adjustments.
#[tactic(auto, unfolding(crate::specs::Documents::date_element))]
fn date(alloc: Global, k: u32, year: u32, adjustments: &[u8]) -> Result<Vec<u8>, Memory>
    requires { year < 10_000 }
    ensures { IfOk result (λ t. t.items ≡ date_element (date_text year (effective_month k) (roll_of k)) adjustments.now) }
{
    let mut text = Vec::from_slice(alloc, b"{\"unadjustedDate\":\"")?;
    put_date(&mut text, year, 1 + k % 12, roll(k))?;
    put(&mut text, "\",\"dateAdjustments\":{")?;
    text.extend_from_slice(adjustments)?;
    put(&mut text, "}}")?;
    Ok(text)
}

fn roll(k: u32) -> u32
    ensures { result ≡ roll_of k }
{
    1 + k % 28
}

#[tactic(auto, unfolding(crate::specs::Documents::dates_text))]
fn dates(alloc: Global, k: u32, adjustments: &[u8]) -> Result<Vec<u8>, Memory>
    requires { k ≤ most_bulk }
    ensures { IfOk result (λ t. t.items ≡ dates_text adjustments.now k) }
{
    let year = 1950 + k / 12;
    let mut text = Vec::from_slice(
        alloc,
        b"\"calculationPeriodDates\":{\"@id\":\"cpd\",\n\"effectiveDate\":",
    )?;
    text.extend_from_slice(&date(alloc, k, year, adjustments)?)?;
    put(&mut text, ",\n\"terminationDate\":")?;
    text.extend_from_slice(&date(alloc, k, year + 20, adjustments)?)?;
    put(&mut text, ",\n\"calculationPeriodDatesAdjustments\":{")?;
    text.extend_from_slice(adjustments)?;
    put(
        &mut text,
        "},\n\"calculationPeriodFrequency\":{\"periodMultiplier\":\"1\",\"period\":\"M\",\"rollConvention\":\"",
    )?;
    put_number(&mut text, roll(k))?;
    put(&mut text, "\"}},\n")?;
    Ok(text)
}

#[tactic(auto, unfolding(crate::specs::Documents::payments_text))]
fn payments(alloc: Global, adjustments: &[u8]) -> Result<Vec<u8>, Memory>
    ensures { IfOk result (λ t. t.items ≡ payments_text adjustments.now) }
{
    let mut text = Vec::from_slice(
        alloc,
        b"\"paymentDates\":{\"paymentFrequency\":{\"periodMultiplier\":\"1\",\"period\":\"M\"},\n\"payRelativeTo\":\"CalculationPeriodEndDate\",\n\"paymentDatesAdjustments\":{",
    )?;
    text.extend_from_slice(adjustments)?;
    put(&mut text, "}},\n")?;
    Ok(text)
}

#[tactic(auto, unfolding(crate::specs::Documents::notional_text))]
fn put_notional(text: &mut Vec<u8>, k: u32) -> Result<(), Memory>
    requires { k ≤ most_bulk }
    ensures { OnOk result (text.new.items ≡ text.old.items ++ notional_text k) }
{
    put_number(text, 1_000_000 + 1_000 * k)
}

// `0.` and k in four digits.
#[tactic(auto, unfolding(crate::specs::Documents::bulk_rate_text))]
fn put_rate(text: &mut Vec<u8>, k: u32) -> Result<(), Memory>
    requires { k ≤ most_bulk }
    ensures { OnOk result (text.new.items ≡ text.old.items ++ bulk_rate_text k) }
{
    put(text, "0.")?;
    put_two_digits(text, k / 100)?;
    put_two_digits(text, k % 100)
}

#[tactic(auto, unfolding(crate::specs::Documents::day_count_text))]
fn day_count(k: u32) -> &'static str
    requires { 0 < k }
    ensures { result.now ≡ day_count_text k }
{
    name_at(&DAY_COUNTS, (k as usize - 1) % 7)
}

fn put_day_count(text: &mut Vec<u8>, k: u32) -> Result<(), Memory>
    requires { 0 < k }
    ensures { OnOk result (text.new.items ≡ text.old.items ++ day_count_text k) }
{
    put(text, day_count(k))
}

#[tactic(auto, unfolding(crate::specs::Documents::amounts_text))]
fn amounts(alloc: Global, k: u32) -> Result<Vec<u8>, Memory>
    requires low { 0 < k }
    requires high { k ≤ most_bulk }
    ensures { IfOk result (λ t. t.items ≡ amounts_text k) }
{
    let mut text = Vec::from_slice(
        alloc,
        b"\"calculationPeriodAmount\":{\"calculation\":{\n\"notionalSchedule\":{\"notionalStepSchedule\":{\"initialValue\":\"",
    )?;
    put_notional(&mut text, k)?;
    put(
        &mut text,
        "\",\"currency\":\"USD\"}},\n\"fixedRateSchedule\":{\"initialValue\":\"",
    )?;
    put_rate(&mut text, k)?;
    put(&mut text, "\"},\"dayCountFraction\":\"")?;
    put_day_count(&mut text, k)?;
    put(&mut text, "\"}}}}}\n")?;
    Ok(text)
}

fn document(alloc: Global, k: u32, convention: &str) -> Result<Vec<u8>, Memory>
    requires low { 0 < k }
    requires high { k ≤ most_bulk }
    ensures { IfOk result (λ t. t.items ≡ document_with (adjustments_text convention.now) k) }
{
    let adjustments = adjustments(alloc, convention)?;
    let mut text = Vec::from_slice(alloc, b"{\"swap\":{\"swapStream\":{\n")?;
    text.extend_from_slice(&dates(alloc, k, &adjustments)?)?;
    text.extend_from_slice(&payments(alloc, &adjustments)?)?;
    text.extend_from_slice(&amounts(alloc, k)?)?;
    Ok(text)
}

/// Document k of `bulk`, for k from 1 to 500, in FpML 5 as JSON. Which documents they are is our
/// rule. Each is a fixed stream of twenty years in USD, with monthly periods and payments. Its roll
/// is 1 + k mod 28. Its effective date is that day of month 1 + k mod 12 of the year 1950 + k div
/// 12. The notional is 1000000 + 1000 k, and the rate is k in units of 10^-4. The day counts take
/// turns by k, and so do the conventions of all four adjustments, on the centre BULK. A plain
/// document has NONE in each. `Memory` comes only where memory ran out.
#[tactic(auto, unfolding(crate::specs::Documents::bulk_document_text))]
pub fn bulk_doc(alloc: Global, k: u32, plain: bool) -> Result<Vec<u8>, Memory>
    requires low { 0 < k }
    requires high { k ≤ most_bulk }
    ensures { IfOk result (λ text. text.items ≡ bulk_document_text plain k) }
{
    document(alloc, k, convention(k, plain))
}
