//! What is reported of a file of fixings: the line that is at fault, or a rate. It is that of the
//! index `A` on 2024-01-15 for a tenor.
//!
//! A row gives the file or `no file`, then the tenor or `-`.
use crate::boundaries::day;
use crate::files::file_of;
use crate::telling::Told;
use crate::values::tenor_of;
use irs_base::{MOST_BYTES, Text};
use irs_resets::{FixErr, Fixings};
use irs_terms::Frequency;
use std::alloc::Global;

fn fault_told(told: &mut Told, fault: FixErr) -> Option<()> {
    let (word, line) = match fault {
        FixErr::Memory => return None,
        FixErr::Syntax(line) => ("syntax in line ", line),
        FixErr::Repeat(line) => ("repeat in line ", line),
    };
    told.number(word, line);
    told.end();
    Some(())
}

fn rate_told(
    told: &mut Told,
    alloc: Global,
    fixings: &Fixings,
    tenor: Option<Frequency>,
) -> Option<()> {
    let day = day("2024-01-15")?;
    let index = Text::from_bytes(alloc, b"A").ok()?;
    told.given_rate("", fixings.rate_on(&index, tenor, day));
    told.end();
    Some(())
}

fn file_told(told: &mut Told, alloc: Global, bytes: &[u8], tenor: Option<Frequency>) -> Option<()> {
    if bytes.len() > MOST_BYTES {
        return None;
    }
    match Fixings::read(alloc, bytes) {
        Ok(fixings) => rate_told(told, alloc, &fixings, tenor),
        Err(fault) => fault_told(told, fault),
    }
}

/// The rate of a file of fixings, or of none.
pub fn fixing_lines(told: &mut Told, rt: &HostRuntime, row: &str) -> Option<()> {
    let (text, tenor) = row.rsplit_once(" | ")?;
    let tenor = tenor_of(tenor)?;
    if text == "no file" {
        return rate_told(told, rt.alloc(), &Fixings::none(), tenor);
    }
    let bytes = file_of(rt, text)?;
    file_told(told, rt.alloc(), &bytes, tenor)
}
