//! Rows of what a run over many documents makes.
use crate::commands::print_text;
use anyhow::{Result, bail};
use irs_bulk::{MOST_BULK, bulk_calendar, bulk_doc, bulk_limit};

/// `document N`: prints document N, or its plain form for `plain N`.
pub fn print_document(rt: &HostRuntime, number: &str, plain: bool) -> Result<()> {
    bulk_limit();
    let number = number.parse::<u32>()?;
    if number == 0 || number > MOST_BULK {
        bail!("no document has this number");
    }
    print_text(rt, &bulk_doc(rt.alloc(), number, plain)?)
}

/// `calendar`: prints the calendar.
pub fn print_calendar(rt: &HostRuntime) -> Result<()> {
    print_text(rt, &bulk_calendar(rt.alloc())?)
}
