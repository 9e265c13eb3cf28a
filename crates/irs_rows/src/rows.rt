//! The rows of a file, a line each.
use crate::memory_rows::run_memory_row;
use crate::real_rows::run_real_row;
use anyhow::{Context, Result};
use std::fs;

/// Over which files and into which sink rows are run.
#[derive(Clone, Copy)]
pub enum Outside {
    /// The real files and the real standard output: a row has the words of a command.
    Real,
    /// Files and sinks in memory: the first word of a row says its kind.
    Memory,
}

// Prints the words of a row after `>`.
fn print_row(rt: &HostRuntime, row: &str) -> Result<()> {
    print!(rt; ">")?;
    for word in row.split_whitespace() {
        print!(rt; " {word}")?;
    }
    println!(rt)?;
    Ok(())
}

fn run_row(rt: &HostRuntime, outside: Outside, row: &str) -> Result<()> {
    print_row(rt, row)?;
    match outside {
        Outside::Real => run_real_row(rt, row),
        Outside::Memory => run_memory_row(rt, row),
    }
}

/// Prints each row of a file, and what comes of it. A line that begins with `#` is a remark, and is
/// printed as it is. The error of a row that isn't one names it.
pub fn run_rows(rt: &HostRuntime, outside: Outside, file: &str) -> Result<()> {
    let text = fs::read_to_string(rt, file)?;
    for row in text.lines() {
        if row.starts_with('#') {
            println!(rt; "{row}")?;
        } else {
            run_row(rt, outside, row).context(row)?;
        }
    }
    Ok(())
}
