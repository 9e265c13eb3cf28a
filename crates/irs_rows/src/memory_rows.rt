//! Rows over files and sinks in memory: the first word of a row says its kind.
use crate::answer_rows::run_answer;
use crate::bulk_rows::{print_calendar, print_document};
use crate::commands::first_word;
use crate::cut_rows::run_cuts;
use crate::fetch_rows::{run_again, run_with_fetches};
use crate::long_rows::{run_ends, run_over_made};
use crate::real_rows::run_beside_spaces;
use crate::sink_rows::{run_with_enough_room, run_with_put, run_with_room};
use crate::sure_rows::run_sure;
use anyhow::{Result, bail};

/// Runs a row, and prints what comes of it.
pub fn run_memory_row(rt: &HostRuntime, row: &str) -> Result<()> {
    let (kind, rest) = first_word(row);
    match kind {
        "run" => run_with_enough_room(rt, rest),
        "room" => run_with_room(rt, rest),
        "put" => run_with_put(rt, rest),
        "fetch" => run_with_fetches(rt, rest),
        "again" => run_again(rt, rest),
        "cuts" => run_cuts(rt, rest),
        "sure" => run_sure(rt, rest),
        "real" => run_beside_spaces(rt, rest),
        "answer" => run_answer(rt, rest),
        "ends" => run_ends(rt, rest),
        "made" => run_over_made(rt, rest),
        "document" => print_document(rt, rest, false),
        "plain" => print_document(rt, rest, true),
        "calendar" => print_calendar(rt),
        _ => bail!("no kind of row"),
    }
}
