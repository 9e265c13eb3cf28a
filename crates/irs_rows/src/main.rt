//! The worked rows. Each command of the file `rows` is run as the program `irs` would run it, over
//! the real files and the real standard output. Its words, what it prints and its status are
//! printed. The rows of the file `memory_rows` are run over files and sinks in memory, which can be
//! made to fail.
#![tactic(auto)]

use rows::{Outside, run_rows};

mod answer_rows;
mod built_files;
mod bulk_rows;
mod commands;
mod cut_rows;
mod fetch_rows;
mod long_rows;
mod memory_rows;
mod named_files;
mod real_rows;
mod rows;
mod sink_rows;
mod sure_rows;

fn main(rt: HostRuntime) -> anyhow::Result<()> {
    run_rows(&rt, Outside::Real, "rows")?;
    run_rows(&rt, Outside::Memory, "memory_rows")
}
