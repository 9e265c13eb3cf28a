//! The element rows. An element of a document is taken away, repeated or given another value. A row
//! has what the readers of irs_read and irs_flows and the command `audit` report of it. Other rows
//! have the values of texts of leaves. The rest are worked examples. They are JSON texts and FpML XML,
//! broken rules in order, and emitted cash flows. There are also files and sinks in memory, and
//! sentences with what is added to them.
//!
//! The rows, their documents and the expected answers are in `data/`; their form is ours.
#![tactic(auto)]

use anyhow::ensure;
use questions::Subject;
use readers::Reader;
use rows::run_rows;
use table_lines::tell_tables;
use told::Told;

mod answers;
mod causes;
mod edits;
mod file_rows;
mod flow_lines;
mod json_rows;
mod leaf_rows;
mod lines;
mod note_rows;
mod order_rows;
mod questions;
mod readers;
mod rows;
mod sentence_rows;
mod sink_rows;
mod swap_lines;
mod table_lines;
mod tally;
mod told;
mod values;
mod words;
mod xml_rows;
mod xml_texts;

fn main(rt: HostRuntime) -> anyhow::Result<()> {
    let mut tables = Told::printed(&rt);
    tell_tables(&mut tables);
    ensure!(tables.is_printed(), "the tables could not be printed");
    for (subject, file) in [
        (Subject::Documents(Reader::Terms), "rows"),
        (Subject::Documents(Reader::Flows), "flow_rows"),
        (Subject::Documents(Reader::Audit), "audit_rows"),
        (Subject::Documents(Reader::Emit), "emit_rows"),
        (Subject::Leaves, "leaf_rows"),
        (Subject::Json, "json_rows"),
        (Subject::Xml, "xml_rows"),
        (Subject::Order, "order_rows"),
        (Subject::Files, "file_rows"),
        (Subject::Sinks, "sink_rows"),
        (Subject::Sentences, "sentence_rows"),
        (Subject::Notes, "note_rows"),
    ] {
        run_rows(&rt, subject, file)?;
    }
    Ok(())
}
