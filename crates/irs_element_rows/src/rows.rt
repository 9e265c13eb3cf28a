//! The rows. Each has three parts with `|` between them. They are a document, edits of it, and a
//! line that has to be reported of the document after the edits. Or they are a kind of question,
//! its subject, and the answer.
use crate::questions::{Question, Subject};
use crate::tally::Tally;
use crate::told::Told;
use anyhow::{Result, bail};
use std::fs;

// The question of a row, and the line that has to be reported.
fn row_of(subject: Subject, text: &str) -> Option<(Question, &str)> {
    let (kind, rest) = text.split_once(" | ")?;
    let (given, line) = rest.rsplit_once(" | ")?;
    Some((Question::new(subject, kind, given), line))
}

// Prints all that is reported.
fn print_told(rt: &HostRuntime, question: Question) -> Option<()> {
    let mut told = Told::printed(rt);
    question.tell(&mut told, rt)?;
    told.is_printed().then_some(())
}

// Runs a row; where its line isn't reported, prints it and what is reported. Returns whether it is
// reported.
fn run_row(rt: &HostRuntime, subject: Subject, text: &str) -> Option<bool> {
    let (question, line) = row_of(subject, text)?;
    let mut told = Told::wanted(line);
    question.tell(&mut told, rt)?;
    if !told.is_told() {
        println!(rt; "not told: {text}").ok()?;
        print_told(rt, question)?;
    }
    Some(told.is_told())
}

// Runs a line of a file, and counts it where it is a row.
fn run_line(rt: &HostRuntime, subject: Subject, line: &str, tally: Tally) -> Option<Tally> {
    if line.starts_with('#') {
        tally.print(rt).ok()?;
        println!(rt; "{line}").ok()?;
        return Some(Tally::NONE);
    }
    match line.strip_prefix("= ") {
        Some(file) => {
            print_told(rt, Question::new(subject, file, ""))?;
            Some(tally)
        }
        None => Some(tally.with(run_row(rt, subject, line)?)),
    }
}

fn run_lines(rt: &HostRuntime, subject: Subject, text: &str) -> Result<()> {
    let mut tally = Tally::NONE;
    for line in text.lines() {
        tally = match run_line(rt, subject, line, tally) {
            Some(tally) => tally,
            None => {
                println!(rt; "no row: {line}")?;
                bail!("no row: {line}")
            }
        };
    }
    tally.print(rt)?;
    Ok(())
}

/// Runs the rows of a file, a line each. Prints how many there were and for how many the line was
/// reported. Prints each of the others with what is reported there. A line that begins with `#` is
/// a remark: it is printed, and the rows are counted anew. A line that begins with `=` names a
/// document: all that is reported of it is printed. Any other line is printed, and ends the
/// program.
pub fn run_rows(rt: &HostRuntime, subject: Subject, file: &str) -> Result<()> {
    let text = fs::read_to_string(rt, file)?;
    run_lines(rt, subject, &text)
}
