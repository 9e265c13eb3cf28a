//! Reading a calendar file line by line.
ghost use Rattle.std.specs.Prelude.{◌≤◌, length};
ghost use Rattle.irs_base.specs.Limits.{most_bytes};
ghost use Rattle.irs_calendar.specs.Private.Files.{after_line, at_end, numbered, sections_of, GivesFile};
ghost use Rattle.irs_calendar.specs.Grammar.{line_said};

use crate::end_lines::split_seen;
use crate::machine::{Fault, StepErr, step};
use crate::part::{Part, State};
use crate::section_list::SectionList;
use crate::words::said;
use std::alloc::Global;

/// The first faulty line, or out of memory.
#[derive(Drop)]
pub enum FileErr {
    /// What is wrong, and the number of the line, from 1.
    Fault(Fault, u32),
    /// Memory ran out.
    Memory,
}

/// Reads one more line.
fn read_line(alloc: Global, state: State, line: &[u8], number: u32) -> Result<State, FileErr>
    ensures { GivesFile result (numbered number (after_line state (line_said line.now))) }
{
    match step(alloc, state, said(line)) {
        Ok(next) => Ok(next),
        Err(StepErr::Fault(fault)) => Err(FileErr::Fault(fault, number)),
        Err(StepErr::Memory) => Err(FileErr::Memory),
    }
}

/// The end of a file, at the line after its last: the section at hand has to be whole.
fn read_end(alloc: Global, state: State, number: u32) -> Result<SectionList, FileErr>
    ensures { GivesFile result (numbered number (at_end state.done state.part)) }
{
    let State { done, part } = state;
    match part {
        Part::Between => Ok(done),
        Part::Open(section) => match done.with(alloc, section) {
            Ok(done) => Ok(done),
            Err(_) => Err(FileErr::Memory),
        },
        Part::Named(_) => Err(FileErr::Fault(Fault::Syntax, number)),
        Part::Covered(_, _, _) => Err(FileErr::Fault(Fault::Syntax, number)),
    }
}

/// The sections so far and those of a file, exactly as the definition reads it.
pub fn read_file(alloc: Global, done: SectionList, bytes: &[u8]) -> Result<SectionList, FileErr>
    requires { length bytes.now ≤ most_bytes }
    ensures { GivesFile result (sections_of done bytes.now) }
{
    let mut state = State {
        done,
        part: Part::Between,
    };
    let mut rest = bytes;
    let mut before: u32 = 0;
    while !rest.is_empty() {
        let (line, more) = split_seen(rest, before);
        before += 1;
        state = read_line(alloc, state, line, before)?;
        rest = more;
    }
    read_end(alloc, state, before + 1)
}
