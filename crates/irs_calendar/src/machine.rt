//! What each line of a calendar file does after the lines before it. It continues the section at
//! hand, begins a new one, or is at fault.
//!
//! On one line a fault of the grammar takes precedence over a repeated centre and over too many
//! holidays.
ghost use Rattle.std.specs.Prelude.{◌≡◌, Ok};
ghost use Rattle.irs_calendar.specs.Private.Files.{fits_section, begun, after_center, after_cover, after_weekend};
ghost use Rattle.irs_calendar.specs.Private.Files.{after_holiday, after_line, said_of, Gives};
ghost use Rattle.irs_calendar.specs.declared.machine.StepErr.TheVariants.{Memory};

use crate::holidays::Holidays;
use crate::part::{Part, Said, State};
use crate::section_list::SectionList;
use crate::sections::Section;
use irs_base::{Day, MOST_HOLIDAYS, Memory, Text};
use std::alloc::Global;

/// What is wrong with a line.
#[derive(Clone, Copy, PartialEq, Eq)]
pub enum Fault {
    /// It is outside the grammar.
    Syntax,
    /// Its centre is in an earlier section.
    Repeat,
    /// It is a holiday beyond the number that a centre may have.
    TooMany,
}

/// A fault, or out of memory.
#[derive(Drop)]
pub enum StepErr {
    /// What is wrong with the line.
    Fault(Fault),
    /// Memory ran out.
    Memory,
}

impl From<Memory> for StepErr {
    ghost from_gives = { λ _ e. e ≡ Memory };

    fn from(_e: Memory) -> StepErr {
        StepErr::Memory
    }
}

/// A new section, whose centre has none yet.
fn begin(alloc: Global, done: SectionList, name: &[u8]) -> Result<State, StepErr>
    ensures { Gives result (begun done name.now) }
{
    if done.has_name(name) {
        return Err(StepErr::Fault(Fault::Repeat));
    }
    let part = Part::Named(Text::from_bytes(alloc, name)?);
    Ok(State { done, part })
}

/// `center` begins a section; the one at hand ends.
fn on_center(alloc: Global, done: SectionList, part: Part, name: &[u8]) -> Result<State, StepErr>
    ensures { Gives result (after_center done part name.now) }
{
    match part {
        Part::Between => begin(alloc, done, name),
        Part::Open(section) => {
            let done = done.with(alloc, section)?;
            begin(alloc, done, name)
        }
        Part::Named(_) => Err(StepErr::Fault(Fault::Syntax)),
        Part::Covered(_, _, _) => Err(StepErr::Fault(Fault::Syntax)),
    }
}

/// `cover` comes right after `center`.
fn on_cover(done: SectionList, part: Part, first: Day, last: Day) -> Result<State, StepErr>
    ensures { Gives result (after_cover done part first last) }
{
    match part {
        Part::Named(name) => Ok(State {
            done,
            part: Part::Covered(name, first, last),
        }),
        Part::Between => Err(StepErr::Fault(Fault::Syntax)),
        Part::Covered(_, _, _) => Err(StepErr::Fault(Fault::Syntax)),
        Part::Open(_) => Err(StepErr::Fault(Fault::Syntax)),
    }
}

/// `weekend` comes right after `cover`.
fn on_weekend(
    alloc: Global,
    done: SectionList,
    part: Part,
    weekend: [bool; 7],
) -> Result<State, StepErr>
    ensures { Gives result (after_weekend done part weekend) }
{
    match part {
        Part::Covered(name, first, last) => Ok(State {
            done,
            part: Part::Open(Section {
                name,
                first,
                last,
                weekend,
                holidays: Holidays::new(alloc),
            }),
        }),
        Part::Between => Err(StepErr::Fault(Fault::Syntax)),
        Part::Named(_) => Err(StepErr::Fault(Fault::Syntax)),
        Part::Open(_) => Err(StepErr::Fault(Fault::Syntax)),
    }
}

/// The day lies in the cover, after the holidays so far.
fn fits(section: &Section, d: Day) -> bool
    ensures { result ≡ fits_section section.now d }
{
    section.first <= d && d <= section.last && section.holidays.is_after(d)
}

/// Holidays come after `weekend`.
fn on_holiday(done: SectionList, part: Part, d: Day) -> Result<State, StepErr>
    ensures { Gives result (after_holiday done part d) }
{
    match part {
        Part::Open(mut section) => {
            if !fits(&section, d) {
                return Err(StepErr::Fault(Fault::Syntax));
            }
            if section.holidays.len() >= MOST_HOLIDAYS {
                return Err(StepErr::Fault(Fault::TooMany));
            }
            section.holidays.push(d)?;
            Ok(State {
                done,
                part: Part::Open(section),
            })
        }
        Part::Between => Err(StepErr::Fault(Fault::Syntax)),
        Part::Named(_) => Err(StepErr::Fault(Fault::Syntax)),
        Part::Covered(_, _, _) => Err(StepErr::Fault(Fault::Syntax)),
    }
}

/// What a line makes of what was read before it.
pub fn step(alloc: Global, state: State, said: Said) -> Result<State, StepErr>
    ensures { Gives result (after_line state (said_of said.entry)) }
{
    let State { done, part } = state;
    match said {
        Said::Nothing => Ok(State { done, part }),
        Said::Center(name) => on_center(alloc, done, part, name),
        Said::Cover(first, last) => on_cover(done, part, first, last),
        Said::Weekend(weekend) => on_weekend(alloc, done, part, weekend),
        Said::Holiday(d) => on_holiday(done, part, d),
        Said::Wrong => Err(StepErr::Fault(Fault::Syntax)),
    }
}
