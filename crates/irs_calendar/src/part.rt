//! What has been read of a calendar file at the end of a line.
use crate::section_list::SectionList;
use crate::sections::Section;
use irs_base::{Day, Text};

/// How far the section at hand was read.
#[derive(Drop)]
pub enum Part {
    /// None has begun in this file.
    Between,
    /// Its centre.
    Named(Text),
    /// Its centre and its cover.
    Covered(Text, Day, Day),
    /// All but the holidays to come.
    Open(Section),
}

/// The sections that are done, those of earlier files included, and the section at hand.
#[derive(Drop)]
pub struct State {
    /// The sections whose last line was read, in order.
    pub done: SectionList,
    /// The section at hand, as far as it was read.
    pub part: Part,
}

/// What a line says.
#[derive(Drop)]
pub enum Said<'a> {
    /// It is blank or a comment.
    Nothing,
    /// `center NAME`.
    Center(&'a [u8]),
    /// `cover DATE DATE`, the first not after the second.
    Cover(Day, Day),
    /// `weekend` and names of weekdays: a mark for each day from Monday.
    Weekend([bool; 7]),
    /// A date.
    Holiday(Day),
    /// It is none of these.
    Wrong,
}
