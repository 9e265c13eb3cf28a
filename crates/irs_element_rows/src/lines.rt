//! The lines that are reported of a swap or of cash flows: each has the number of its stream, a
//! name and a value.
use crate::told::Told;
use crate::values::Tell;
use std::fmt::Debug;

/// What reports the lines, and the row of the next one. A row has the number of a stream, and a
/// kind and a number, which is 0 where no row is meant.
#[derive(Drop)]
pub struct Lines<'t, 'a> {
    told: &'t mut Told<'a>,
    stream: usize,
    kind: &'static str,
    row: usize,
}

impl<'t, 'a> Lines<'t, 'a> {
    /// Reports the line `ok` with how many streams there are.
    pub fn new(told: &'t mut Told<'a>, streams: usize) -> Lines<'t, 'a> {
        told.text("ok ");
        told.number(streams);
        told.end_line();
        Lines {
            told,
            stream: 0,
            kind: "",
            row: 0,
        }
    }

    /// Goes to the next stream; the first one has the number 1.
    pub fn next_stream(&mut self) {
        self.stream = self.stream.saturating_add(1);
    }

    /// Goes to the row of this kind and number: they come before the names of its fields.
    pub fn next_row(&mut self, kind: &'static str, n: usize) {
        self.kind = kind;
        self.row = n;
    }

    /// Begins a line: its value and its end are to be reported.
    pub fn begin(&mut self, name: &str) -> &mut Told<'a> {
        self.told.number(self.stream);
        self.told.text(" ");
        if self.row > 0 {
            self.told.text(self.kind);
            self.told.text(" ");
            self.told.number(self.row);
            self.told.text(" ");
        }
        self.told.text(name);
        self.told.text(" ");
        self.told
    }

    /// Reports a line with a text.
    pub fn push(&mut self, name: &str, text: &str) {
        let told = self.begin(name);
        told.text(text);
        told.end_line();
    }

    /// Reports the line of a value.
    pub fn push_value<T: Tell>(&mut self, name: &str, value: &T) {
        let told = self.begin(name);
        value.tell(told);
        told.end_line();
    }

    /// Reports the line of a code or a number that may be absent.
    pub fn push_given<T: Debug>(&mut self, name: &str, value: &Option<T>) {
        let told = self.begin(name);
        told.given(value);
        told.end_line();
    }
}
