//! What is reported of a row.
use irs_base::{Day, civil_of};
use itoa::{Buffer, Integer};
use std::fmt;
use std::fmt::{Debug, Write};

/// What is reported of a row, line by line: it is compared with the wanted line as it comes, or
/// printed. Nothing of it is kept, so nothing of it can fail.
#[derive(Drop)]
pub struct Told<'a> {
    /// The line that has to be reported.
    line: &'a str,
    /// What of it is still to come; none once what is reported has departed from it.
    rest: Option<&'a str>,
    /// Whether the line was reported.
    is_told: bool,
    /// Where to print what is reported, if anywhere.
    echo: Option<&'a HostRuntime>,
    /// Whether all was printed that was to be.
    is_printed: bool,
}

impl<'a> Told<'a> {
    /// What is reported is compared with this line.
    pub fn wanted(line: &'a str) -> Told<'a> {
        Told {
            line,
            rest: Some(line),
            is_told: false,
            echo: None,
            is_printed: true,
        }
    }

    /// What is reported is printed.
    pub fn printed(rt: &'a HostRuntime) -> Told<'a> {
        Told {
            line: "",
            rest: None,
            is_told: false,
            echo: Some(rt),
            is_printed: true,
        }
    }

    /// Whether the wanted line is among those that were reported.
    pub fn is_told(&self) -> bool {
        self.is_told
    }

    /// Whether all was printed that was to be.
    pub fn is_printed(&self) -> bool {
        self.is_printed
    }

    fn print(&mut self, text: &str) {
        if let Some(rt) = self.echo {
            self.is_printed = rt.print(text).is_ok() && self.is_printed;
        }
    }

    /// A text, the next part of a line.
    pub fn text(&mut self, text: &str) {
        self.rest = match self.rest {
            Some(rest) => rest.strip_prefix(text),
            None => None,
        };
        self.print(text);
    }

    /// The end of a line.
    pub fn end_line(&mut self) {
        if let Some(rest) = self.rest {
            self.is_told = self.is_told || rest.is_empty();
        }
        self.rest = Some(self.line);
        self.print("\n");
    }

    /// A text of which the bytes are given.
    pub fn bytes(&mut self, bytes: &[u8]) {
        match str::from_utf8(bytes) {
            Ok(text) => self.text(text),
            Err(_) => self.text("no text"),
        }
    }

    /// A text of several lines, of which the bytes are given; each ends with a line feed.
    pub fn lines(&mut self, bytes: &[u8]) {
        let text = str::from_utf8(bytes).unwrap_or("no text");
        for part in text.split_inclusive('\n') {
            match part.strip_suffix('\n') {
                Some(line) => {
                    self.text(line);
                    self.end_line();
                }
                None => self.text(part),
            }
        }
    }

    /// A whole number.
    pub fn number<I: Integer>(&mut self, n: I) {
        let mut digits = Buffer::new();
        self.text(digits.format(n));
    }

    // A hyphen, then a number of two digits.
    fn part_of_date(&mut self, n: u8) {
        self.text(if n < 10 { "-0" } else { "-" });
        self.number(n);
    }

    /// `YYYY-MM-DD`.
    pub fn day(&mut self, day: Day) {
        let date = civil_of(day);
        self.number(date.year);
        self.part_of_date(date.month);
        self.part_of_date(date.day);
    }

    /// A value as its type's `Debug` has it, a code by its name.
    pub fn debug<T: Debug>(&mut self, value: &T) {
        if write!(self, "{value:?}").is_err() {
            self.rest = None;
        }
    }

    /// A value that may be absent, as its type's `Debug` has it.
    pub fn given<T: Debug>(&mut self, value: &Option<T>) {
        match value {
            Some(value) => self.debug(value),
            None => self.text("absent"),
        }
    }
}

impl fmt::Write for Told<'_> {
    fn write_str(&mut self, text: &str) -> fmt::Result {
        self.text(text);
        Ok(())
    }
}
