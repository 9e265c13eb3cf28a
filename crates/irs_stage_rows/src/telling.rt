//! Reporting: what is reported of a row is compared with the line that it wants, as it comes.
use itoa::{Buffer, Integer};

/// What is reported of a row, line by line. It is compared with the wanted line as it comes, and
/// printed where a runtime is given. Nothing of it is kept, so nothing of it can fail.
#[derive(Drop)]
pub struct Told<'a> {
    /// The line that has to be reported.
    line: &'a str,
    /// What of it is still to come; none once what is reported has departed from it.
    rest: Option<&'a str>,
    /// Whether the line was reported.
    pub is_told: bool,
    /// Where to print what is reported, if anywhere.
    echo: Option<&'a HostRuntime>,
    /// Whether all was printed that had to be.
    pub is_printed: bool,
}

impl<'a> Told<'a> {
    /// Nothing yet; what comes is compared with a line, and printed where there is an echo.
    pub fn new(line: &'a str, echo: Option<&'a HostRuntime>) -> Told<'a> {
        Told {
            line,
            rest: Some(line),
            is_told: false,
            echo,
            is_printed: true,
        }
    }

    // Prints a text where there is an echo.
    fn print(&mut self, text: &str) {
        if let Some(rt) = self.echo {
            let is_printed = print!(rt; "{text}").is_ok();
            self.is_printed = self.is_printed && is_printed;
        }
    }

    /// Reports a text.
    pub fn text(&mut self, text: &str) {
        self.rest = match self.rest {
            Some(rest) => rest.strip_prefix(text),
            None => None,
        };
        self.print(text);
    }

    /// Ends a line.
    pub fn end(&mut self) {
        if let Some(rest) = self.rest {
            self.is_told = self.is_told || rest.is_empty();
        }
        self.rest = Some(self.line);
        self.print("\n");
    }

    /// Reports a text and ends its line.
    pub fn line(&mut self, text: &str) {
        self.text(text);
        self.end();
    }

    /// Reports a text and a number after it.
    pub fn number<I: Integer>(&mut self, before: &str, number: I) {
        let mut buffer = Buffer::new();
        self.text(before);
        self.text(buffer.format(number));
    }

    /// Reports a text and what bytes spell after it; bytes that spell nothing are in no line.
    pub fn bytes(&mut self, before: &str, bytes: &[u8]) {
        self.text(before);
        match str::from_utf8(bytes) {
            Ok(text) => self.text(text),
            Err(_) => self.rest = None,
        }
    }
}
