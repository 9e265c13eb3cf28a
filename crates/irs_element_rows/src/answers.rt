//! The answers of a row of several steps.
use crate::told::Told;

/// Reports answers, ` ; ` between them.
#[derive(Drop)]
pub struct Answers<'t, 'a> {
    told: &'t mut Told<'a>,
    /// What is reported before the next answer.
    between: &'static str,
}

impl<'t, 'a> Answers<'t, 'a> {
    /// No answers yet.
    pub fn new(told: &'t mut Told<'a>) -> Answers<'t, 'a> {
        Answers { told, between: "" }
    }

    /// Begins one more answer, which is to be reported.
    pub fn next(&mut self) -> &mut Told<'a> {
        self.told.text(self.between);
        self.between = " ; ";
        self.told
    }

    /// Answers with bytes, as a text in quotes.
    pub fn quoted(&mut self, bytes: &[u8]) {
        let told = self.next();
        match str::from_utf8(bytes) {
            Ok(text) => told.debug(&text),
            Err(_) => told.text("no text"),
        }
    }
}
