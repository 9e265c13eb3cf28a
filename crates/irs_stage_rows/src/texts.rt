//! The texts that are reported: days, rates, broken rules. Each is reported after a text.
use crate::telling::Told;
use irs_base::{Day, Dec, Line, Stopped, day_digits};
use irs_terms::Fault;
use itoa::Integer;

impl<'a> Told<'a> {
    /// `YYYY-MM-DD`.
    pub fn day(&mut self, before: &str, day: Day) {
        self.bytes(before, &day_digits(day));
    }

    /// An unadjusted day, and the adjusted one where it is another.
    pub fn dates(&mut self, before: &str, unadjusted: Day, adjusted: Day) {
        self.day(before, unadjusted);
        if adjusted != unadjusted {
            self.day(" to ", adjusted);
        }
    }

    /// A line of a number, or of `none`.
    pub fn given_number<I: Integer>(&mut self, number: Option<I>) {
        match number {
            Some(number) => self.number("", number),
            None => self.text("none"),
        }
        self.end();
    }

    /// A line of a day, or of `none`.
    pub fn given_day(&mut self, before: &str, day: Option<Day>) {
        self.text(before);
        match day {
            Some(day) => self.day("", day),
            None => self.text("none"),
        }
        self.end();
    }

    /// A line of `yes` or `no`.
    pub fn answer(&mut self, is_so: bool) {
        let word = if is_so { "yes" } else { "no" };
        self.line(word);
    }

    /// A number with its decimals, of which there may be 12.
    #[tactic(auto, using(irs_base::proofs::TextLengths::length_dec))]
    pub fn dec(&mut self, before: &str, number: Dec) {
        if 12 < number.places {
            self.text("too many places");
            return;
        }
        let mut line = Line::new();
        line.push_dec(number);
        self.bytes(before, line.bytes());
    }

    /// A rate in units of 10^-9, with nine decimals.
    pub fn rate(&mut self, before: &str, rate: i64) {
        let units = i128::from(rate);
        self.dec(before, Dec { units, places: 9 });
    }

    /// A rate, or `none`.
    pub fn given_rate(&mut self, before: &str, rate: Option<i64>) {
        self.text(before);
        match rate {
            Some(rate) => self.rate("", rate),
            None => self.text("none"),
        }
    }

    /// A line of a broken rule, its element and its index.
    pub fn fault(&mut self, fault: Fault) {
        self.number("K", fault.rule.number());
        self.text(" ");
        self.text(fault.elem.path());
        self.number(" ", fault.index);
        self.end();
    }

    /// A line of the broken rule that stopped a stage; none where memory ran out.
    pub fn stopped(&mut self, stopped: Stopped<Fault>) -> Option<()> {
        match stopped {
            Stopped::Broken(fault) => {
                self.fault(fault);
                Some(())
            }
            Stopped::Memory => None,
        }
    }
}
