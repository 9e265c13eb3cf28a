//! A field of a line: its mark, which is mostly one space, and its text.
//!
//! The lines are our rule.
ghost use Rattle.std.specs.Prelude.{◌≡◌, ◌+◌, ◌<◌, ◌≤◌, ◌∷◌, ◌++◌, length};
ghost use Rattle.std.specs.Fmt.{decimal, signed_decimal};
ghost use Rattle.irs_base.specs.Texts.{day_text, dec_text, most_places};

use crate::line::push_signed_number;
use crate::{Day, Dec, Line};

impl Line {
    /// Writes a space and a text.
    #[tactic(auto, using(crate::proofs::TextLemmas::appended))]
    pub fn put_field(&mut self, bytes: &[u8])
        requires { length self.old + length bytes.now < 512 }
        ensures text { self.new ≡ self.old ++ 32 ∷ bytes.now }
        ensures grows { length self.new ≡ length self.old + length bytes.now + 1 }
    {
        self.push(b" ");
        self.push(bytes);
    }

    /// Writes a mark and a whole number.
    #[tactic(auto, using(crate::proofs::TextLemmas::appended, crate::proofs::TextLengths::length_signed))]
    pub fn put_whole(&mut self, mark: u8, n: i128)
        requires { length self.old + 41 ≤ 512 }
        ensures text { self.new ≡ self.old ++ mark ∷ signed_decimal n }
        ensures grows { length self.new ≤ length self.old + 41 }
    {
        self.push(&[mark]);
        self.push_whole(n);
    }

    /// Writes a mark and a whole number of 64 bits.
    pub fn put_signed(&mut self, mark: u8, n: i64)
        requires { length self.old + 41 ≤ 512 }
        ensures text { self.new ≡ self.old ++ mark ∷ signed_decimal n }
        ensures grows { length self.new ≤ length self.old + 41 }
    {
        self.push(&[mark]);
        push_signed_number(self, n);
    }

    /// Writes a space and a count.
    #[tactic(auto, using(crate::proofs::TextLemmas::appended))]
    pub fn put_number(&mut self, n: u32)
        requires { length self.old + 41 ≤ 512 }
        ensures text { self.new ≡ self.old ++ 32 ∷ decimal n }
        ensures grows { length self.new ≤ length self.old + 41 }
    {
        self.push(b" ");
        self.push_number(n);
    }

    /// Writes a space and a day: `YYYY-MM-DD`.
    #[tactic(auto, using(crate::proofs::TextLemmas::appended, crate::proofs::TextLengths::length_day))]
    pub fn put_day(&mut self, d: Day)
        requires { length self.old + 11 ≤ 512 }
        ensures text { self.new ≡ self.old ++ 32 ∷ day_text d }
        ensures grows { length self.new ≡ length self.old + 11 }
    {
        self.push(b" ");
        self.push_day(d);
    }

    /// Writes a space and a decimal.
    #[tactic(auto, using(crate::proofs::TextLemmas::appended, crate::proofs::TextLengths::length_dec))]
    pub fn put_dec(&mut self, v: Dec)
        requires places { v.places ≤ most_places }
        requires room { length self.old + 54 ≤ 512 }
        ensures text { self.new ≡ self.old ++ 32 ∷ dec_text v.units v.places }
        ensures grows { length self.new ≤ length self.old + 54 }
    {
        self.push(b" ");
        self.push_dec(v);
    }
}
