//! Currencies: three capital letters, and how many decimals an amount has.
//!
//! The table of decimals is our rule. It holds ten currencies of ISO 4217, with 0 or 3 decimals; every
//! other has 2.
ghost use Rattle.std.specs.Prelude.{◌≡◌};
ghost use Rattle.irs_terms.specs.Lawful.{decimals_of};

/// A currency, by the three capital letters of ISO 4217 (FpML `currency`).
#[derive(Clone, Copy, PartialEq, Eq)]
pub struct Currency {
    /// The code: capital letters of ASCII.
    pub letters: [u8; 3],
}

impl Currency {
    /// The decimals of an amount: 0 for JPY, KRW, CLP, VND and ISK, and 3 for BHD, KWD, OMR, JOD and
    /// TND. Every other currency has 2.
    pub fn places(self) -> u8
        ensures { result ≡ decimals_of self.letters }
    {
        match &self.letters {
            b"JPY" | b"KRW" | b"CLP" | b"VND" | b"ISK" => 0,
            b"BHD" | b"KWD" | b"OMR" | b"JOD" | b"TND" => 3,
            _ => 2,
        }
    }
}
