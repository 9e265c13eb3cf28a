//! Decimal digits: two and four at a time, and the powers of ten that cut a number before its last ones.
ghost use Rattle.std.specs.Prelude.{◌≡◌, ◌/◌, ◌%◌, ◌<◌, ◌≤◌, ◌^◌, ◌++◌};
ghost use Rattle.irs_base.specs.Texts.{digit_row, two_digits};

// The powers of ten, from 10^0 to 10^18.
const POWERS: [u64; 19] = [
    1,
    10,
    100,
    1_000,
    10_000,
    100_000,
    1_000_000,
    10_000_000,
    100_000_000,
    1_000_000_000,
    10_000_000_000,
    100_000_000_000,
    1_000_000_000_000,
    10_000_000_000_000,
    100_000_000_000_000,
    1_000_000_000_000_000,
    10_000_000_000_000_000,
    100_000_000_000_000_000,
    1_000_000_000_000_000_000,
];

// The two digits of each number below 100, one pair after the other. It is a reference, since a table
// by value is laid down anew at each use.
const PAIRS: &[u8; 200] =
    b"00010203040506070809101112131415161718192021222324252627282930313233343536373839404142434445464748495051525354555657585960616263646566676869707172737475767778798081828384858687888990919293949596979899";

/// 10^n, for n up to 18.
#[tactic(auto, using(crate::proofs::Powers::power_at))]
pub fn power_of_ten(n: u8) -> u64
    requires { n ≤ 18 }
    ensures value { result ≡ 10 ^ n }
    ensures above { 0 < result }
{
    POWERS[n as usize]
}

/// A number below 100 in two digits.
#[tactic(auto, using(crate::proofs::Pairs::pair_at))]
pub fn two_digits(n: u8) -> [u8; 2]
    requires { n < 100 }
    ensures { result ≡ two_digits n }
{
    let at = 2 * n as usize;
    [PAIRS[at], PAIRS[at + 1]]
}

/// A number below 10,000 in four digits.
pub fn four_digits(n: u16) -> [u8; 4]
    requires { n < 10_000 }
    ensures { result ≡ two_digits (n / 100) ++ two_digits (n % 100) }
{
    let front = two_digits((n / 100) as u8);
    let back = two_digits((n % 100) as u8);
    [front[0], front[1], back[0], back[1]]
}

/// The last nine digits of a number.
#[tactic(auto, using(crate::proofs::TextLemmas::row_of_nine))]
pub fn nine_digits(n: u64) -> [u8; 9]
    ensures { result ≡ digit_row 9 n }
{
    let first = b'0' + (n / 100_000_000 % 10) as u8;
    let middle = four_digits((n / 10_000 % 10_000) as u16);
    let back = four_digits((n % 10_000) as u16);
    [
        first, middle[0], middle[1], middle[2], middle[3], back[0], back[1], back[2], back[3],
    ]
}
