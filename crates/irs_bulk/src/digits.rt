//! Texts, dates and numbers, appended to the bytes of a file.
ghost use Rattle.std.specs.Prelude.{◌≡◌, ◌+◌, ◌/◌, ◌%◌, ◌<◌, ◌++◌, OnOk, decimal};
ghost use Rattle.irs_base.specs.Texts.{date_text, two_digits};

use irs_base::Memory;

/// Appends a text.
pub(crate) fn put(bytes: &mut Vec<u8>, text: &str) -> Result<(), Memory>
    ensures { OnOk result (bytes.new.items ≡ bytes.old.items ++ text.now) }
{
    bytes.extend_from_slice(text.as_bytes())?;
    Ok(())
}

/// Appends a whole number in decimal digits.
pub(crate) fn put_number(bytes: &mut Vec<u8>, n: u32) -> Result<(), Memory>
    ensures { OnOk result (bytes.new.items ≡ bytes.old.items ++ decimal n) }
{
    let mut digits = itoa::Buffer::new();
    bytes.extend_from_slice(digits.format(n).as_bytes())?;
    Ok(())
}

/// Appends a number below 100 in two digits.
pub(crate) fn put_two_digits(bytes: &mut Vec<u8>, n: u32) -> Result<(), Memory>
    requires { n < 100 }
    ensures { OnOk result (bytes.new.items ≡ bytes.old.items ++ two_digits n) }
{
    bytes.extend_from_slice(&[b'0' + (n / 10) as u8, b'0' + (n % 10) as u8])?;
    Ok(())
}

/// Appends a date, YYYY-MM-DD.
pub(crate) fn put_date(bytes: &mut Vec<u8>, year: u32, month: u32, day: u32) -> Result<(), Memory>
    requires year { year < 10_000 }
    requires month { month < 100 }
    requires day { day < 100 }
    ensures { OnOk result (bytes.new.items ≡ bytes.old.items ++ date_text year month day) }
{
    put_two_digits(bytes, year / 100)?;
    put_two_digits(bytes, year % 100)?;
    bytes.push(b'-')?;
    put_two_digits(bytes, month)?;
    bytes.push(b'-')?;
    put_two_digits(bytes, day)
}
