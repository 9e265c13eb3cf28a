//! Lines and columns of a text, from 1.
ghost use Rattle.irs_xml.specs.Document.{LiesIn, place_after};
ghost use Rattle.std.specs.Prelude.{◌≡◌, ◌^◌, ◌-◌, ◌<◌, length};

/// The line and the column of what comes after the first `at` bytes of the text, or of its end.
pub(crate) fn place(bytes: &[u8], at: usize) -> (u32, u32)
    ensures { length bytes.now < 2 ^ 32 - 1 → LiesIn bytes.now result.0 result.1 }
{
    place_behind(&bytes[..at.min(bytes.len())])
}

// The line and the column after bytes.
fn place_behind(bytes: &[u8]) -> (u32, u32)
    ensures { length bytes.now < 2 ^ 32 - 1 → place_after 1 1 bytes.now ≡ result }
{
    let mut line: u32 = 1;
    let mut column: u32 = 1;
    for byte in bytes {
        if *byte == b'\n' {
            line = line.saturating_add(1);
            column = 1;
        } else {
            column = column.saturating_add(1);
        }
    }
    (line, column)
}
