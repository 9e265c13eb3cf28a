//! Lines and columns of a text, from 1.
ghost use Rattle.irs_json.specs.Reading.{LiesIn, place_after};
ghost use Rattle.std.specs.Prelude.{◌≡◌, ◌^◌, ◌-◌, ◌<◌, length};

/// The line and the column of what comes after the first `at` bytes of the text, or of its end.
pub(crate) fn place(bytes: &[u8], at: usize) -> (u32, u32)
    ensures { length bytes.now < 2 ^ 32 - 1 → LiesIn bytes.now result.0 result.1 }
{
    place_behind(&bytes[..at.min(bytes.len())])
}

// The line and the column after bytes.
fn place_behind(bytes: &[u8]) -> (u32, u32)
    ensures { length bytes.now < 2 ^ 32 - 1 → place_after 1 1 bytes.now ≡ result }
{
    let mut line: u32 = 1;
    let mut column: u32 = 1;
    for byte in bytes {
        if *byte == b'\n' {
            line = line.saturating_add(1);
            column = 1;
        } else {
            column = column.saturating_add(1);
        }
    }
    (line, column)
}

/// How many bytes come before this line and column, where the text has it.
pub(crate) fn before(bytes: &[u8], line: usize, column: usize) -> usize {
    let mut lines = line.saturating_sub(1);
    let mut front = 0;
    for (at, byte) in bytes.iter().enumerate() {
        if lines == 0 {
            break;
        }
        if *byte == b'\n' {
            lines = lines.saturating_sub(1);
            front = at.saturating_add(1);
        }
    }
    front.saturating_add(column.saturating_sub(1))
}
