//! The lines of a file, which end in LF or CRLF (our rule).
ghost use Rattle.std.specs.Prelude.{◌≡◌, ◌<◌, ◌∷◌, length};
ghost use Rattle.irs_base.specs.Texts.{lines_of};
ghost use Rattle.irs_base.specs.Private.Order.{without_cr};

fn before_return(line: &[u8]) -> &[u8]
    ensures { result.now ≡ without_cr line.now }
{
    let n = line.len();
    if n > 0 && line[n - 1] == b'\r' {
        &line[..n - 1]
    } else {
        line
    }
}

/// The first line, and the bytes after its end.
pub fn split_line(bytes: &[u8]) -> (&[u8], &[u8])
    requires { 0 < length bytes.now }
    ensures lines { lines_of bytes.now ≡ result.0.now ∷ lines_of result.1.now }
    ensures shorter { length result.1.now < length bytes.now }
{
    for (i, b) in bytes.iter().enumerate() {
        if *b == b'\n' {
            return (before_return(&bytes[..i]), &bytes[i + 1..]);
        }
    }
    (bytes, &[])
}
