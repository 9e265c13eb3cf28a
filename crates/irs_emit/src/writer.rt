//! JSON's tokens, appended to bytes: a comma, and a string that needs no escape.
ghost use Rattle.std.specs.Prelude.{◌≡◌, ◌++◌, OnOk};
ghost use Rattle.serde_json.specs.Data.{string};
ghost use Rattle.serde_json.specs.Written.{comma_if, compact_text};
ghost use Rattle.irs_emit.specs.Private.Texts.{AreLeafChars};

use irs_base::Memory;

/// Appends a comma, where something is before it.
pub(crate) fn comma(out: &mut Vec<u8>, later: bool) -> Result<(), Memory>
    ensures { OnOk result (out.new.items ≡ out.old.items ++ comma_if later) }
{
    if later {
        out.push(b',')?;
    }
    Ok(())
}

/// Appends a string whose characters need no escape.
pub(crate) fn plain(out: &mut Vec<u8>, text: &[u8]) -> Result<(), Memory>
    requires { AreLeafChars text.now }
    ensures { OnOk result (out.new.items ≡ out.old.items ++ compact_text (string text.now)) }
{
    out.push(b'"')?;
    out.extend_from_slice(text)?;
    out.push(b'"')?;
    Ok(())
}
