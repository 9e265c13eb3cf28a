//! Elements as XML, appended to bytes. A tag round elements is a line of its own, and so is an element
//! with a text. A level is the number of elements round a line.
ghost use Rattle.std.specs.Prelude.{◌≡◌, ◌++◌, OnOk};
ghost use Rattle.irs_emit_xml.specs.Trees.{close_text, declared_text, end_tag_text, indent, leaf_text, open_text};
ghost use Rattle.irs_emit_xml.specs.Trees.{root_open_text};

use irs_base::Memory;

// Two spaces for each level.
fn indent(out: &mut Vec<u8>, level: u8) -> Result<(), Memory>
    ensures { OnOk result (out.new.items ≡ out.old.items ++ indent level) }
{
    for k in 0..level {
        out.extend_from_slice(b"  ")?;
    }
    Ok(())
}

// An end tag and the end of its line.
fn end_tag(out: &mut Vec<u8>, name: &str) -> Result<(), Memory>
    ensures { OnOk result (out.new.items ≡ out.old.items ++ end_tag_text name.now) }
{
    out.extend_from_slice(b"</")?;
    out.extend_from_slice(name.as_bytes())?;
    out.extend_from_slice(b">\n")?;
    Ok(())
}

/// Appends the start tag of an element that has elements.
pub(crate) fn open_tag(out: &mut Vec<u8>, level: u8, name: &str) -> Result<(), Memory>
    ensures { OnOk result (out.new.items ≡ out.old.items ++ open_text level name.now) }
{
    indent(out, level)?;
    out.extend_from_slice(b"<")?;
    out.extend_from_slice(name.as_bytes())?;
    out.extend_from_slice(b">\n")?;
    Ok(())
}

/// Appends the end tag of an element that has elements.
pub(crate) fn close_tag(out: &mut Vec<u8>, level: u8, name: &str) -> Result<(), Memory>
    ensures { OnOk result (out.new.items ≡ out.old.items ++ close_text level name.now) }
{
    indent(out, level)?;
    end_tag(out, name)?;
    Ok(())
}

/// Appends an element that has a text, which needs no escape.
pub(crate) fn leaf(out: &mut Vec<u8>, level: u8, name: &str, text: &[u8]) -> Result<(), Memory>
    ensures { OnOk result (out.new.items ≡ out.old.items ++ leaf_text level name.now text.now) }
{
    indent(out, level)?;
    out.extend_from_slice(b"<")?;
    out.extend_from_slice(name.as_bytes())?;
    out.extend_from_slice(b">")?;
    out.extend_from_slice(text)?;
    end_tag(out, name)?;
    Ok(())
}

/// Appends the XML declaration and the start tag of the root, in the namespace of FpML.
#[tactic(auto, unfolding(crate::specs::Trees::declared_text, crate::specs::Trees::namespace_text))]
pub(crate) fn begin(out: &mut Vec<u8>, name: &str) -> Result<(), Memory>
    ensures { OnOk result (out.new.items ≡ out.old.items ++ (declared_text ++ root_open_text name.now)) }
{
    out.extend_from_slice(b"<?xml version=\"1.0\" encoding=\"UTF-8\"?>\n<")?;
    out.extend_from_slice(name.as_bytes())?;
    out.extend_from_slice(b" xmlns=\"http://www.fpml.org/FpML-5/confirmation\">\n")?;
    Ok(())
}
