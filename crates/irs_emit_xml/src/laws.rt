//! Laws: what is written of elements is read as their value.
ghost use Rattle.std.specs.Prelude.{ℕ, List};
ghost use Rattle.irs_emit_xml.specs.Trees.{IsRoot, Nodes, written_text, written_value};
ghost use Rattle.irs_xml.specs.Document.{XmlReads};

/// The text of a root and its elements is a document in XML that means their value. The root may nest
/// 63 levels. The function does nothing; its contract is the law.
#[tactic(auto, using(crate::proofs::ReadBack::written_reads))]
pub fn written_is_read()
    ensures { (name : List ℕ) (ns : Nodes) → IsRoot name ns → XmlReads (written_text name ns) (written_value name ns) }
{}
