//! The text of `carrier`: the value that FpML XML means, as the JSON that carries it.
ghost use Rattle.irs_answers.specs.Tasks.{DueCarrier, ReadsBack, carrier_text};
ghost use Rattle.irs_answers.specs.Private.Outcomes.{MeansXml, IfAnswered, AllPlaced};
ghost use Rattle.irs_answers.specs.Forms.{no_source_text, xml_text, IsPlacedReply};
ghost use Rattle.irs_answers.specs.Due.{Ends};
ghost use Rattle.irs_answers.specs.Messages.{reply_status, reply_text};
ghost use Rattle.irs_json.specs.Reading.{Reads};
ghost use Rattle.serde_json.specs.View.{view};
ghost use Rattle.std.specs.Prelude.{◌≡◌, IfOk};

use crate::forms::read_fpml;
use crate::refusals::Refusal;
use crate::replies::Reply;
use irs_base::Memory;
use irs_json::Value;
use std::alloc::Global;

/// What `carrier` comes to over the bytes of FpML XML: the text of the value that they mean, or K1 where they
/// mean none. The text is the one that `serde_json` writes, without spaces, with members in the byte order of
/// their names and a line feed. It reads as that value. `Memory` comes where memory ran out.
pub fn carrier(alloc: Global, bytes: &[u8]) -> Result<Reply, Memory>
    ensures due { IfOk result (λ r. Ends (DueCarrier bytes.now) (reply_status r) (reply_text r)) }
    ensures reads_back { IfOk result (λ r. reply_status r ≡ 0 → ReadsBack bytes.now (reply_text r)) }
    ensures placed { IfOk result (λ r. IsPlacedReply (xml_text bytes.now) no_source_text r) }
{
    match carry(alloc, bytes) {
        Ok(reply) => Ok(reply),
        Err(refusal) => refusal.reply(),
    }
}

// The text of the value that bytes mean, or why there is none.
fn carry(alloc: Global, bytes: &[u8]) -> Result<Reply, Refusal>
    ensures due { IfAnswered result (λ status text. Ends (DueCarrier bytes.now) status text
        × (status ≡ 0 → ReadsBack bytes.now text)) }
    ensures placed { AllPlaced (xml_text bytes.now) no_source_text result }
{
    let value = read_fpml(alloc, bytes)?;
    Ok(Reply::Text(line_of(alloc, &value)?))
}

// The text of a value that was read from XML, and LF.
fn line_of(alloc: Global, value: &Value) -> Result<Vec<u8>, Memory>
    requires { MeansXml (view value.now) }
    ensures text { IfOk result (λ t. t.items ≡ carrier_text (view value.now)) }
    ensures reads { IfOk result (λ t. Reads t.items (view value.now)) }
{
    let mut text = value.to_vec(alloc)?;
    text.push(b'\n')?;
    Ok(text)
}
