//! Swaps of the streams that rows change.
ghost use Rattle.std.specs.Prelude.{IfSome};
ghost use Rattle.irs_terms.specs.Lawful.{IsLawfulSwap, IsLawfulStream};

use crate::edits::make_edits;
use crate::sources::Sources;
use irs_json::{Value, parse};
use irs_read::read_swap;
use irs_terms::{Stream, Swap};
use std::fs;

/// A swap without streams.
const NO_STREAMS: &str = "{\"swap\":{\"swapStream\":[]}}";

fn document_in(rt: &HostRuntime, file: &str) -> Option<Value> {
    let text = fs::read_to_string(rt, file).ok()?;
    parse(rt.alloc(), text.as_bytes()).ok()
}

// Adds a file's stream to those of a swap, for each of its edits.
fn push_streams(
    rt: &HostRuntime,
    sources: &Sources,
    document: &mut Value,
    file: &str,
    edits: &str,
) -> Option<()> {
    let streams = document
        .get_mut("swap")?
        .get_mut("swapStream")?
        .as_array_mut()?;
    for each in edits.split(" // ") {
        streams.push(document_in(rt, file)?).ok()?;
        make_edits(rt.alloc(), &sources.words, streams.last_mut()?, each)?;
    }
    Some(())
}

fn document_of(rt: &HostRuntime, sources: &Sources, file: &str, edits: &str) -> Option<Value> {
    let mut document = parse(rt.alloc(), NO_STREAMS.as_bytes()).ok()?;
    push_streams(rt, sources, &mut document, file, edits)?;
    Some(document)
}

/// The swap whose streams are the file's after edits, `//` between those of each stream.
pub fn swap_of(rt: &HostRuntime, sources: &Sources, file: &str, edits: &str) -> Option<Swap>
    ensures { IfSome result IsLawfulSwap }
{
    let document = document_of(rt, sources, file, edits)?;
    match read_swap(rt.alloc(), &document) {
        Ok(swap) => Some(swap),
        Err(_) => None,
    }
}

/// The one stream of a swap.
pub fn one_stream(swap: &Swap) -> Option<&Stream>
    requires { IsLawfulSwap swap.now }
    ensures { IfSome result (λ s. IsLawfulStream s.now) }
{
    match swap.streams.as_slice() {
        [stream] => Some(stream),
        [] | [_, _, ..] => None,
    }
}
