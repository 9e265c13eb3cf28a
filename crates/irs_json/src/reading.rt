//! The value that a JSON text spells (RFC 8259, as `serde_json` reads it).
ghost use Rattle.irs_json.specs.Reading.{LiesIn, PlaceIn, ReadsNone, Reads};
ghost use Rattle.serde_json.specs.View.{view};
ghost use Rattle.std.specs.Prelude.{◌^◌, ◌-◌, ◌<◌, IfErr, IfOk, length};

use crate::places::{before, place};
use serde_json::{Error as Refusal, Value};
use std::alloc::Global;
use thiserror::Error;

/// Why the bytes could not be read as a value.
#[derive(Clone, Copy, Debug, PartialEq, Eq, Error)]
pub enum JsonErr {
    /// The bytes have no JSON reading. They aren't UTF-8 or aren't JSON, they nest past 127 levels,
    /// or they hold a number that is too large for a binary float. The line and the column, from 1
    /// and in bytes, are where the reader stopped.
    #[error("line {0}, column {1}: not JSON")]
    NotJson(u32, u32),
    /// Memory ran out.
    #[error("out of memory")]
    Memory,
}

/// The value that the bytes spell. `NotJson` is returned exactly if they spell none.
pub fn parse(alloc: Global, bytes: &[u8]) -> Result<Value, JsonErr>
    ensures reads { IfOk result (λ v. Reads bytes.now (view v)) }
    ensures none { IfErr result (λ e. ReadsNone bytes.now e) }
    ensures place { length bytes.now < 2 ^ 32 - 1 → IfErr result (λ e. PlaceIn bytes.now e) }
{
    match Value::from_slice(alloc, bytes) {
        Ok(v) => Ok(v),
        Err(e) if e.is_memory() => Err(JsonErr::Memory),
        Err(e) => {
            let (line, column) = stopped(bytes, e);
            Err(JsonErr::NotJson(line, column))
        }
    }
}

// Where the reader stopped: at the end of a text that ends too soon, else at the byte that its error
// names.
fn stopped(bytes: &[u8], refusal: Refusal) -> (u32, u32)
    ensures { length bytes.now < 2 ^ 32 - 1 → LiesIn bytes.now result.0 result.1 }
{
    let at = if refusal.is_eof() {
        bytes.len()
    } else {
        before(bytes, refusal.line(), refusal.column())
    };
    place(bytes, at)
}
