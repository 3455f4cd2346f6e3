//! The JSON object that bytes are.
ghost use Rattle.std.specs.Prelude.{◌≡◌, None, Some, MatchResult};
ghost use Rattle.serde_json.specs.View.{view};
ghost use Rattle.ff_read.specs.Spelling.{object_of};
ghost use Rattle.ff_read.specs.Read.{IsNotJson};

use ff_types::{No, Refusal};
use serde_json::Value;
use std::alloc::Global;

/// The JSON object that the bytes are, refused as not JSON exactly where they are none.
pub fn read_object(alloc: Global, bytes: &[u8]) -> Result<Value, No>
    ensures { MatchResult result (λ object. object_of bytes.now ≡ Some (view object)) (IsNotJson (object_of bytes.now ≡ None)) }
{
    let value = match Value::from_slice(alloc, bytes) {
        Ok(value) => value,
        Err(e) => return if e.is_memory() {
            Err(No::NoMemory)
        } else {
            Err(No::Refused(Refusal::NotJson))
        },
    };
    if value.is_object() {
        Ok(value)
    } else {
        Err(No::Refused(Refusal::NotJson))
    }
}
