//! Parts of JSON values.
ghost use Rattle.std.specs.Prelude.{◌≡◌, IfOk, map, option_map};
ghost use Rattle.serde_json.specs.Data.{string};
ghost use Rattle.serde_json.specs.View.{view};
ghost use Rattle.fault_json.specs.Parts.{count, counts, text_or_null, bytes_or_null};

use dap_base::NameText;
use serde_json::Value;
use std::alloc::{AllocError, Global};

/// A text, or null where there is none.
pub fn text_or_null(alloc: Global, text: &Option<NameText>) -> Result<Value, AllocError>
    ensures { IfOk result (λ v. view v ≡ text_or_null text.now) }
{
    match text {
        Some(text) => Value::try_from_str(alloc, text.as_str()),
        None => Ok(Value::Null),
    }
}

/// Bytes of a line as a text, or null where there are none.
pub fn bytes_or_null(alloc: Global, bytes: Option<&[u8]>) -> Result<Value, AllocError>
    ensures { IfOk result (λ v. view v ≡ bytes_or_null (option_map (λ b. b.now) bytes.entry)) }
{
    match bytes {
        Some(bytes) => Ok(Value::String(String::from_utf8_lossy(alloc, bytes)?)),
        None => Ok(Value::Null),
    }
}

fn values_of(alloc: Global, numbers: &[u64]) -> Result<Vec<Value>, AllocError>
    ensures { IfOk result (λ vs. map view vs.items ≡ map count numbers.now) }
{
    let mut values = Vec::new(alloc);
    for number in numbers {
        values.push(Value::from(*number))?;
    }
    Ok(values)
}

/// Numbers, in order.
pub fn counts(alloc: Global, numbers: &[u64]) -> Result<Value, AllocError>
    ensures { IfOk result (λ v. view v ≡ counts numbers.now) }
{
    Ok(Value::Array(values_of(alloc, numbers)?))
}
