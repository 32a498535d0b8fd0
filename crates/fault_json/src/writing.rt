//! The text of a JSON value, put into a sink.
ghost use Rattle.std.specs.Prelude.{◌≡◌, ◌++◌, ℕ, List, false, IfOk, codes, string_bytes};
ghost use Rattle.serde_json.specs.View.{view};
ghost use Rattle.serde_json.specs.Written.{has_float, compact_text};
ghost use Rattle.text_lines.specs.Puts.{PutsText};

use dap_base::Sink;
use serde_json::Value;
use std::alloc::{AllocError, Global};
use text_lines::{TextError, put_text};

// The text, with a line feed after it.
fn with_end(mut text: String) -> Result<String, AllocError>
    ensures { IfOk result (λ line. string_bytes line ≡ string_bytes text ++ codes "\n") }
{
    text.push_str("\n")?;
    Ok(text)
}

/// The text of a value without a number that has a point, in a line.
pub fn line_of(alloc: Global, value: &Value) -> Result<String, AllocError>
    ensures { has_float (view value.now) ≡ false → IfOk result (λ line. string_bytes line ≡ compact_text (view value.now) ++ codes "\n") }
{
    let text = value.to_string(alloc)?;
    with_end(text)
}

/// Puts a text by one `put`, if there was memory for it. `Failed` where the sink failed, `OutOfMemory` where memory was
/// refused for the text; a prefix of the text was then appended.
#[tactic(auto, using(text_lines::proofs::PutLemmas::no_part))]
pub fn put_made<K: Sink>(text: Result<String, AllocError>, sink: &mut K) -> Result<(), TextError>
    ensures puts { (bytes : List ℕ) → IfOk text (λ t. string_bytes t ≡ bytes) → PutsText bytes result TextError.Failed K.written K.faults sink.old sink.new }
{
    match text {
        Ok(text) => put_text(text.as_bytes(), sink),
        Err(_) => Err(TextError::OutOfMemory),
    }
}
