//! Putting a text.
ghost use Rattle.std.specs.Prelude.{◌≡◌, ℕ, List, IfOk};
ghost use Rattle.trace_compare.specs.Faults.{PutsOnly};

use crate::compare::CompareEnd;
use dap_base::{OutOfMemory, Sink};
use text_lines::Line;

/// Puts a text. `WriteFault` where the sink failed; a part of the text was then put, from the front.
pub fn put<K: Sink>(text: &[u8], sink: &mut K) -> Result<(), CompareEnd>
    ensures { PutsOnly text.now result K.written K.faults sink.old sink.new }
{
    match sink.put(text) {
        Ok(()) => Ok(()),
        Err(_) => Err(CompareEnd::WriteFault),
    }
}

/// Puts a line, where there was memory for it.
#[tactic(auto, using(text_lines::proofs::PutLemmas::no_part))]
pub fn put_line<K: Sink>(line: Result<Line, OutOfMemory>, sink: &mut K) -> Result<(), CompareEnd>
    ensures { (text : List ℕ) → IfOk line (λ l. l ≡ text) → PutsOnly text result K.written K.faults sink.old sink.new }
{
    match line {
        Ok(line) => put(line.as_bytes(), sink),
        Err(_) => Err(CompareEnd::OutOfMemory),
    }
}
