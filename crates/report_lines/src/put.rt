//! Putting the lines of a text whose parts a bench shows.
ghost use Rattle.std.specs.Prelude.{◌≡◌, ℕ, List, IfOk};
ghost use Rattle.report_lines.specs.Frame.{PutsLines};

use dap_base::{OutOfMemory, Sink};
use text_lines::Line;

/// Why a text was not written whole.
#[derive(Clone, Copy, Debug, PartialEq, Eq)]
pub enum TextEnd {
    /// The bench failed.
    BenchFault,
    /// The sink failed.
    WriteFault,
    /// Memory was requested and refused.
    OutOfMemory,
}

/// Puts a text.
pub fn put<K: Sink>(text: &[u8], sink: &mut K) -> Result<(), TextEnd>
    ensures puts { PutsLines text.now result K.written K.faults sink.old sink.new }
{
    match sink.put(text) {
        Ok(()) => Ok(()),
        Err(_) => Err(TextEnd::WriteFault),
    }
}

/// Puts a line, if there was memory for it.
#[tactic(auto, using(text_lines::proofs::PutLemmas::no_part, crate::proofs::FrameLemmas::frames))]
pub fn put_line<K: Sink>(line: Result<Line, OutOfMemory>, sink: &mut K) -> Result<(), TextEnd>
    ensures puts { (text : List ℕ) → IfOk line (λ l. l ≡ text) → PutsLines text result K.written K.faults sink.old sink.new }
{
    match line {
        Ok(line) => put(line.as_bytes(), sink),
        Err(_) => Err(TextEnd::OutOfMemory),
    }
}
