//! Calls that write lines.
ghost use Rattle.std.specs.Prelude.{◌≡◌, ℕ, List, IfOk, drop, slice_index};
ghost use Rattle.sequence_rules.specs.Calls as c;
ghost use Rattle.sequence_rules.specs.Lines.{message_line};
ghost use Rattle.function_calls.specs.Kinds.{line_done};
ghost use Rattle.function_calls.specs.Lines.{AreWholeLines};
ghost use Rattle.function_calls.specs.Frame.{IsReadyToCall, RunsWriting};

use crate::end::End;
use crate::held::Held;
use crate::kinds::LineKind;
use crate::performing::number_at;
use crate::uses::confirm;
use access_calls::Access;
use dap_base::{Failed, OutOfMemory, Sink};
use sequence_rules::{MOST_LINES, load_line, message_line, query_line, value_line};
use std::alloc::Global;
use target_calls::Value;
use target_machine::HaltCause;
use text_lines::Line;

// Makes all that was asked, writes a whole line, and then this is the value, unless it would be line 100,001.
#[tactic(auto, unfolding(sequence_rules::specs::Calls::line_result), using(crate::proofs::LineLemmas::lines, crate::proofs::WholeLines::kept_whole))]
fn write_line<A: Access, K: Sink>(
    line: Result<Line, OutOfMemory>,
    value: u64,
    held: &mut Held,
    access: &mut A,
    sink: &mut K,
) -> Result<Value, End>
    requires ready { IsReadyToCall held.old.units (A.reported access.old) }
    requires whole { IfOk line AreWholeLines }
    ensures { (text : List ℕ) → IfOk line (λ l. l ≡ text) → RunsWriting (λ m. c.line_result m text value)
        A.cost A.begun A.reported A.identity K.written K.faults held.old access.old sink.old held.new access.new sink.new result }
{
    if held.lines >= MOST_LINES {
        return Err(End::Halted(HaltCause::MessageLimit));
    }
    let Ok(line) = line else {
        return Err(End::OutOfMemory);
    };
    confirm(access)?;
    match sink.put(line.as_bytes()) {
        Ok(()) => {
            held.lines += 1;
            Ok(Value::Number(value))
        }
        Err(Failed) => Err(End::WriteFault),
    }
}

// The line of `Message`: the numbers after the first are for the conversions of its format.
fn message_of(alloc: Global, text: &str, numbers: &[u64]) -> Result<Line, OutOfMemory>
    ensures { IfOk result (λ line. line ≡ message_line (slice_index numbers.now 0) text.now (drop 1 numbers.now)) }
{
    let more = if numbers.is_empty() {
        numbers
    } else {
        &numbers[1..]
    };
    message_line(alloc, number_at(numbers, 0), text, more)
}

// A call that writes a line of this kind.
pub(crate) fn write_line_of<A: Access, K: Sink>(
    kind: LineKind,
    text: &str,
    numbers: &[u64],
    alloc: Global,
    held: &mut Held,
    access: &mut A,
    sink: &mut K,
) -> Result<Value, End>
    requires ready { IsReadyToCall held.old.units (A.reported access.old) }
    ensures { RunsWriting (λ m. line_done m kind text.now numbers.now)
        A.cost A.begun A.reported A.identity K.written K.faults held.old access.old sink.old held.new access.new sink.new result }
{
    let first = number_at(numbers, 0);
    let second = number_at(numbers, 1);
    match kind {
        LineKind::Message => {
            let line = message_of(alloc, text, numbers);
            write_line(line, 0, held, access, sink)
        }
        LineKind::Query => {
            let line = query_line(alloc, first, text, second);
            write_line(line, second, held, access, sink)
        }
        LineKind::Value => {
            let line = value_line(alloc, text, first);
            write_line(line, first, held, access, sink)
        }
        LineKind::Load => {
            let line = load_line(alloc, text);
            write_line(line, 0, held, access, sink)
        }
    }
}
