//! What calls of functions do, once their arguments are numbers.
ghost use Rattle.target_machine.specs.State.{TargetState};
ghost use Rattle.sequence_rules.specs.Calls as c;
ghost use Rattle.sequence_rules.specs.Lines.{load_line, message_line, query_line, value_line};
ghost use Rattle.sequence_rules.specs.Direct.{direct};
ghost use Rattle.std.specs.Prelude.{◌≡◌, ℕ, List, IfOk, drop, slice_index, false};
ghost use Rattle.sequence_meaning.specs.Frame.{RunsDirect};

use crate::end::{DirectEnd, Stopped};
use crate::held::DirectHeld;
use crate::memory::{access_memory, access_word};
use crate::probe::{abort, delay, send_bits, set_clock, set_pins};
use crate::registers::{access_ap, access_dp};
use dap_base::{OutOfMemory, Sink};
use function_table::Function;
use sequence_rules::{MOST_LINES, load_line, message_line, query_line, value_line};
use std::alloc::Global;
use target_machine::{HaltCause, Target};
use text_lines::{Line, TextError, put_text};

// Writes a line, and then this is the value, unless it would be line 100,001. Functions that write lines are not inlined: few calls
// write lines, and all would pay for the room of these.
#[inline(never)]
#[tactic(auto, unfolding(crate::proofs::Opened::lines), using(crate::proofs::FrameLemmas::lines_known))]
fn write_line<K: Sink>(
    line: Result<Line, OutOfMemory>,
    value: u64,
    held: &mut DirectHeld,
    sink: &mut K,
) -> Result<u64, Stopped>
    ensures { (target : TargetState) (text : List ℕ) → IfOk line (λ l. l ≡ text)
        → RunsDirect (c.line_result (direct false) text value)
        K.written K.faults held.old target sink.old held.new target sink.new result }
{
    if held.lines >= MOST_LINES {
        held.end = DirectEnd::Halted(HaltCause::MessageLimit);
        return Err(Stopped);
    }
    let Ok(line) = line else {
        held.end = DirectEnd::OutOfMemory;
        return Err(Stopped);
    };
    match put_text(line.as_bytes(), sink) {
        Ok(()) => {
            held.lines += 1;
            Ok(value)
        }
        Err(TextError::Failed) => {
            held.end = DirectEnd::WriteFault;
            Err(Stopped)
        }
        Err(TextError::OutOfMemory) => {
            held.end = DirectEnd::OutOfMemory;
            Err(Stopped)
        }
    }
}

// The number at the index, 0 where there is none.
fn number_at(numbers: &[u64], index: usize) -> u64
    ensures { result ≡ slice_index numbers.now index }
{
    match numbers.get(index) {
        Some(number) => *number,
        None => 0,
    }
}

// `Message`.
#[inline(never)]
fn write_message<K: Sink>(
    text: &str,
    numbers: &[u64],
    alloc: Global,
    held: &mut DirectHeld,
    sink: &mut K,
) -> Result<u64, Stopped>
    ensures { (target : TargetState) → RunsDirect
        (c.line_result (direct false) (message_line (slice_index numbers.now 0) text.now (drop 1 numbers.now)) 0)
        K.written K.faults held.old target sink.old held.new target sink.new result }
{
    let more = if numbers.is_empty() {
        numbers
    } else {
        &numbers[1..]
    };
    write_line(
        message_line(alloc, number_at(numbers, 0), text, more),
        0,
        held,
        sink,
    )
}

// `Query`.
#[inline(never)]
fn write_query<K: Sink>(
    text: &str,
    numbers: &[u64],
    alloc: Global,
    held: &mut DirectHeld,
    sink: &mut K,
) -> Result<u64, Stopped>
    ensures { (target : TargetState) → RunsDirect
        (c.line_result (direct false) (query_line (slice_index numbers.now 0) text.now (slice_index numbers.now 1))
        (slice_index numbers.now 1))
        K.written K.faults held.old target sink.old held.new target sink.new result }
{
    let default = number_at(numbers, 1);
    write_line(
        query_line(alloc, number_at(numbers, 0), text, default),
        default,
        held,
        sink,
    )
}

// `QueryValue`.
#[inline(never)]
fn write_query_value<K: Sink>(
    text: &str,
    numbers: &[u64],
    alloc: Global,
    held: &mut DirectHeld,
    sink: &mut K,
) -> Result<u64, Stopped>
    ensures { (target : TargetState) → RunsDirect
        (c.line_result (direct false) (value_line text.now (slice_index numbers.now 0)) (slice_index numbers.now 0))
        K.written K.faults held.old target sink.old held.new target sink.new result }
{
    let default = number_at(numbers, 0);
    write_line(value_line(alloc, text, default), default, held, sink)
}

// `LoadDebugInfo`.
#[inline(never)]
fn write_load<K: Sink>(
    text: &str,
    alloc: Global,
    held: &mut DirectHeld,
    sink: &mut K,
) -> Result<u64, Stopped>
    ensures { (target : TargetState) → RunsDirect (c.line_result (direct false) (load_line text.now) 0)
        K.written K.faults held.old target sink.old held.new target sink.new result }
{
    write_line(load_line(alloc, text), 0, held, sink)
}

// A call of a function other than `Sequence`, with its text and the numbers among its arguments.
#[tactic(auto, unfolding(crate::proofs::Opened::functions), using(crate::proofs::FrameLemmas::runs_with_sink))]
pub(crate) fn make_call<K: Sink>(
    function: Function,
    text: &str,
    numbers: &[u64],
    alloc: Global,
    held: &mut DirectHeld,
    target: &mut Target,
    sink: &mut K,
) -> Result<u64, Stopped>
    ensures { RunsDirect (c.function_result (direct false) function text.now numbers.now)
        K.written K.faults held.old target.old sink.old held.new target.new sink.new result }
{
    match function {
        Function::Read8 => access_memory(1, true, number_at(numbers, 0), 0, held, target),
        Function::Write8 => access_memory(
            1,
            false,
            number_at(numbers, 0),
            number_at(numbers, 1),
            held,
            target,
        ),
        Function::Read16 => access_memory(2, true, number_at(numbers, 0), 0, held, target),
        Function::Write16 => access_memory(
            2,
            false,
            number_at(numbers, 0),
            number_at(numbers, 1),
            held,
            target,
        ),
        Function::Read32 => access_word(true, number_at(numbers, 0), 0, held, target),
        Function::Write32 => access_word(
            false,
            number_at(numbers, 0),
            number_at(numbers, 1),
            held,
            target,
        ),
        Function::Read64 => access_memory(8, true, number_at(numbers, 0), 0, held, target),
        Function::Write64 => access_memory(
            8,
            false,
            number_at(numbers, 0),
            number_at(numbers, 1),
            held,
            target,
        ),
        Function::ReadAp => access_ap(true, number_at(numbers, 0), 0, held, target),
        Function::WriteAp => access_ap(
            false,
            number_at(numbers, 0),
            number_at(numbers, 1),
            held,
            target,
        ),
        Function::ReadDp => access_dp(true, number_at(numbers, 0), 0, held, target),
        Function::WriteDp => access_dp(
            false,
            number_at(numbers, 0),
            number_at(numbers, 1),
            held,
            target,
        ),
        Function::DapDelay => delay(number_at(numbers, 0), held, target),
        Function::DapSwjClock => set_clock(number_at(numbers, 0), held, target),
        Function::DapWriteAbort => abort(number_at(numbers, 0), held, target),
        Function::DapSwjPins => set_pins(
            number_at(numbers, 0),
            number_at(numbers, 1),
            number_at(numbers, 2),
            held,
            target,
        ),
        Function::DapSwjSequence => send_bits(
            number_at(numbers, 0),
            number_at(numbers, 1),
            held,
            target,
        ),
        Function::DapJtagSequence => {
            held.end = DirectEnd::Halted(HaltCause::Unsupported);
            Err(Stopped)
        }
        Function::Sequence => Ok(0),
        Function::Message => write_message(text, numbers, alloc, held, sink),
        Function::Query => write_query(text, numbers, alloc, held, sink),
        Function::QueryValue => write_query_value(text, numbers, alloc, held, sink),
        Function::LoadDebugInfo => write_load(text, alloc, held, sink),
    }
}
