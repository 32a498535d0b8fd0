//! Lines that sequences write, noted in the log.
ghost use Rattle.std.specs.Prelude.{◌≡◌, ℕ, List, IfOk, drop, slice_index};
ghost use Rattle.sequence_rules.specs.Lines.{load_line, message_line, query_line, value_line};
ghost use Rattle.logged_calls.specs.Held.{WritesLine};

use crate::held::{Held, LoggedEnd, Stopped};
use dap_base::OutOfMemory;
use sequence_rules::{MOST_LINES, load_line, message_line, query_line, value_line};
use std::alloc::Global;
use target_machine::HaltCause;
use text_lines::Line;

// Notes a line, and then this is the value, unless it would be line 100,001.
#[tactic(auto, unfolding(crate::proofs::Opened::lines))]
fn write_line(line: Result<Line, OutOfMemory>, value: u64, held: &mut Held) -> Result<u64, Stopped>
    ensures { (text : List ℕ) → IfOk line (λ l. l ≡ text) → WritesLine held.old held.new result text value }
{
    if held.lines >= MOST_LINES {
        held.end = LoggedEnd::Halted(HaltCause::MessageLimit);
        return Err(Stopped);
    }
    let Ok(line) = line else {
        held.end = LoggedEnd::OutOfMemory;
        return Err(Stopped);
    };
    let Ok(()) = held.log.write(line) else {
        held.end = LoggedEnd::OutOfMemory;
        return Err(Stopped);
    };
    held.lines += 1;
    Ok(value)
}

// The number at the index, 0 where there is none.
pub(crate) fn number_at(numbers: &[u64], index: usize) -> u64
    ensures { result ≡ slice_index numbers.now index }
{
    match numbers.get(index) {
        Some(number) => *number,
        None => 0,
    }
}

// `Message`.
pub(crate) fn write_message(
    text: &str,
    numbers: &[u64],
    alloc: Global,
    held: &mut Held,
) -> Result<u64, Stopped>
    ensures { WritesLine held.old held.new result (message_line (slice_index numbers.now 0) text.now (drop 1 numbers.now)) 0 }
{
    let more = if numbers.is_empty() {
        numbers
    } else {
        &numbers[1..]
    };
    write_line(
        message_line(alloc, number_at(numbers, 0), text, more),
        0,
        held,
    )
}

// `Query`.
pub(crate) fn write_query(
    text: &str,
    numbers: &[u64],
    alloc: Global,
    held: &mut Held,
) -> Result<u64, Stopped>
    ensures { WritesLine held.old held.new result (query_line (slice_index numbers.now 0) text.now (slice_index numbers.now 1)) (slice_index numbers.now 1) }
{
    let default = number_at(numbers, 1);
    write_line(
        query_line(alloc, number_at(numbers, 0), text, default),
        default,
        held,
    )
}

// `QueryValue`.
pub(crate) fn write_query_value(
    text: &str,
    numbers: &[u64],
    alloc: Global,
    held: &mut Held,
) -> Result<u64, Stopped>
    ensures { WritesLine held.old held.new result (value_line text.now (slice_index numbers.now 0)) (slice_index numbers.now 0) }
{
    let default = number_at(numbers, 0);
    write_line(value_line(alloc, text, default), default, held)
}

// `LoadDebugInfo`.
pub(crate) fn write_load(text: &str, alloc: Global, held: &mut Held) -> Result<u64, Stopped>
    ensures { WritesLine held.old held.new result (load_line text.now) 0 }
{
    write_line(load_line(alloc, text), 0, held)
}
