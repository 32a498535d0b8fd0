//! What calls of functions do, once their arguments are numbers.
ghost use Rattle.std.specs.Prelude.{◌≡◌, None, slice_index};
ghost use Rattle.sequence_rules.specs.Calls as c;
ghost use Rattle.function_calls.specs.Kinds.{IsSized, kind_done, probe_done, written_value};
ghost use Rattle.function_calls.specs.Frame.{IsReadyToCall, RunsCall, RunsWriting};

use crate::end::End;
use crate::held::Held;
use crate::kinds::{Kind, ProbeKind, call_kind_of};
use crate::lines::write_line_of;
use crate::memory::access_memory;
use crate::probe::{abort, delay, send_bits, set_clock, set_pins};
use crate::registers::{access_ap, access_dp};
use access_calls::Access;
use dap_base::Sink;
use function_table::Function;
use std::alloc::Global;
use target_calls::Value;
use target_machine::HaltCause;

// The number at the index, 0 where there is none.
pub(crate) fn number_at(numbers: &[u64], index: usize) -> u64
    ensures { result ≡ slice_index numbers.now index }
{
    match numbers.get(index) {
        Some(number) => *number,
        None => 0,
    }
}

// What a call writes: its second number; a read has none.
fn written_value(read: bool, numbers: &[u64]) -> u64
    ensures { result ≡ written_value read numbers.now }
{
    if read { 0 } else { number_at(numbers, 1) }
}

// A command of the probe.
fn command_probe<A: Access>(
    kind: ProbeKind,
    numbers: &[u64],
    held: &mut Held,
    access: &mut A,
) -> Result<Value, End>
    requires ready { IsReadyToCall held.old.units (A.reported access.old) }
    ensures { RunsCall (λ m. probe_done m kind numbers.now) A.cost A.begun A.reported A.identity held.old access.old held.new access.new result }
{
    let first = number_at(numbers, 0);
    match kind {
        ProbeKind::Delay => delay(first, held, access),
        ProbeKind::Clock => set_clock(first, held, access),
        ProbeKind::Abort => abort(first, held, access),
        ProbeKind::Pins => set_pins(
            first,
            number_at(numbers, 1),
            number_at(numbers, 2),
            held,
            access,
        ),
        ProbeKind::Bits => send_bits(first, number_at(numbers, 1), held, access),
    }
}

// A call of a function of this kind.
#[tactic(auto, using(crate::proofs::Leaves::quiet_cause, crate::proofs::WholeLines::kept_whole))]
fn make_call_of<A: Access, K: Sink>(
    kind: Kind,
    text: &str,
    numbers: &[u64],
    alloc: Global,
    held: &mut Held,
    access: &mut A,
    sink: &mut K,
) -> Result<Value, End>
    requires sized { IsSized kind }
    requires ready { IsReadyToCall held.old.units (A.reported access.old) }
    ensures { RunsWriting (λ m. kind_done m kind text.now numbers.now)
        A.cost A.begun A.reported A.identity K.written K.faults held.old access.old sink.old held.new access.new sink.new result }
{
    let first = number_at(numbers, 0);
    match kind {
        Kind::Memory { size, read } => access_memory(
            size,
            read,
            first,
            written_value(read, numbers),
            held,
            access,
        ),
        Kind::Ap { read } => access_ap(read, first, written_value(read, numbers), held, access),
        Kind::Dp { read } => access_dp(read, first, written_value(read, numbers), held, access),
        Kind::Probe(kind) => command_probe(kind, numbers, held, access),
        Kind::Writes(kind) => write_line_of(kind, text, numbers, alloc, held, access, sink),
        Kind::Unsupported => Err(End::Halted(HaltCause::Unsupported)),
        Kind::Nothing => Ok(Value::Number(0)),
    }
}

/// A call of a function, with its text and the numbers among its arguments; a number that is missing is 0. `Sequence` does nothing:
/// the caller calls the sequence. A line is written only after all that was asked was made and confirmed.
#[tactic(auto, using(crate::proofs::KindLemmas::by_kind))]
pub fn make_call<A: Access, K: Sink>(
    function: Function,
    text: &str,
    numbers: &[u64],
    alloc: Global,
    held: &mut Held,
    access: &mut A,
    sink: &mut K,
) -> Result<Value, End>
    requires ready { IsReadyToCall held.old.units (A.reported access.old) }
    ensures { RunsWriting (λ m. c.function_result m function text.now numbers.now)
        A.cost A.begun A.reported A.identity K.written K.faults held.old access.old sink.old held.new access.new sink.new result }
{
    make_call_of(
        call_kind_of(function),
        text,
        numbers,
        alloc,
        held,
        access,
        sink,
    )
}
