//! What calls of functions do, once their arguments are numbers.
ghost use Rattle.std.specs.Prelude.{◌≡◌, ℕ, List, None, false};
ghost use Rattle.sequence_rules.specs.Calls as c;
ghost use Rattle.sequence_rules.specs.Direct.{direct};
ghost use Rattle.run_events.specs.OfValues.{function_events, function_line};
ghost use Rattle.logged_calls.specs.Held.{CallComesTo, NotesEvents, NotesUnits, logged_state_of};

use crate::held::{Held, LoggedEnd, Stopped};
use crate::lines::{number_at, write_load, write_message, write_query, write_query_value};
use crate::memory::access_memory;
use crate::probe::{abort, delay, send_bits, set_clock, set_pins};
use crate::registers::{access_ap, access_dp};
use function_table::Function;
use std::alloc::Global;
use target_machine::{HaltCause, Target};

// A call of a function that writes no line.
#[tactic(auto, unfolding(crate::proofs::Opened::functions), using(crate::proofs::NotedLemmas::noted_none))]
fn call_unit(
    function: Function,
    numbers: &[u64],
    held: &mut Held,
    target: &mut Target,
) -> Result<u64, Stopped>
    ensures gives { (text : List ℕ) → function_line function text numbers.now ≡ None
        → CallComesTo held.old target.old held.new target.new result (c.function_result (direct false) function text numbers.now) }
    ensures noted { NotesUnits held.old target.old held.new target.new result }
{
    let first = number_at(numbers, 0);
    let second = number_at(numbers, 1);
    match function {
        Function::Read8 => access_memory(1, true, first, 0, held, target),
        Function::Write8 => access_memory(1, false, first, second, held, target),
        Function::Read16 => access_memory(2, true, first, 0, held, target),
        Function::Write16 => access_memory(2, false, first, second, held, target),
        Function::Read32 => access_memory(4, true, first, 0, held, target),
        Function::Write32 => access_memory(4, false, first, second, held, target),
        Function::Read64 => access_memory(8, true, first, 0, held, target),
        Function::Write64 => access_memory(8, false, first, second, held, target),
        Function::ReadAp => access_ap(true, first, 0, held, target),
        Function::WriteAp => access_ap(false, first, second, held, target),
        Function::ReadDp => access_dp(true, first, 0, held, target),
        Function::WriteDp => access_dp(false, first, second, held, target),
        Function::DapDelay => delay(first, held, target),
        Function::DapSwjClock => set_clock(first, held, target),
        Function::DapWriteAbort => abort(first, held, target),
        Function::DapSwjPins => set_pins(first, second, number_at(numbers, 2), held, target),
        Function::DapSwjSequence => send_bits(first, second, held, target),
        Function::DapJtagSequence => {
            held.end = LoggedEnd::Halted(HaltCause::Unsupported);
            Err(Stopped)
        }
        Function::Sequence => Ok(0),
        Function::Message => Ok(0),
        Function::Query => Ok(0),
        Function::QueryValue => Ok(0),
        Function::LoadDebugInfo => Ok(0),
    }
}

/// A call of a function other than `Sequence`, with its text and the numbers among its arguments: each unit is made alone and at once.
/// Its units and its line are noted in the log.
///
/// An `Err` has its cause in `held.end`. Nothing is said of a run where memory was refused.
#[tactic(auto, unfolding(sequence_rules::specs::Calls::function_result), using(crate::proofs::NotedLemmas::units_seen, crate::proofs::NotedLemmas::line_seen))]
pub fn make_call(
    alloc: Global,
    function: Function,
    text: &str,
    numbers: &[u64],
    held: &mut Held,
    target: &mut Target,
) -> Result<u64, Stopped>
    // The result, the variables, the counts, the calls and the target are those of the meaning; and why the call ends.
    ensures gives { CallComesTo held.old target.old held.new target.new result (c.function_result (direct false) function text.now numbers.now) }
    // What is seen of the call is noted.
    ensures noted { NotesEvents held.old held.new result (function_events function text.now numbers.now (logged_state_of held.old target.old)) }
{
    match function {
        Function::Message => write_message(text, numbers, alloc, held),
        Function::Query => write_query(text, numbers, alloc, held),
        Function::QueryValue => write_query_value(text, numbers, alloc, held),
        Function::LoadDebugInfo => write_load(text, alloc, held),
        _ => call_unit(function, numbers, held, target),
    }
}
