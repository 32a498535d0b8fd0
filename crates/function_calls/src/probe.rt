//! Calls that are commands of the probe.
ghost use Rattle.sequence_rules.specs.Calls as c;
ghost use Rattle.function_calls.specs.Frame.{IsReadyToCall, RunsCall};

use crate::asking::{command, command_without_result};
use crate::end::End;
use crate::held::Held;
use crate::ports::use_debug_port;
use access_calls::Access;
use sequence_rules::{low_bits, pins_command};
use target_calls::Value;
use target_machine::{HaltCause, ProbeCall};

// `DAP_WriteABORT`, on debug port 0 alone.
#[tactic(auto, unfolding(sequence_rules::specs::Calls::abort_at, sequence_rules::specs::Calls::zero_of))]
fn abort_at<A: Access>(value: u64, dp: u64, held: &mut Held, access: &mut A) -> Result<Value, End>
    requires ready { IsReadyToCall held.old.units (A.reported access.old) }
    ensures { RunsCall (λ m s. c.zero_of m (c.abort_at m value dp s)) A.cost A.begun A.reported A.identity held.old access.old held.new access.new result }
{
    if dp != 0 {
        return Err(End::Halted(HaltCause::Unsupported));
    }
    let call = ProbeCall::Abort((value % 0x1_0000_0000) as u32);
    command_without_result(call, held, access)
}

// `DAP_WriteABORT`.
#[tactic(auto, unfolding(sequence_rules::specs::Calls::abort, sequence_rules::specs::Calls::zero_of), using(crate::proofs::Leaves::goes_on))]
pub(crate) fn abort<A: Access>(value: u64, held: &mut Held, access: &mut A) -> Result<Value, End>
    requires ready { IsReadyToCall held.old.units (A.reported access.old) }
    ensures { RunsCall (λ m s. c.zero_of m (c.abort m value s)) A.cost A.begun A.reported A.identity held.old access.old held.new access.new result }
{
    let dp = use_debug_port(held, access)?;
    abort_at(value, dp, held, access)
}

// `DAP_Delay`, of at most 60,000,000 microseconds.
#[tactic(auto, unfolding(sequence_rules::specs::Calls::delay, sequence_rules::specs::Calls::zero_of))]
pub(crate) fn delay<A: Access>(micros: u64, held: &mut Held, access: &mut A) -> Result<Value, End>
    requires ready { IsReadyToCall held.old.units (A.reported access.old) }
    ensures { RunsCall (λ m s. c.zero_of m (c.delay m micros s)) A.cost A.begun A.reported A.identity held.old access.old held.new access.new result }
{
    if micros > 60_000_000 {
        return Err(End::Halted(HaltCause::ArgumentOutOfRange));
    }
    command_without_result(ProbeCall::Delay(micros as u32), held, access)
}

// `DAP_SWJ_Clock`, of 1 to 2^32 - 1 hertz.
#[tactic(auto, unfolding(sequence_rules::specs::Calls::clock, sequence_rules::specs::Calls::zero_of))]
pub(crate) fn set_clock<A: Access>(
    hertz: u64,
    held: &mut Held,
    access: &mut A,
) -> Result<Value, End>
    requires ready { IsReadyToCall held.old.units (A.reported access.old) }
    ensures { RunsCall (λ m s. c.zero_of m (c.clock m hertz s)) A.cost A.begun A.reported A.identity held.old access.old held.new access.new result }
{
    if hertz == 0 || hertz > 0xFFFF_FFFF {
        return Err(End::Halted(HaltCause::ArgumentOutOfRange));
    }
    command_without_result(ProbeCall::Clock(hertz as u32), held, access)
}

// `DAP_SWJ_Pins`, with a wait of 32 bits.
#[tactic(auto, unfolding(sequence_rules::specs::Calls::pins, sequence_rules::specs::Calls::or_halt))]
pub(crate) fn set_pins<A: Access>(
    output: u64,
    select: u64,
    wait: u64,
    held: &mut Held,
    access: &mut A,
) -> Result<Value, End>
    requires ready { IsReadyToCall held.old.units (A.reported access.old) }
    ensures { RunsCall (λ m. c.pins m output select wait) A.cost A.begun A.reported A.identity held.old access.old held.new access.new result }
{
    match pins_command(output, select, wait) {
        Ok(call) => command(call, held, access),
        Err(cause) => Err(End::Halted(cause)),
    }
}

// `DAP_SWJ_Sequence`, of 1 to 64 bits.
#[tactic(auto, unfolding(sequence_rules::specs::Calls::line_bits, sequence_rules::specs::Calls::zero_of))]
pub(crate) fn send_bits<A: Access>(
    count: u64,
    bits: u64,
    held: &mut Held,
    access: &mut A,
) -> Result<Value, End>
    requires ready { IsReadyToCall held.old.units (A.reported access.old) }
    ensures { RunsCall (λ m s. c.zero_of m (c.line_bits m count bits s)) A.cost A.begun A.reported A.identity held.old access.old held.new access.new result }
{
    if count == 0 || count > 64 {
        return Err(End::Halted(HaltCause::ArgumentOutOfRange));
    }
    let count = count as u8;
    let bits = low_bits(count, bits);
    command_without_result(ProbeCall::Line { count, bits }, held, access)
}
