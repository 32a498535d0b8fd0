//! Calls that are commands of the probe.
ghost use Rattle.target_machine.specs.Sound.{IsSoundProbe};
ghost use Rattle.sequence_rules.specs.Calls as c;
ghost use Rattle.std.specs.Prelude.{false};
ghost use Rattle.sequence_meaning.specs.Frame.{RunsWithoutSink};
ghost use Rattle.sequence_meaning.specs.Parts.{zero_after};
ghost use Rattle.sequence_rules.specs.Direct.{direct};

use crate::asking::{command, debug_port};
use crate::end::{DirectEnd, Stopped};
use crate::held::DirectHeld;
use sequence_rules::{low_bits, pins_command};
use target_machine::{HaltCause, ProbeCall, Target};

// A command whose result is dropped.
#[tactic(auto, unfolding(crate::proofs::Opened::answers), using(crate::proofs::StopLemmas::ends_zero))]
fn command_without_result(
    call: ProbeCall,
    held: &mut DirectHeld,
    target: &mut Target,
) -> Result<u64, Stopped>
    requires { IsSoundProbe call }
    ensures { RunsWithoutSink (zero_after (c.command (direct false) call)) held.old target.old held.new target.new result }
{
    command(call, held, target)?;
    Ok(0)
}

// `DAP_WriteABORT`, on debug port 0 alone.
#[tactic(auto, unfolding(crate::proofs::Opened::aborts))]
pub(crate) fn abort(value: u64, held: &mut DirectHeld, target: &mut Target) -> Result<u64, Stopped>
    ensures { RunsWithoutSink (zero_after (c.abort (direct false) value)) held.old target.old held.new target.new result }
{
    if debug_port(held) == 0 {
        command_without_result(
            ProbeCall::Abort((value % 0x1_0000_0000) as u32),
            held,
            target,
        )
    } else {
        held.end = DirectEnd::Halted(HaltCause::Unsupported);
        Err(Stopped)
    }
}

// `DAP_Delay`, of at most 60,000,000 microseconds.
#[tactic(auto, unfolding(sequence_rules::specs::Calls::delay, sequence_rules::specs::Calls::zero_of))]
pub(crate) fn delay(micros: u64, held: &mut DirectHeld, target: &mut Target) -> Result<u64, Stopped>
    ensures { RunsWithoutSink (zero_after (c.delay (direct false) micros)) held.old target.old held.new target.new result }
{
    if micros > 60_000_000 {
        held.end = DirectEnd::Halted(HaltCause::ArgumentOutOfRange);
        return Err(Stopped);
    }
    command_without_result(ProbeCall::Delay(micros as u32), held, target)
}

// `DAP_SWJ_Clock`, of 1 to 2^32 - 1 hertz.
#[tactic(auto, unfolding(sequence_rules::specs::Calls::clock, sequence_rules::specs::Calls::zero_of))]
pub(crate) fn set_clock(
    hertz: u64,
    held: &mut DirectHeld,
    target: &mut Target,
) -> Result<u64, Stopped>
    ensures { RunsWithoutSink (zero_after (c.clock (direct false) hertz)) held.old target.old held.new target.new result }
{
    if hertz == 0 || hertz > 0xFFFF_FFFF {
        held.end = DirectEnd::Halted(HaltCause::ArgumentOutOfRange);
        return Err(Stopped);
    }
    command_without_result(ProbeCall::Clock(hertz as u32), held, target)
}

// `DAP_SWJ_Pins`, with a wait of 32 bits.
#[tactic(auto, unfolding(sequence_rules::specs::Calls::pins, sequence_rules::specs::Calls::or_halt))]
pub(crate) fn set_pins(
    output: u64,
    select: u64,
    wait: u64,
    held: &mut DirectHeld,
    target: &mut Target,
) -> Result<u64, Stopped>
    ensures { RunsWithoutSink (c.pins (direct false) output select wait) held.old target.old held.new target.new result }
{
    match pins_command(output, select, wait) {
        Ok(call) => command(call, held, target),
        Err(cause) => {
            held.end = DirectEnd::Halted(cause);
            Err(Stopped)
        }
    }
}

// `DAP_SWJ_Sequence`, of 1 to 64 bits.
#[tactic(auto, unfolding(sequence_rules::specs::Calls::line_bits, sequence_rules::specs::Calls::zero_of))]
pub(crate) fn send_bits(
    count: u64,
    bits: u64,
    held: &mut DirectHeld,
    target: &mut Target,
) -> Result<u64, Stopped>
    ensures { RunsWithoutSink (zero_after (c.line_bits (direct false) count bits)) held.old target.old held.new target.new result }
{
    if count == 0 || count > 64 {
        held.end = DirectEnd::Halted(HaltCause::ArgumentOutOfRange);
        return Err(Stopped);
    }
    let count = count as u8;
    command_without_result(
        ProbeCall::Line {
            count,
            bits: low_bits(count, bits),
        },
        held,
        target,
    )
}
