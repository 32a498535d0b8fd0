//! Calls that are commands of the probe.
ghost use Rattle.std.specs.Prelude.{false};
ghost use Rattle.target_machine.specs.Sound.{IsSoundProbe};
ghost use Rattle.sequence_rules.specs.Calls as c;
ghost use Rattle.sequence_rules.specs.Direct.{direct};
ghost use Rattle.logged_calls.specs.Held.{MakesUnits};

use crate::asking::{command, debug_port};
use crate::held::{Held, LoggedEnd, Stopped};
use sequence_rules::{low_bits, pins_command};
use target_machine::{HaltCause, ProbeCall, Target};

// A command whose result is dropped.
#[tactic(auto, unfolding(crate::proofs::Opened::answers), using(crate::proofs::EndLemmas::ends_zero))]
fn command_without_result(
    call: ProbeCall,
    held: &mut Held,
    target: &mut Target,
) -> Result<u64, Stopped>
    requires { IsSoundProbe call }
    ensures { MakesUnits held.old target.old held.new target.new result (λ s. c.zero_of (direct false) (c.command (direct false) call s)) }
{
    command(call, held, target)?;
    Ok(0)
}

// `DAP_WriteABORT`, on debug port 0 alone.
#[tactic(auto, unfolding(crate::proofs::Opened::aborts), using(crate::proofs::NotedLemmas::noted_none))]
pub(crate) fn abort(value: u64, held: &mut Held, target: &mut Target) -> Result<u64, Stopped>
    ensures { MakesUnits held.old target.old held.new target.new result (λ s. c.zero_of (direct false) (c.abort (direct false) value s)) }
{
    if debug_port(held) == 0 {
        command_without_result(
            ProbeCall::Abort((value % 0x1_0000_0000) as u32),
            held,
            target,
        )
    } else {
        held.end = LoggedEnd::Halted(HaltCause::Unsupported);
        Err(Stopped)
    }
}

// `DAP_Delay`, of at most 60,000,000 microseconds.
#[tactic(auto, unfolding(sequence_rules::specs::Calls::delay, sequence_rules::specs::Calls::zero_of), using(crate::proofs::NotedLemmas::noted_none))]
pub(crate) fn delay(micros: u64, held: &mut Held, target: &mut Target) -> Result<u64, Stopped>
    ensures { MakesUnits held.old target.old held.new target.new result (λ s. c.zero_of (direct false) (c.delay (direct false) micros s)) }
{
    if micros > 60_000_000 {
        held.end = LoggedEnd::Halted(HaltCause::ArgumentOutOfRange);
        return Err(Stopped);
    }
    command_without_result(ProbeCall::Delay(micros as u32), held, target)
}

// `DAP_SWJ_Clock`, of 1 to 2^32 - 1 hertz.
#[tactic(auto, unfolding(sequence_rules::specs::Calls::clock, sequence_rules::specs::Calls::zero_of), using(crate::proofs::NotedLemmas::noted_none))]
pub(crate) fn set_clock(hertz: u64, held: &mut Held, target: &mut Target) -> Result<u64, Stopped>
    ensures { MakesUnits held.old target.old held.new target.new result (λ s. c.zero_of (direct false) (c.clock (direct false) hertz s)) }
{
    if hertz == 0 || hertz > 0xFFFF_FFFF {
        held.end = LoggedEnd::Halted(HaltCause::ArgumentOutOfRange);
        return Err(Stopped);
    }
    command_without_result(ProbeCall::Clock(hertz as u32), held, target)
}

// `DAP_SWJ_Pins`, with a wait of 32 bits.
#[tactic(auto, unfolding(sequence_rules::specs::Calls::pins, sequence_rules::specs::Calls::or_halt), using(crate::proofs::NotedLemmas::noted_none))]
pub(crate) fn set_pins(
    output: u64,
    select: u64,
    wait: u64,
    held: &mut Held,
    target: &mut Target,
) -> Result<u64, Stopped>
    ensures { MakesUnits held.old target.old held.new target.new result (c.pins (direct false) output select wait) }
{
    match pins_command(output, select, wait) {
        Ok(call) => command(call, held, target),
        Err(cause) => {
            held.end = LoggedEnd::Halted(cause);
            Err(Stopped)
        }
    }
}

// `DAP_SWJ_Sequence`, of 1 to 64 bits.
#[tactic(auto, unfolding(sequence_rules::specs::Calls::line_bits, sequence_rules::specs::Calls::zero_of), using(crate::proofs::NotedLemmas::noted_none))]
pub(crate) fn send_bits(
    count: u64,
    bits: u64,
    held: &mut Held,
    target: &mut Target,
) -> Result<u64, Stopped>
    ensures { MakesUnits held.old target.old held.new target.new result (λ s. c.zero_of (direct false) (c.line_bits (direct false) count bits s)) }
{
    if count == 0 || count > 64 {
        held.end = LoggedEnd::Halted(HaltCause::ArgumentOutOfRange);
        return Err(Stopped);
    }
    let count = count as u8;
    command_without_result(
        ProbeCall::Line {
            count,
            bits: low_bits(count, bits),
        },
        held,
        target,
    )
}
