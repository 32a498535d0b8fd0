//! Units, asked one at a time, and the predefined variables that they use.
ghost use Rattle.target_machine.specs.Sound.{IsSound, IsSoundProbe};
ghost use Rattle.sequence_rules.specs.Calls as c;
ghost use Rattle.sequence_rules.specs.Direct.{Now, direct};
ghost use Rattle.sequence_rules.specs.Machine.{State};
ghost use Rattle.sequence_rules.specs.Shared.{bindings_of};
ghost use Rattle.std.specs.Prelude.{◌≡◌, ℕ, ◌<◌, ◌^◌, IfOk, Ok, codes, false};
ghost use Rattle.sequence_meaning.specs.Frame.{RunsWithoutSink};

use crate::end::{DirectEnd, Stopped};
use crate::held::DirectHeld;
use direct_calls::{Made, call_at_once, command_at_once};
use sequence_rules::{MOST_UNITS, Port};
use target_calls::Ask;
use target_machine::{Call, HaltCause, ProbeCall, Target, Unit};

// The variables that a memory or AP call uses.
pub(crate) fn port_of(held: &DirectHeld) -> Port
    ensures { (s : State ℕ Now) → s.globals ≡ bindings_of held.now.globals.variables
        → c.port (direct false) s ≡ Ok (record { ap = result.ap; forgive = result.forgive; dp = result.dp }, s) }
{
    Port {
        ap: held.globals.ap(),
        forgive: held.globals.control() % 2 == 1,
        dp: held.globals.dp(),
    }
}

// `__dp`.
pub(crate) fn debug_port(held: &DirectHeld) -> u64
    ensures { (s : State ℕ Now) → s.globals ≡ bindings_of held.now.globals.variables
        → c.global (direct false) (codes "__dp") s ≡ Ok (result, s) }
{
    held.globals.dp()
}

// An access as a unit, made at once, unless it would be number 1,000,001. It is inlined, so that no access is put together in memory
// and taken apart again.
#[inline(always)]
#[tactic(auto, unfolding(crate::proofs::Opened::units))]
pub(crate) fn ask(
    unit: Unit,
    forgive: bool,
    held: &mut DirectHeld,
    target: &mut Target,
) -> Result<u64, Stopped>
    requires { IsSound unit }
    ensures runs { RunsWithoutSink (c.ask (direct false) unit forgive) held.old target.old held.new target.new result }
    ensures word { IfOk result (λ value. value < 2 ^ 32) }
{
    if held.units >= MOST_UNITS {
        held.end = DirectEnd::Halted(HaltCause::AccessLimit);
        return Err(Stopped);
    }
    // The call is listed first, so that it was not made where memory is refused.
    let before = held.calls.len();
    let Ok(()) = held.calls.push_access(unit, forgive) else {
        held.end = DirectEnd::OutOfMemory;
        return Err(Stopped);
    };
    let Ok(made) = call_at_once(target, Call::Access(unit), forgive, &mut held.large) else {
        held.calls.truncate(before);
        held.end = DirectEnd::OutOfMemory;
        return Err(Stopped);
    };
    held.units += 1;
    match made {
        Made::Answered(value) => Ok(u64::from(value)),
        Made::Skipped => {
            held.skipped = held.skipped.saturating_add(1);
            Ok(0)
        }
        Made::Faulted => {
            held.end = DirectEnd::Faulted(unit);
            Err(Stopped)
        }
        Made::Small => {
            held.end = DirectEnd::Halted(HaltCause::AddressTooLarge);
            Err(Stopped)
        }
    }
}

// A read has its value, and a write 0.
#[inline(always)]
#[tactic(auto, unfolding(crate::proofs::Opened::answers), using(crate::proofs::StopLemmas::ends_if_read))]
pub(crate) fn ask_for_result(
    read: bool,
    unit: Unit,
    forgive: bool,
    held: &mut DirectHeld,
    target: &mut Target,
) -> Result<u64, Stopped>
    requires { IsSound unit }
    ensures { RunsWithoutSink (λ s. c.if_read (direct false) read (c.ask (direct false) unit forgive s))
        held.old target.old held.new target.new result }
{
    let value = ask(unit, forgive, held, target)?;
    Ok(if read { value } else { 0 })
}

// A command of the probe as a unit, made at once, unless it would be number 1,000,001.
#[tactic(auto, unfolding(crate::proofs::Opened::commands))]
pub(crate) fn command(
    call: ProbeCall,
    held: &mut DirectHeld,
    target: &mut Target,
) -> Result<u64, Stopped>
    requires { IsSoundProbe call }
    ensures { RunsWithoutSink (c.command (direct false) call) held.old target.old held.new target.new result }
{
    if held.units >= MOST_UNITS {
        held.end = DirectEnd::Halted(HaltCause::AccessLimit);
        return Err(Stopped);
    }
    let asked = Ask {
        call: Call::Probe(call),
        forgive: false,
        settled: false,
    };
    let Ok(()) = held.calls.push(asked) else {
        held.end = DirectEnd::OutOfMemory;
        return Err(Stopped);
    };
    held.units += 1;
    Ok(u64::from(command_at_once(target, call)))
}
