//! Units, made one at a time and noted, and the predefined variables that they use.
ghost use Rattle.std.specs.Prelude.{◌≡◌, ℕ, ◌<◌, ◌≤◌, ◌^◌, IfOk, OnOk, Ok, codes, unwrap_or, false, Some};
ghost use Rattle.sequence_trees.specs.declared.spot.Spot.{Spot};
ghost use Rattle.target_machine.specs.Plain.{Answered};
ghost use Rattle.target_machine.specs.Sound.{IsSound, IsSoundProbe};
ghost use Rattle.sequence_rules.specs.Calls as c;
ghost use Rattle.sequence_rules.specs.Direct.{Now, direct};
ghost use Rattle.sequence_rules.specs.Machine.{State};
ghost use Rattle.sequence_rules.specs.Shared.{bindings_of};
ghost use Rattle.run_events.specs.OfSteps.{poll_end};
ghost use Rattle.log_lines.specs.LogLines.{lines_after_events};
ghost use Rattle.sequence_rules.specs.Variables.{value_named};
ghost use Rattle.logged_calls.specs.Held.{CallComesTo, MakesUnits, NotesPoll, SeesPoll, poll_value, port_view};

use crate::held::{Held, LoggedEnd, Stopped};
use dap_base::OutOfMemory;
use direct_calls::{Made, call_at_once, command_at_once};
use log_lines::EventLog;
use sequence_rules::{MOST_UNITS, Port};
use target_calls::Ask;
use target_machine::{Call, HaltCause, ProbeCall, Target, Unit};

// The value of a predefined variable, 0 where there is none.
fn value_of(held: &Held, name: &str) -> u64
    ensures { result ≡ unwrap_or (value_named (bindings_of held.now.globals) name.now) 0 }
{
    match held.globals.get(name) {
        Some(value) => value,
        None => 0,
    }
}

// The variables that a memory or AP call uses.
pub(crate) fn port_of(held: &Held) -> Port
    ensures { (s : State ℕ Now) → s.globals ≡ bindings_of held.now.globals
        → c.port (direct false) s ≡ Ok (port_view result, s) }
{
    let ap = value_of(held, "__ap");
    let control = value_of(held, "__errorcontrol");
    let dp = value_of(held, "__dp");
    Port {
        ap,
        forgive: control % 2 == 1,
        dp,
    }
}

// `__dp`.
pub(crate) fn debug_port(held: &Held) -> u64
    ensures { (s : State ℕ Now) → s.globals ≡ bindings_of held.now.globals → c.global (direct false) (codes "__dp") s ≡ Ok (result, s) }
{
    value_of(held, "__dp")
}

// An access as a unit, made at once and noted, unless it would be number 1,000,001.
#[tactic(auto, unfolding(crate::proofs::Opened::units), using(crate::proofs::PollLemmas::units))]
pub(crate) fn ask(
    unit: Unit,
    forgive: bool,
    held: &mut Held,
    target: &mut Target,
) -> Result<u64, Stopped>
    requires { IsSound unit }
    ensures makes { MakesUnits held.old target.old held.new target.new result (c.ask (direct false) unit forgive) }
    ensures polled { forgive ≡ false → SeesPoll held.old target.old held.new target.new result }
    ensures word { IfOk result (λ value. value < 2 ^ 32) }
{
    if held.units >= MOST_UNITS {
        held.end = LoggedEnd::Halted(HaltCause::AccessLimit);
        return Err(Stopped);
    }
    let asked = Ask {
        call: Call::Access(unit),
        forgive,
        settled: false,
    };
    let Ok(()) = held.calls.push_access(unit, forgive) else {
        held.end = LoggedEnd::OutOfMemory;
        return Err(Stopped);
    };
    let Ok(made) = call_at_once(target, Call::Access(unit), forgive, &mut held.large) else {
        held.end = LoggedEnd::OutOfMemory;
        return Err(Stopped);
    };
    held.units += 1;
    let number = held.calls.len() as u64;
    let Ok(()) = held.log.make(number, &asked, Some(made)) else {
        held.end = LoggedEnd::OutOfMemory;
        return Err(Stopped);
    };
    match made {
        Made::Answered(value) => Ok(u64::from(value)),
        Made::Skipped => {
            held.skipped = held.skipped.saturating_add(1);
            Ok(0)
        }
        Made::Faulted => {
            held.end = LoggedEnd::Faulted(unit);
            Err(Stopped)
        }
        Made::Small => {
            held.end = LoggedEnd::Halted(HaltCause::AddressTooLarge);
            Err(Stopped)
        }
    }
}

// A read has its value, and a write 0.
#[tactic(auto, unfolding(crate::proofs::Opened::answers), using(crate::proofs::EndLemmas::ends_if_read))]
pub(crate) fn ask_for_result(
    read: bool,
    unit: Unit,
    forgive: bool,
    held: &mut Held,
    target: &mut Target,
) -> Result<u64, Stopped>
    requires { IsSound unit }
    ensures { MakesUnits held.old target.old held.new target.new result (λ s. c.if_read (direct false) read (c.ask (direct false) unit forgive s)) }
{
    let value = ask(unit, forgive, held, target)?;
    Ok(if read { value } else { 0 })
}

// How a poll ended, by what its unit answered.
fn note_end(value: u64, turns: u32, log: &mut EventLog) -> Result<(), OutOfMemory>
    ensures { (spot : Spot) → OnOk result (log.new ≡ lines_after_events log.old (poll_end spot turns (Some (Answered value)))) }
{
    if value == 0 {
        log.time_out(turns)
    } else {
        log.end_poll()
    }
}

/// A poll of CTRL/STAT until `(read & mask) == requested`, at most `turns` reads, made as one unit: 1 where the value was found, 0
/// where the turns are used. It halts where `__dp` is not 0. The unit is noted, and how the poll ended.
#[tactic(auto, using(crate::proofs::PollLemmas::polls))]
pub fn ask_poll(
    mask: u32,
    requested: u32,
    turns: u32,
    held: &mut Held,
    target: &mut Target,
) -> Result<u64, Stopped>
    requires least { 1 ≤ turns }
    requires most { turns ≤ 60000000 }
    ensures gives { CallComesTo held.old target.old held.new target.new result (poll_value (mask, requested) turns) }
    ensures noted { (spot : Spot) → NotesPoll held.old target.old held.new target.new result spot turns }
    ensures polled { SeesPoll held.old target.old held.new target.new result }
{
    if debug_port(held) != 0 {
        held.end = LoggedEnd::Halted(HaltCause::Unsupported);
        return Err(Stopped);
    }
    let unit = Unit::Poll {
        mask,
        value: requested,
        turns,
    };
    let value = ask(unit, false, held, target)?;
    let Ok(()) = note_end(value, turns, &mut held.log) else {
        held.end = LoggedEnd::OutOfMemory;
        return Err(Stopped);
    };
    Ok(value)
}

// A command of the probe as a unit, made at once and noted, unless it would be number 1,000,001.
#[tactic(auto, unfolding(crate::proofs::Opened::commands), using(crate::proofs::NotedLemmas::noted_none))]
pub(crate) fn command(call: ProbeCall, held: &mut Held, target: &mut Target) -> Result<u64, Stopped>
    requires { IsSoundProbe call }
    ensures { MakesUnits held.old target.old held.new target.new result (c.command (direct false) call) }
{
    if held.units >= MOST_UNITS {
        held.end = LoggedEnd::Halted(HaltCause::AccessLimit);
        return Err(Stopped);
    }
    let asked = Ask {
        call: Call::Probe(call),
        forgive: false,
        settled: false,
    };
    let Ok(()) = held.calls.push(asked) else {
        held.end = LoggedEnd::OutOfMemory;
        return Err(Stopped);
    };
    held.units += 1;
    let number = held.calls.len() as u64;
    let value = command_at_once(target, call);
    let Ok(()) = held.log.make(number, &asked, Some(Made::Answered(value))) else {
        held.end = LoggedEnd::OutOfMemory;
        return Err(Stopped);
    };
    Ok(u64::from(value))
}
