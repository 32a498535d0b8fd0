//! A call, alone and at once.
ghost use Rattle.std.specs.Prelude.{◌≡◌, ℕ, ◌&&◌, List, OnErr, true, false};
ghost use Rattle.target_calls.specs.World.{is_faulted};
ghost use Rattle.target_machine.specs.Plain.{Answered, call_done, may_forgive};
ghost use Rattle.target_machine.specs.Sound.{IsSound, IsSoundCall, IsSoundProbe};
ghost use Rattle.target_machine.specs.declared.unit.Call.TheVariants as calls;
ghost use Rattle.direct_calls.specs.Made.{IsDone, IsRefused, MadeAs, call_end_of, takes_memory};

use crate::made::{Made, met_fault};
use crate::plain::make_plain;
use dap_base::OutOfMemory;
use target_calls::accesses::access_dp;
use target_machine::registers::{ABORT, CLEAR_ALL};
use target_machine::{Call, ProbeCall, Target, Unit, attempt};

// Error control counts for the access: one of memory or of an AP register.
fn is_controlled(unit: Unit) -> bool
    ensures { result ≡ may_forgive (calls.Access unit) }
{
    match unit {
        Unit::Memory { .. } | Unit::Ap { .. } => true,
        Unit::Dp { .. } | Unit::Poll { .. } => false,
    }
}

// The access met a fault that it forgives.
fn is_skipped(made: Made, forgive: bool, unit: Unit) -> bool
    ensures { result ≡ (is_faulted (call_end_of made) && (forgive && may_forgive (calls.Access unit))) }
{
    met_fault(made) && (forgive && is_controlled(unit))
}

// An access. After a fault that it forgives, ABORT is written. This function is inlined, as all are from `call_at_once` to a memory
// access, so that no access is put together in memory and taken apart again.
#[inline(always)]
fn access_at_once(
    target: &mut Target,
    unit: Unit,
    forgive: bool,
    large: &mut Vec<u8>,
) -> Result<Made, OutOfMemory>
    requires { IsSound unit }
    ensures made { MadeAs (call_done target.old large.old.items forgive (calls.Access unit)) result target.new large.new.items }
    ensures refused { OnErr result (IsRefused (takes_memory large.old.items (calls.Access unit)) target.old target.new large.old.items large.new.items) }
{
    let made = make_plain(target, unit, large)?;
    if is_skipped(made, forgive, unit) {
        attempt(target, access_dp(false, ABORT, CLEAR_ALL));
        return Ok(Made::Skipped);
    }
    Ok(made)
}

/// Makes a command of the probe, alone and at once, and answers its result, 0 where it has none. No command meets a fault.
pub fn command_at_once(target: &mut Target, call: ProbeCall) -> u32
    requires { IsSoundProbe call }
    // It ends with this result, and leaves the target so.
    ensures answer { (large : List ℕ) → IsDone (call_done target.old large false (calls.Probe call)) (Answered result) target.new large }
{
    target.command(call)
}

/// Makes a call, alone and at once, and answers how it ends. `large` lists the access ports that are known to have large
/// addresses; one joins it where its CFG is read and shows them. Where `forgive` is set, a fault of a memory or AP access is
/// forgiven.
///
/// `OutOfMemory` comes only at a memory access over 0xFFFFFFFF through a port that is not in the list; then nothing was made.
#[inline(always)]
pub fn call_at_once(
    target: &mut Target,
    call: Call,
    forgive: bool,
    large: &mut Vec<u8>,
) -> Result<Made, OutOfMemory>
    requires { IsSoundCall call }
    // The end, the target and the list are those of the call.
    ensures answer { MadeAs (call_done target.old large.old.items forgive call) result target.new large.new.items }
    // Memory is refused only where CFG has to be read, and then nothing was made.
    ensures refused { OnErr result (IsRefused (takes_memory large.old.items call) target.old target.new large.old.items large.new.items) }
{
    match call {
        Call::Access(unit) => access_at_once(target, unit, forgive, large),
        Call::Probe(command) => Ok(Made::Answered(command_at_once(target, command))),
    }
}
