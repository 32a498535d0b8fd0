//! Which sequences are called, or started by a debugger itself.
ghost use Rattle.std.specs.Prelude.{◌≡◌, IfOk, false, map, replicate};
ghost use Rattle.std.specs.List.{list_any};
ghost use Rattle.std.specs.Str.{bytes_eq};
ghost use Rattle.set_warnings.specs.Sequences.{is_predefined, all_marked, AreCalledFlags};

use dap_base::{ItemList, OutOfMemory};
use seq_check::StepCall;
use seq_check::set_calls::StepCalls;
use std::alloc::Global;

// The names of the sequences that a debugger starts by itself.
const PREDEFINED_SEQUENCES: [&str; 19] = [
    "DebugPortSetup",
    "DebugPortStart",
    "DebugPortStop",
    "DebugDeviceUnlock",
    "DebugCoreStart",
    "DebugCoreStop",
    "DebugCodeMemRemap",
    "ResetSystem",
    "ResetProcessor",
    "ResetHardware",
    "ResetHardwareAssert",
    "ResetHardwareDeassert",
    "ResetCatchSet",
    "ResetCatchClear",
    "TraceStart",
    "TraceStop",
    "RecoverySupportStart",
    "RecoveryAcknowledge",
    "RecoverySupportStop",
];

fn is_among(names: &[&str], name: &str) -> bool
    ensures { result ≡ list_any (bytes_eq name.now) (map (λ n. n.now) names.now) }
{
    for known in names {
        if name == *known {
            return true;
        }
    }
    false
}

/// Whether a debugger starts a sequence of this name by itself.
pub fn is_predefined(name: &str) -> bool
    ensures { result ≡ is_predefined name.now }
{
    is_among(&PREDEFINED_SEQUENCES, name)
}

// Marks the sequences that these calls call.
fn mark(calls: &[StepCall], flags: &mut Vec<bool>)
    ensures { flags.new.items ≡ all_marked flags.old.items calls.now }
{
    for call in calls {
        if call.callee < flags.len() {
            flags[call.callee] = true;
        }
    }
}

// For each of so many sequences no mark.
fn no_marks(alloc: Global, count: usize) -> Result<Vec<bool>, OutOfMemory>
    ensures { IfOk result (λ flags. flags.items ≡ replicate count false) }
{
    vec![in alloc; false; count].map_err(|_| OutOfMemory)
}

/// For each of so many sequences whether one of these calls is of it.
pub fn called_flags(
    alloc: Global,
    calls: &[StepCalls],
    count: usize,
) -> Result<Vec<bool>, OutOfMemory>
    ensures { IfOk result (λ flags. AreCalledFlags calls.now count flags.items) }
{
    let mut flags = no_marks(alloc, count)?;
    for list in calls {
        mark(list.as_slice(), &mut flags);
    }
    Ok(flags)
}
