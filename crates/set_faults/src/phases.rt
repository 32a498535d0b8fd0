//! All faults of a whole set, by phases.
ghost use Rattle.std.specs.Prelude.{◌≡◌, IfOk, map};
ghost use Rattle.std.specs.List.{IsDistinct};
ghost use Rattle.std.specs.Str.{bytes_eq};
ghost use Rattle.sequence_trees.specs.SetView.{set_trees};
ghost use Rattle.seq_check.specs.SetFaults.{names_of};
ghost use Rattle.set_faults.specs.Answers.{AreSetFaults, AreReadSetFaults};

use crate::call_faults::call_faults;
use crate::phase::{Phase, SetFaults};
use crate::sets::rule_faults;
use crate::texts::syntax_faults;
use dap_base::OutOfMemory;
use seq_check::sequences::sequence_names;
use sequence_resolve::SeqSet;
use sequence_trees::{ReadSet, SetFault, read_set};
use std::alloc::Global;

// The faults of a set that was read.
fn read_faults(alloc: Global, set: &ReadSet) -> Result<SetFaults, OutOfMemory>
    requires { IsDistinct bytes_eq (names_of (set_trees set.now)) }
    ensures { IfOk result (AreReadSetFaults (set_trees set.now)) }
{
    let sequences = sequence_names(alloc, set)?;
    let faults = rule_faults(alloc, set, &sequences)?;
    if faults.is_empty() {
        return call_faults(alloc, set, &sequences);
    }
    Ok(SetFaults {
        phase: Phase::Rules,
        faults,
    })
}

fn faults_of(alloc: Global, set: &SeqSet) -> Result<SetFaults, OutOfMemory>
    requires { IsDistinct bytes_eq (map (λ e. e.name) set.now.entries) }
    ensures { IfOk result (AreSetFaults set.now) }
{
    match read_set(alloc, set) {
        Ok(read) => read_faults(alloc, &read),
        Err(SetFault::Syntax(_)) => Ok(SetFaults {
            phase: Phase::Syntax,
            faults: syntax_faults(alloc, set)?,
        }),
        Err(SetFault::OutOfMemory) => Err(OutOfMemory),
    }
}

/// All faults of a set that the first phase of its check with a fault has. The phases, of which a later one counts where those before have
/// none, are:
/// - of texts that can not be read, the first fault of each;
/// - names, arguments and steps;
/// - calls that lead back to the sequence that they stand in;
/// - calls that begin a chain of 33 sequences.
///
/// None exactly where the set is valid.
///
/// The names of the set must be distinct, as those that `effective` answers are. The order is that of
/// `seq_check::check`, whose first fault is the first here. A disabled sequence has no faults and no calls.
/// `OutOfMemory` where memory is refused.
pub fn all_faults(alloc: Global, set: &SeqSet) -> Result<SetFaults, OutOfMemory>
    requires { IsDistinct bytes_eq (map (λ e. e.name) set.now.entries) }
    ensures answer { IfOk result (AreSetFaults set.now) }
    ensures only { (other : SetFaults) → AreSetFaults set.now other → IfOk result (λ answer. answer ≡ other) }
{
    faults_of(alloc, set)
}
