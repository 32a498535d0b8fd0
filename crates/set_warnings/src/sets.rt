//! The warnings of a set.
ghost use Rattle.std.specs.Prelude.{◌≡◌, true, false, IfOk, map};
ghost use Rattle.std.specs.List.{IsDistinct};
ghost use Rattle.std.specs.Str.{bytes_eq};
ghost use Rattle.seq_check.specs.Valid.{IsValid};
ghost use Rattle.set_warnings.specs.Answers.{AreSetWarnings, HasSetFault};

use crate::sequences::sequences_warnings;
use crate::warning::Warning;
use dap_base::{ItemList, OutOfMemory};
use seq_check::{CheckFault, check};
use sequence_resolve::SeqSet;
use sequence_trees::{SetFault, read_set};
use std::alloc::Global;

fn is_valid(alloc: Global, set: &SeqSet) -> Result<bool, OutOfMemory>
    requires { IsDistinct bytes_eq (map (λ e. e.name) set.now.entries) }
    ensures valid { IfOk result (λ valid. valid ≡ true → IsValid set.now) }
    ensures faulty { IfOk result (λ valid. valid ≡ false → HasSetFault set.now) }
{
    match check(alloc, set) {
        Ok(_) => Ok(true),
        Err(CheckFault::Fault(_, _)) => Ok(false),
        Err(CheckFault::OutOfMemory) => Err(OutOfMemory),
    }
}

/// The warnings of a valid set, by sequence in the set's order. Those of a sequence itself come first, and then those of its steps, a
/// control before the steps inside and its `if` before its `while`. Those in a text come in the order of the text. None where the set has a
/// fault.
///
/// `UncalledSequence` is a sequence that is not disabled, that no sequence of the set calls, and whose name is none of those that a
/// debugger starts by itself. `AssignedDebugVariable` is each assignment to a debug variable in a block or a condition. `WaitByName` is a
/// `while` without steps of the form `(ReadDP(ADDRESS) & MASK) != VALUE`, apart from groups of parentheses. Each of the three is what it is
/// in a poll or a name, and at least one is a name. `LongWait` is a `while` whose timeout stands for more than 1,000,000 turns of 10
/// microseconds.
///
/// The names of the set must be distinct, as those that `effective` answers are. `OutOfMemory` where memory is refused.
pub fn set_warnings(alloc: Global, set: &SeqSet) -> Result<ItemList<Warning>, OutOfMemory>
    requires { IsDistinct bytes_eq (map (λ e. e.name) set.now.entries) }
    // The list is that of the warnings of the set.
    ensures answer { IfOk result (AreSetWarnings set.now) }
    // A list that is that is answered.
    ensures only { (other : _) → AreSetWarnings set.now other → IfOk result (λ answer. answer ≡ other) }
{
    if !is_valid(alloc, set)? {
        return Ok(ItemList::new(alloc));
    }
    match read_set(alloc, set) {
        Ok(read) => sequences_warnings(alloc, set.entries.as_slice(), &read),
        Err(SetFault::Syntax(_)) => Ok(ItemList::new(alloc)),
        Err(SetFault::OutOfMemory) => Err(OutOfMemory),
    }
}
