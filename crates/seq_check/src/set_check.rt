//! The check of a whole set.
ghost use Rattle.std.specs.Prelude.{◌≡◌, ℕ, IfOk, map, MatchOption};
ghost use Rattle.std.specs.List.{IsDistinct};
ghost use Rattle.std.specs.Str.{bytes_eq};
ghost use Rattle.sequence_trees.specs.declared.spot.Spot.{Spot};
ghost use Rattle.sequence_trees.specs.Trees.{SetTrees};
ghost use Rattle.sequence_trees.specs.Reading.{ReadsSet};
ghost use Rattle.sequence_trees.specs.SetView.{set_trees};
ghost use Rattle.code_check.specs.declared.fault.FaultKind.{FaultKind};
ghost use Rattle.seq_check.specs.SetFaults.{names_of};
ghost use Rattle.seq_check.specs.Views.{held_view};
ghost use Rattle.seq_check.specs.Valid.{CallsAreSound, IsFirstCallFault, holder_name, spot_of, IsSound, IsFirstOf, IsFirstFaultOf};
ghost use Rattle.seq_check.specs.Answers.{AnswersCheck, GivesTrees, ReportsFault};

use crate::checked::{CheckFault, Checked};
use crate::faulty::{HeldFault, Holder};
use crate::sequences::sequence_names;
use crate::set_calls::{call_spot, graph_of, set_calls};
use crate::sets::set_fault;
use call_graph::{first_cycle, first_deep};
use code_check::{FaultKind, Names};
use dap_base::{NameText, OutOfMemory};
use sequence_resolve::SeqSet;
use sequence_trees::{ReadSet, SetFault, Spot, read_set};
use std::alloc::Global;

/// What is wrong, and where.
#[derive(Debug, Drop)]
pub struct FirstFault {
    pub kind: FaultKind,
    pub spot: Spot,
}

fn first_fault(kind: FaultKind, spot: Spot) -> FirstFault
    ensures kind { result.kind ≡ kind }
    ensures spot { result.spot ≡ spot }
{
    FirstFault { kind, spot }
}

fn holder_name(
    alloc: Global,
    set: &ReadSet,
    holder: Holder,
) -> Result<Option<NameText>, OutOfMemory>
    ensures { IfOk result (λ name. name ≡ holder_name (set_trees set.now) holder) }
{
    let Holder::Sequence(index) = holder else {
        return Ok(None);
    };
    match set.name_at(index) {
        Some(name) => Ok(Some(NameText::new(alloc, name)?)),
        None => Ok(None),
    }
}

fn named_fault(alloc: Global, set: &ReadSet, held: &HeldFault) -> Result<FirstFault, OutOfMemory>
    ensures kind { IfOk result (λ t. t.kind ≡ (held_view held.now).fault.fault.kind) }
    ensures spot { IfOk result (λ t. t.spot ≡ spot_of (set_trees set.now) (held_view held.now)) }
{
    let own = held.faulty.own;
    let spot = Spot {
        sequence: holder_name(alloc, set, held.holder)?,
        path: held.faulty.path.to_path(alloc)?,
        part: own.part,
        place: own.fault.place,
    };
    Ok(first_fault(own.fault.kind, spot))
}

fn call_fault(
    alloc: Global,
    set: &ReadSet,
    sequences: &Names,
) -> Result<Option<FirstFault>, OutOfMemory>
    requires { sequences.now ≡ names_of (set_trees set.now) }
    ensures { IfOk result (λ r. MatchOption r (CallsAreSound (set_trees set.now)) (λ t. IsFirstCallFault (set_trees set.now) t.kind t.spot)) }
{
    let calls = set_calls(alloc, set, sequences)?;
    let graph = graph_of(alloc, calls.as_slice())?;
    if let Some(at) = first_cycle(alloc, &graph)? {
        let spot = call_spot(alloc, set, calls.as_slice(), at)?;
        return Ok(Some(first_fault(FaultKind::CallCycle, spot)));
    }
    if let Some(at) = first_deep(alloc, &graph)? {
        let spot = call_spot(alloc, set, calls.as_slice(), at)?;
        return Ok(Some(first_fault(FaultKind::CallsTooDeep, spot)));
    }
    Ok(None)
}

// The first fault of a set that was read.
fn read_fault(alloc: Global, set: &ReadSet) -> Result<Option<FirstFault>, OutOfMemory>
    requires { IsDistinct bytes_eq (names_of (set_trees set.now)) }
    ensures { IfOk result (λ r. MatchOption r (IsSound (set_trees set.now)) (λ t. IsFirstOf (set_trees set.now) t.kind t.spot)) }
{
    let sequences = sequence_names(alloc, set)?;
    if let Some(held) = set_fault(alloc, set, &sequences)? {
        return Ok(Some(named_fault(alloc, set, &held)?));
    }
    call_fault(alloc, set, &sequences)
}

/// The set with its texts read, where it is valid. Its names must be distinct, as those that
/// `effective` answers are.
///
/// `Fault` exactly where it is not valid, with the first fault, of which there is one. Faults of a kind come only where there are none of
/// those before:
/// - texts that are no code or no expression;
/// - all others but the last two kinds;
/// - calls that lead back to the sequence that they stand in;
/// - calls that begin a chain of 33 sequences.
///
/// Among these the debug variables come first, then the sequences in the set's order, each by step, a control before the steps inside. A
/// control itself comes before its `if`, and that before its `while`. Of its own faults `NestedTooDeep` comes first, then `TimeoutTooLong`,
/// then `UnboundedLoop`. In a text the order is by line, by column, and at one place that of the kinds.
///
/// A disabled sequence has no faults and no calls. `OutOfMemory` where memory is refused.
pub fn check(alloc: Global, set: &SeqSet) -> Result<Checked, CheckFault>
    requires { IsDistinct bytes_eq (map (λ e. e.name) set.now.entries) }
    ensures answer { AnswersCheck set.now result }
    ensures only { (trees : SetTrees) → ReadsSet set.now trees → IsSound trees → GivesTrees trees result }
    ensures only_fault { (kind : FaultKind) (spot : Spot) → IsFirstFaultOf set.now kind spot → ReportsFault kind spot result }
{
    let read = match read_set(alloc, set) {
        Ok(read) => read,
        Err(SetFault::Syntax(spot)) => return Err(CheckFault::Fault(FaultKind::Syntax, spot)),
        Err(SetFault::OutOfMemory) => return Err(CheckFault::OutOfMemory),
    };
    match read_fault(alloc, &read)? {
        Some(reported) => Err(CheckFault::Fault(reported.kind, reported.spot)),
        None => Ok(Checked::new(read)),
    }
}
