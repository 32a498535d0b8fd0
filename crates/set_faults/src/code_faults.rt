//! The faults of one text, as they are found, and in their order.
ghost use Rattle.std.specs.Prelude.{◌≡◌, ◌++◌, [], Contains, OnOk};
ghost use Rattle.std.specs.Ordering.{is_lt};
ghost use Rattle.code_check.specs.Order as order;
ghost use Rattle.code_check.specs.Order.{is_before};
ghost use Rattle.set_faults.specs.Listed.{IsListOf, found_if};

use code_check::{CodeFault, FaultKind};
use dap_base::{OutOfMemory, Place};
use std::alloc::Global;
use std::cmp::Ordering;
use std::marker::Model;

/// Faults of one text. Contracts see their list.
#[derive(Debug, Drop)]
pub struct CodeFaults {
    faults: Vec<CodeFault>,
}

impl Model for CodeFaults {
    ghost use Rattle.std.specs.Prelude.{List};
    ghost use Rattle.code_check.specs.declared.fault.CodeFault.{CodeFault};

    ghost Value = { List CodeFault };

    ghost view = { λ f. f.faults.items };
}

impl CodeFaults {
    /// No faults. Nothing is allocated.
    pub fn new(alloc: Global) -> CodeFaults
        ensures { result ≡ [] }
    {
        CodeFaults {
            faults: Vec::new(alloc),
        }
    }

    /// Adds the fault of this kind at this place, where it is one.
    pub fn add_if(
        &mut self,
        is_fault: bool,
        place: Place,
        kind: FaultKind,
    ) -> Result<(), OutOfMemory>
        ensures { OnOk result (self.new ≡ self.old ++ found_if is_fault place kind) }
    {
        if is_fault {
            self.faults
                .push(CodeFault { place, kind })
                .map_err(|_| OutOfMemory)?;
        }
        Ok(())
    }

    /// The faults, lent without a copy.
    pub fn as_slice(&self) -> &[CodeFault]
        ensures { result.now ≡ self.now }
    {
        self.faults.as_slice()
    }

    /// The same faults in the order of a text, each once.
    pub fn in_order(mut self) -> CodeFaults
        ensures { IsListOf is_before (Contains self) result }
    {
        self.faults
            .sort_unstable_by(|fault, other| order_of(fault, other));
        self.faults
            .dedup_by(|fault, kept| !is_before(*kept, *fault));
        self
    }
}

// The place of a kind in the order of kinds.
fn rank(kind: FaultKind) -> u8
    ensures { result ≡ order.rank kind }
{
    kind as u8
}

// Whether a fault comes first of two.
fn is_before(fault: CodeFault, other: CodeFault) -> bool
    ensures { result ≡ is_before fault other }
{
    order_of(&fault, &other) == Ordering::Less
}

// Which of two faults of one text comes first.
fn order_of(fault: &CodeFault, other: &CodeFault) -> Ordering
    ensures { is_lt result ≡ is_before fault.now other.now }
{
    let place = fault.place;
    let other_place = other.place;
    place
        .line
        .cmp(&other_place.line)
        .then(place.column.cmp(&other_place.column))
        .then(rank(fault.kind).cmp(&rank(other.kind)))
}
