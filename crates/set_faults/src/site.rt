//! Faults, and the steps in which they are.
ghost use Rattle.std.specs.Prelude.{◌≡◌, ◌++◌, ◌∷◌, [], IfOk, OnOk, map};
ghost use Rattle.set_faults.specs.Sites.{name_now, site_step, code_fault_at};
ghost use Rattle.sequence_trees.specs.Order.{spot_at};

use code_check::{CodeFault, FaultKind};
use dap_base::{ItemList, NameText, OutOfMemory, Place};
use sequence_trees::{Part, Spot, copy_path};
use std::alloc::Global;

/// A fault of a set.
#[derive(Debug, Drop)]
pub struct Fault {
    /// What is wrong.
    pub kind: FaultKind,
    /// Where it is. A fault of a control itself has the place 0:0.
    pub spot: Spot,
}

/// A step of a set: the name of its sequence, none for the debug variables, and the path to it.
#[derive(Clone, Copy)]
pub struct Site<'a> {
    pub sequence: Option<&'a str>,
    pub path: &'a [u64],
}

fn copy_name(alloc: Global, name: Option<&str>) -> Result<Option<NameText>, OutOfMemory>
    ensures { IfOk result (λ copy. copy ≡ name_now name.entry) }
{
    match name {
        Some(name) => Ok(Some(NameText::new(alloc, name)?)),
        None => Ok(None),
    }
}

// A place in a part of the step.
fn spot_at(alloc: Global, site: Site<'_>, part: Part, place: Place) -> Result<Spot, OutOfMemory>
    ensures { IfOk result (λ spot. spot ≡ spot_at (site_step site.entry) part place) }
{
    Ok(Spot {
        sequence: copy_name(alloc, site.sequence)?,
        path: copy_path(alloc, site.path)?,
        part,
        place,
    })
}

/// Adds the fault of this kind at a place in a part of the step.
pub fn add_fault(
    alloc: Global,
    site: Site<'_>,
    part: Part,
    fault: CodeFault,
    found: &mut ItemList<Fault>,
) -> Result<(), OutOfMemory>
    ensures { OnOk result (found.new ≡ found.old ++ code_fault_at (site_step site.entry) part fault ∷ []) }
{
    let spot = spot_at(alloc, site, part, fault.place)?;
    found.push(Fault {
        kind: fault.kind,
        spot,
    })
}

/// Adds the faults of a part of the step.
pub fn add_part(
    alloc: Global,
    site: Site<'_>,
    part: Part,
    faults: &[CodeFault],
    found: &mut ItemList<Fault>,
) -> Result<(), OutOfMemory>
    ensures { OnOk result (found.new ≡ found.old ++ map (code_fault_at (site_step site.entry) part) faults.now) }
{
    for fault in faults {
        add_fault(alloc, site, part, *fault, found)?;
    }
    Ok(())
}
