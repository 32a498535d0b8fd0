//! The texts of a set that can not be read, each with its first fault.
ghost use Rattle.std.specs.Prelude.{◌≡◌, ◌++◌, ◌⊎◌, IfOk, OnOk, map};
ghost use Rattle.device_tree.specs.StepsView.{steps_view};
ghost use Rattle.sequence_trees.specs.declared.spot.Part.TheVariants as parts;
ghost use Rattle.sequence_trees.specs.Order.{moved_text, text_if_some, entry_texts, steps_texts};
ghost use Rattle.sequence_trees.specs.Outcomes.{step_texts};
ghost use Rattle.set_faults.specs.Sites.{site_step};
ghost use Rattle.set_faults.specs.Syntax.{IsFaultOf, syntax_fault, AreSyntaxFaults, AddsFaultsOf, inside};

use crate::site::{Fault, Site, add_fault};
use code_check::{CodeFault, FaultKind};
use dap_base::{ItemList, NameText, OutOfMemory, Place};
use device_tree::{Step, Steps};
use sequence_resolve::{SeqEntry, SeqSet};
use sequence_trees::{Part, TextFault, inner_path, read_code, read_condition};
use std::alloc::Global;

// The place of the first fault of a code; `None` where it has none.
fn code_fault(alloc: Global, code: &NameText) -> Result<Option<Place>, OutOfMemory>
    ensures { IfOk result (IsFaultOf parts.Block code.now) }
{
    match read_code(alloc, code.as_str()) {
        Ok(_) => Ok(None),
        Err(TextFault::Syntax(place)) => Ok(Some(place)),
        Err(TextFault::OutOfMemory) => Err(OutOfMemory),
    }
}

// The same of a condition.
fn condition_fault(alloc: Global, condition: &NameText) -> Result<Option<Place>, OutOfMemory>
    ensures { IfOk result (IsFaultOf parts.If condition.now) }
{
    match read_condition(alloc, condition.as_str()) {
        Ok(_) => Ok(None),
        Err(TextFault::Syntax(place)) => Ok(Some(place)),
        Err(TextFault::OutOfMemory) => Err(OutOfMemory),
    }
}

// Adds the fault of a text of the step, where it has one.
fn add_syntax(
    alloc: Global,
    site: Site<'_>,
    part: Part,
    place: Option<Place>,
    found: &mut ItemList<Fault>,
) -> Result<(), OutOfMemory>
    ensures { OnOk result (found.new ≡ found.old ++ syntax_fault (site_step site.entry) part place) }
{
    let Some(place) = place else {
        return Ok(());
    };
    let fault = CodeFault {
        place,
        kind: FaultKind::Syntax,
    };
    add_fault(alloc, site, part, fault, found)
}

// Adds the fault of a condition, where there is one.
fn add_condition(
    alloc: Global,
    site: Site<'_>,
    part: Part,
    condition: &Option<NameText>,
    found: &mut ItemList<Fault>,
) -> Result<(), OutOfMemory>
    requires { (part ≡ parts.If) ⊎ (part ≡ parts.While) }
    ensures { OnOk result (AddsFaultsOf (map (moved_text (inside (site_step site.entry))) (text_if_some part condition.now)) found.old found.new) }
{
    match condition {
        Some(text) => add_syntax(alloc, site, part, condition_fault(alloc, text)?, found),
        None => Ok(()),
    }
}

// Adds the faults of the texts of the step at the site.
#[cycle(steps)]
fn add_step(
    alloc: Global,
    site: Site<'_>,
    step: &Step,
    found: &mut ItemList<Fault>,
) -> Result<(), OutOfMemory>
    ensures { OnOk result (AddsFaultsOf (map (moved_text (inside (site_step site.entry))) (step_texts step.now)) found.old found.new) }
{
    match step {
        Step::Block { code, .. } => {
            add_syntax(alloc, site, Part::Block, code_fault(alloc, code)?, found)
        }
        Step::Control {
            cond,
            repeat,
            steps,
            ..
        } => {
            add_condition(alloc, site, Part::If, cond, found)?;
            add_condition(alloc, site, Part::While, repeat, found)?;
            add_steps(alloc, site, steps, found)
        }
    }
}

// Adds the faults of the texts of the steps inside the one at the site.
#[cycle(steps)]
fn add_items(
    alloc: Global,
    site: Site<'_>,
    items: &[Step],
    found: &mut ItemList<Fault>,
) -> Result<(), OutOfMemory>
    ensures { OnOk result (AddsFaultsOf (map (moved_text (inside (site_step site.entry))) (steps_texts 0 (steps_view items.now))) found.old found.new) }
{
    for (number, step) in items.iter().enumerate() {
        let path = inner_path(alloc, site.path, number as u64)?;
        let step_site = Site {
            sequence: site.sequence,
            path: path.as_slice(),
        };
        add_step(alloc, step_site, step, found)?;
    }
    Ok(())
}

#[cycle(steps)]
fn add_steps(
    alloc: Global,
    site: Site<'_>,
    steps: &Steps,
    found: &mut ItemList<Fault>,
) -> Result<(), OutOfMemory>
    ensures { OnOk result (AddsFaultsOf (map (moved_text (inside (site_step site.entry))) (steps_texts 0 steps.now)) found.old found.new) }
{
    add_items(alloc, site, steps.as_slice(), found)
}

// Adds the faults of the texts of a sequence.
fn add_entry(
    alloc: Global,
    entry: &SeqEntry,
    found: &mut ItemList<Fault>,
) -> Result<(), OutOfMemory>
    ensures { OnOk result (AddsFaultsOf (entry_texts entry.now) found.old found.new) }
{
    if entry.disabled {
        return Ok(());
    }
    let site = Site {
        sequence: Some(entry.name.as_str()),
        path: &[],
    };
    add_steps(alloc, site, entry.steps.as_steps(), found)
}

/// The first fault of each text of the set that can not be read, in the order of the texts. The debug variables come first, and then the
/// sequences in the set's order, the steps of each in order. A control's `if` comes before its `while`, and both before the steps inside. A
/// disabled sequence has no texts. `OutOfMemory` where memory is refused. Each text is gone through once.
pub fn syntax_faults(alloc: Global, set: &SeqSet) -> Result<ItemList<Fault>, OutOfMemory>
    ensures { IfOk result (AreSyntaxFaults set.now) }
{
    let debugvars = Site {
        sequence: None,
        path: &[],
    };
    let mut found = ItemList::new(alloc);
    let place = code_fault(alloc, &set.debugvars)?;
    add_syntax(alloc, debugvars, Part::Debugvars, place, &mut found)?;
    for entry in set.entries.as_slice() {
        add_entry(alloc, entry, &mut found)?;
    }
    Ok(found)
}
