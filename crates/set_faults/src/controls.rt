//! All faults of a control itself: of its form, and of its conditions.
ghost use Rattle.std.specs.Prelude.{◌≡◌, ◌↔◌, ◌≤◌, IsTrue, IfOk, OnOk, option_map};
ghost use Rattle.expr_grammar.specs.Tree.{tree};
ghost use Rattle.code_check.specs.Order.{is_before};
ghost use Rattle.code_check.specs.Views.{scope_view};
ghost use Rattle.sequence_trees.specs.declared.spot.Part.TheVariants as parts;
ghost use Rattle.seq_check.specs.StepFaults.{fault_before, ConditionFault, is_step_before, ControlFault, OwnFault};
ghost use Rattle.set_faults.specs.Listed.{Adds, IsListOf};
ghost use Rattle.set_faults.specs.Sites.{site_step, step_fault_at, Appends};
ghost use Rattle.set_faults.specs.Controls.{is_too_long, is_unbounded};

use crate::code_faults::CodeFaults;
use crate::exprs::add_expr;
use crate::site::{Fault, Site, add_part};
use code_check::{FaultKind, Scope};
use dap_base::{ItemList, OutOfMemory, Place};
use expr_grammar::Expr;
use sequence_trees::Part;
use std::alloc::Global;

// How many controls may stand around a control.
const MOST_AROUND: u64 = 32;

// The longest timeout, in microseconds.
const LONGEST_TIMEOUT: u64 = 60_000_000;

// Whether a control stands within too many others.
fn is_too_deep(around: u64) -> bool
    ensures { IsTrue result ↔ (32 ≤ around) }
{
    around >= MOST_AROUND
}

// Whether a timeout is over the longest.
fn is_too_long(timeout: Option<u64>) -> bool
    ensures { result ≡ is_too_long timeout }
{
    match timeout {
        Some(timeout) => timeout > LONGEST_TIMEOUT,
        None => false,
    }
}

// Whether a `while` has no timeout, or 0.
fn is_unbounded(repeat: &Option<Expr>, timeout: Option<u64>) -> bool
    ensures { result ≡ is_unbounded (option_map tree repeat.now) timeout }
{
    match (repeat, timeout) {
        (None, _) => false,
        (Some(_), None) => true,
        (Some(_), Some(timeout)) => timeout == 0,
    }
}

// The faults of the form of a control, in their order.
fn form_faults(
    alloc: Global,
    around: u64,
    repeat: &Option<Expr>,
    timeout: Option<u64>,
) -> Result<CodeFaults, OutOfMemory>
    ensures { IfOk result (IsListOf (fault_before parts.Control) (ControlFault around (option_map tree repeat.now) timeout)) }
{
    let no_place = Place { line: 0, column: 0 };
    let mut found = CodeFaults::new(alloc);
    found.add_if(is_too_deep(around), no_place, FaultKind::NestedTooDeep)?;
    found.add_if(is_too_long(timeout), no_place, FaultKind::TimeoutTooLong)?;
    found.add_if(
        is_unbounded(repeat, timeout),
        no_place,
        FaultKind::UnboundedLoop,
    )?;
    Ok(found)
}

// Adds the faults of a condition, where there is one.
fn add_condition(
    scope: Scope<'_>,
    condition: &Option<Expr>,
    found: &mut CodeFaults,
) -> Result<(), OutOfMemory>
    ensures { OnOk result (Adds (ConditionFault (scope_view scope.entry) (option_map tree condition.now)) found.old found.new) }
{
    match condition {
        Some(condition) => add_expr(scope, condition, found),
        None => Ok(()),
    }
}

// All faults of a condition, in order, each once.
fn condition_faults(
    alloc: Global,
    scope: Scope<'_>,
    condition: &Option<Expr>,
) -> Result<CodeFaults, OutOfMemory>
    ensures { IfOk result (IsListOf is_before (ConditionFault (scope_view scope.entry) (option_map tree condition.now))) }
{
    let mut found = CodeFaults::new(alloc);
    add_condition(scope, condition, &mut found)?;
    Ok(found.in_order())
}

/// Adds the faults of a control itself, which stands within `around` others.
pub fn add_own(
    alloc: Global,
    scope: Scope<'_>,
    around: u64,
    site: Site<'_>,
    cond: &Option<Expr>,
    repeat: &Option<Expr>,
    timeout: Option<u64>,
    found: &mut ItemList<Fault>,
) -> Result<(), OutOfMemory>
    ensures { OnOk result (Appends is_step_before (step_fault_at (site_step site.entry))
        (OwnFault (scope_view scope.entry) around (option_map tree cond.now) (option_map tree repeat.now) timeout) found.old found.new) }
{
    let form = form_faults(alloc, around, repeat, timeout)?;
    add_part(alloc, site, Part::Control, form.as_slice(), found)?;
    let of_cond = condition_faults(alloc, scope, cond)?;
    add_part(alloc, site, Part::If, of_cond.as_slice(), found)?;
    let of_repeat = condition_faults(alloc, scope, repeat)?;
    add_part(alloc, site, Part::While, of_repeat.as_slice(), found)
}
