//! The first fault of a control itself: of its form, and of its conditions.
ghost use Rattle.std.specs.Prelude.{◌≡◌, ◌≤◌, ◌<◌, Some, None, option_map};
ghost use Rattle.expr_grammar.specs.Tree.{tree};
ghost use Rattle.code_check.specs.Order.{is_before};
ghost use Rattle.code_check.specs.First.{IsFirst, FaultWhere};
ghost use Rattle.code_check.specs.Views.{scope_view};
ghost use Rattle.sequence_trees.specs.declared.spot.Part.TheVariants as parts;
ghost use Rattle.seq_check.specs.StepFaults.{fault_before, is_step_before, ConditionFault, TimeoutFault, LoopFault, ControlFault, OwnFault};
ghost use Rattle.seq_check.specs.Views.{own_view};
ghost use Rattle.expr_grammar.specs.Bare.{nowhere};

use crate::faulty::{PartFault, in_part};
use code_check::{CodeFault, FaultKind, Scope, expr_fault};
use dap_base::Place;
use expr_grammar::Expr;
use sequence_trees::Part;

/// How many controls may stand around a control.
pub const MOST_AROUND: u64 = 32;

// The longest timeout, in microseconds.
const LONGEST_TIMEOUT: u64 = 60_000_000;

// A fault of what stands in no text.
fn form_fault(kind: FaultKind) -> Option<CodeFault>
    ensures { result ≡ Some (record { place = nowhere; kind = kind }) }
{
    Some(CodeFault {
        place: Place { line: 0, column: 0 },
        kind,
    })
}

#[tactic(auto, using(crate::proofs::ControlLemmas::forms))]
fn nested_fault(around: u64) -> Option<CodeFault>
    ensures { IsFirst (fault_before parts.Control) (FaultWhere (32 ≤ around) nowhere FaultKind.NestedTooDeep) result }
{
    if around < MOST_AROUND {
        return None;
    }
    form_fault(FaultKind::NestedTooDeep)
}

#[tactic(auto, using(crate::proofs::ControlLemmas::forms))]
fn timeout_fault(timeout: Option<u64>) -> Option<CodeFault>
    ensures { IsFirst (fault_before parts.Control) (TimeoutFault timeout) result }
{
    match timeout {
        Some(timeout) if timeout > LONGEST_TIMEOUT => { form_fault(FaultKind::TimeoutTooLong) }
        _ => None,
    }
}

#[tactic(auto, using(crate::proofs::ControlLemmas::forms))]
fn loop_fault(repeat: &Option<Expr>, timeout: Option<u64>) -> Option<CodeFault>
    ensures { IsFirst (fault_before parts.Control) (LoopFault (option_map tree repeat.now) timeout) result }
{
    match (repeat, timeout) {
        (None, _) => None,
        (Some(_), None) => form_fault(FaultKind::UnboundedLoop),
        (Some(_), Some(timeout)) => zero_fault(timeout),
    }
}

#[tactic(auto, using(crate::proofs::ControlLemmas::forms))]
fn zero_fault(timeout: u64) -> Option<CodeFault>
    ensures { IsFirst (fault_before parts.Control) (FaultWhere (timeout ≡ 0) nowhere FaultKind.UnboundedLoop) result }
{
    if timeout == 0 {
        form_fault(FaultKind::UnboundedLoop)
    } else {
        None
    }
}

fn control_fault(around: u64, repeat: &Option<Expr>, timeout: Option<u64>) -> Option<CodeFault>
    ensures { IsFirst (fault_before parts.Control) (ControlFault around (option_map tree repeat.now) timeout) result }
{
    let bounds = timeout_fault(timeout).or(loop_fault(repeat, timeout));
    nested_fault(around).or(bounds)
}

fn condition_fault(scope: Scope<'_>, condition: &Option<Expr>) -> Option<CodeFault>
    ensures { IsFirst is_before (ConditionFault (scope_view scope.entry) (option_map tree condition.now)) result }
{
    match condition {
        Some(condition) => expr_fault(scope, condition),
        None => None,
    }
}

/// The first fault of a control itself, which stands within `around` others.
pub fn own_fault(
    scope: Scope<'_>,
    around: u64,
    cond: &Option<Expr>,
    repeat: &Option<Expr>,
    timeout: Option<u64>,
) -> Option<PartFault>
    ensures first { IsFirst is_step_before
        (OwnFault (scope_view scope.entry) around (option_map tree cond.now) (option_map tree repeat.now) timeout) (option_map own_view result) }
    ensures not_deep { result ≡ None → around < 32 }
{
    let of_form = in_part(Part::Control, control_fault(around, repeat, timeout));
    let of_cond = in_part(Part::If, condition_fault(scope, cond));
    let of_repeat = in_part(Part::While, condition_fault(scope, repeat));
    of_form.or(of_cond.or(of_repeat))
}
