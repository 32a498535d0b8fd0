//! All faults of a call itself, apart from those inside its arguments.
ghost use Rattle.std.specs.Prelude.{◌≡◌, ◌↔◌, IsTrue, OnOk, Some};
ghost use Rattle.expr_grammar.specs.Tree.{arg_tree, arg_trees};
ghost use Rattle.code_check.specs.ExprFaults.{NameFault, KindFault, KindsFault, SequenceFault, IsFormatOf, FormatFault, TextsFault, KnownFault, FunctionFault, CallFault};
ghost use Rattle.code_check.specs.Views.{scope_view};
ghost use Rattle.set_faults.specs.Listed.{Adds};

use crate::code_faults::CodeFaults;
use code_check::{FaultKind, Scope, text_at};
use dap_base::OutOfMemory;
use expr_grammar::{Arg, CalledName, Name, TextArg};
use function_table::{Function, ParameterKind, conversions};

/// Adds the fault of a variable that is used or assigned.
#[tactic(auto, using(crate::proofs::AddLemmas::adding))]
pub fn add_name(scope: Scope<'_>, name: &Name, found: &mut CodeFaults) -> Result<(), OutOfMemory>
    ensures { OnOk result (Adds (NameFault (scope_view scope.entry) name.now) found.old found.new) }
{
    let is_unknown = !scope.visible.has(name.text.as_str());
    found.add_if(is_unknown, name.at, FaultKind::UndefinedName)
}

// Whether the function takes a text there.
fn takes_text(requested: Option<ParameterKind>) -> bool
    ensures { IsTrue result ↔ (requested ≡ Some ParameterKind.Text) }
{
    match requested {
        Some(ParameterKind::Text) => true,
        _ => false,
    }
}

// Whether the function takes a number there.
fn takes_number(requested: Option<ParameterKind>) -> bool
    ensures { IsTrue result ↔ (requested ≡ Some ParameterKind.Number) }
{
    match requested {
        Some(ParameterKind::Number) => true,
        _ => false,
    }
}

// Adds the fault of an argument of another kind than the function takes there.
fn add_kind(
    requested: Option<ParameterKind>,
    arg: &Arg,
    found: &mut CodeFaults,
) -> Result<(), OutOfMemory>
    ensures { OnOk result (Adds (KindFault requested (arg_tree arg.now)) found.old found.new) }
{
    match arg {
        Arg::Number(at, _) => { found.add_if(takes_text(requested), *at, FaultKind::TextExpected) }
        Arg::Text(text) => {
            found.add_if(takes_number(requested), text.at, FaultKind::NumberExpected)
        }
    }
}

// Adds the faults of the arguments of other kinds than the function takes.
fn add_kinds(function: Function, args: &[Arg], found: &mut CodeFaults) -> Result<(), OutOfMemory>
    ensures { OnOk result (Adds (KindsFault function 0 (arg_trees args.now)) found.old found.new) }
{
    for (index, arg) in args.iter().enumerate() {
        add_kind(function.kind_at(index), arg, found)?;
    }
    Ok(())
}

// Adds the fault of a text that names no sequence.
#[tactic(auto, using(crate::proofs::AddLemmas::adding))]
fn add_sequence(scope: Scope<'_>, text: &TextArg, found: &mut CodeFaults) -> Result<(), OutOfMemory>
    ensures { OnOk result (Adds (SequenceFault (scope_view scope.entry) text.now) found.old found.new) }
{
    let is_unknown = !scope.sequences.has(text.text.as_str());
    found.add_if(is_unknown, text.at, FaultKind::UndefinedSequence)
}

// Whether the text is a format with this many conversions.
fn is_format_of(count: usize, text: &str) -> bool
    ensures { IsTrue result ↔ IsFormatOf count text.now }
{
    match conversions(text) {
        Some(found) => found == count,
        None => false,
    }
}

// Adds the fault of a text that is no format with this many conversions.
#[tactic(auto, using(crate::proofs::AddLemmas::adding))]
fn add_format(count: usize, text: &TextArg, found: &mut CodeFaults) -> Result<(), OutOfMemory>
    ensures { OnOk result (Adds (FormatFault count text.now) found.old found.new) }
{
    let is_other = !is_format_of(count, text.text.as_str());
    found.add_if(is_other, text.at, FaultKind::FormatMismatch)
}

// Adds what is wrong with the texts of `Sequence` and of `Message`.
fn add_texts(
    scope: Scope<'_>,
    function: Function,
    args: &[Arg],
    found: &mut CodeFaults,
) -> Result<(), OutOfMemory>
    ensures { OnOk result (Adds (TextsFault (scope_view scope.entry) function (arg_trees args.now)) found.old found.new) }
{
    match function {
        Function::Sequence => match text_at(args, 0) {
            Some(text) => add_sequence(scope, text, found),
            None => Ok(()),
        },
        Function::Message => match text_at(args, 1) {
            Some(text) => add_format(args.len().saturating_sub(2), text, found),
            None => Ok(()),
        },
        _ => Ok(()),
    }
}

// Adds the faults of the call of this function.
fn add_known(
    scope: Scope<'_>,
    function: Function,
    name: &Name,
    args: &[Arg],
    found: &mut CodeFaults,
) -> Result<(), OutOfMemory>
    ensures { OnOk result (Adds (KnownFault (scope_view scope.entry) name.now (arg_trees args.now) function) found.old found.new) }
{
    if !function.takes(args.len()) {
        return found.add_if(true, name.at, FaultKind::ArgumentCount);
    }
    add_kinds(function, args, found)?;
    add_texts(scope, function, args, found)
}

// Adds the fault of a name of no function, or those of the call of the function of that name.
fn add_function(
    scope: Scope<'_>,
    called: &CalledName,
    args: &[Arg],
    found: &mut CodeFaults,
) -> Result<(), OutOfMemory>
    ensures { OnOk result (Adds (FunctionFault (scope_view scope.entry) called.now.name (arg_trees args.now)) found.old found.new) }
{
    match called.function {
        Some(function) => add_known(scope, function, &called.name, args, found),
        None => found.add_if(true, called.name.at, FaultKind::UndefinedFunction),
    }
}

/// Adds the faults of a call, except those inside its arguments.
pub fn add_call(
    scope: Scope<'_>,
    called: &CalledName,
    args: &[Arg],
    found: &mut CodeFaults,
) -> Result<(), OutOfMemory>
    ensures { OnOk result (Adds (CallFault (scope_view scope.entry) called.now.name (arg_trees args.now)) found.old found.new) }
{
    found.add_if(scope.in_debugvars, called.name.at, FaultKind::BadDebugvars)?;
    add_function(scope, called, args, found)
}
