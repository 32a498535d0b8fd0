//! The first fault of a call itself, apart from what is inside its arguments.
ghost use Rattle.std.specs.Prelude.{◌≡◌, ◌↔◌, IsTrue, Some, false, slice_get};
ghost use Rattle.std.specs.Option.{option_copied};
ghost use Rattle.expr_grammar.specs.Tree.{arg_tree, arg_trees};
ghost use Rattle.code_check.specs.Order.{earlier};
ghost use Rattle.code_check.specs.First.{FaultWhere};
ghost use Rattle.code_check.specs.Notes.{Notes};
ghost use Rattle.code_check.specs.ExprFaults.{NameFault, KindFault, KindsFault, text_of, text_at, SequenceFault, IsFormatOf, FormatFault};
ghost use Rattle.code_check.specs.ExprFaults.{TextsFault, KnownFault, FunctionFault, CallFault};
ghost use Rattle.code_check.specs.Views.{scope_view};

use crate::fault::{CodeFault, FaultKind};
use crate::order::note;
use crate::scope::Scope;
use dap_base::Place;
use expr_grammar::{Arg, CalledName, Name, TextArg};
use function_table::{Function, ParameterKind, conversions};

/// Notes the fault of this kind at this place, unless the one that was found comes first.
pub fn note_at(place: Place, kind: FaultKind, found: &mut Option<CodeFault>)
    ensures { found.new ≡ earlier found.old (Some (record { place = place; kind = kind })) }
{
    note(found, CodeFault { place, kind });
}

/// Notes the fault of a variable that is used or assigned.
pub fn note_name(scope: Scope<'_>, name: &Name, found: &mut Option<CodeFault>)
    ensures { Notes (NameFault (scope_view scope.entry) name.now) found.old found.new }
{
    if !scope.visible.has(name.text.as_str()) {
        note_at(name.at, FaultKind::UndefinedName, found);
    }
}

// Notes a number where the function takes a text.
#[tactic(auto, using(crate::proofs::NoteLemmas::notes))]
fn note_text_expected(requested: Option<ParameterKind>, at: Place, found: &mut Option<CodeFault>)
    ensures { Notes (FaultWhere (requested ≡ Some ParameterKind.Text) at FaultKind.TextExpected) found.old found.new }
{
    match requested {
        Some(ParameterKind::Text) => note_at(at, FaultKind::TextExpected, found),
        _ => {}
    }
}

// Notes a text where the function takes a number.
#[tactic(auto, using(crate::proofs::NoteLemmas::notes))]
fn note_number_expected(requested: Option<ParameterKind>, at: Place, found: &mut Option<CodeFault>)
    ensures { Notes (FaultWhere (requested ≡ Some ParameterKind.Number) at FaultKind.NumberExpected) found.old found.new }
{
    match requested {
        Some(ParameterKind::Number) => note_at(at, FaultKind::NumberExpected, found),
        _ => {}
    }
}

// Notes an argument of another kind than the function takes there.
fn note_kind(requested: Option<ParameterKind>, arg: &Arg, found: &mut Option<CodeFault>)
    ensures { Notes (KindFault requested (arg_tree arg.now)) found.old found.new }
{
    match arg {
        Arg::Number(at, _) => note_text_expected(requested, *at, found),
        Arg::Text(text) => note_number_expected(requested, text.at, found),
    }
}

// Notes the first of the arguments of another kind than the function takes.
fn note_kinds(function: Function, args: &[Arg], found: &mut Option<CodeFault>)
    ensures { Notes (KindsFault function 0 (arg_trees args.now)) found.old found.new }
{
    for (index, arg) in args.iter().enumerate() {
        note_kind(function.kind_at(index), arg, found);
    }
}

fn arg_at(args: &[Arg], index: usize) -> Option<&Arg>
    ensures { option_copied result ≡ slice_get args.now index }
{
    args.get(index)
}

fn text_of(arg: &Arg) -> Option<&TextArg>
    ensures { option_copied result ≡ text_of (arg_tree arg.now) }
{
    match arg {
        Arg::Number(_, _) => None,
        Arg::Text(text) => Some(text),
    }
}

/// The text at `index` of the arguments, counted from 0. `None` exactly where there is no text there.
pub fn text_at(args: &[Arg], index: usize) -> Option<&TextArg>
    ensures { option_copied result ≡ text_at (arg_trees args.now) index }
{
    match arg_at(args, index) {
        Some(arg) => text_of(arg),
        None => None,
    }
}

// Notes a text that names no sequence.
fn note_sequence(scope: Scope<'_>, text: &TextArg, found: &mut Option<CodeFault>)
    ensures { Notes (SequenceFault (scope_view scope.entry) text.now) found.old found.new }
{
    if !scope.sequences.has(text.text.as_str()) {
        note_at(text.at, FaultKind::UndefinedSequence, found);
    }
}

// Whether the text is a format with this many conversions.
fn is_format_of(count: usize, text: &str) -> bool
    ensures { IsTrue result ↔ IsFormatOf count text.now }
{
    match conversions(text) {
        Some(found) => found == count,
        None => false,
    }
}

// Notes a text that is no format with this many conversions.
fn note_format(count: usize, text: &TextArg, found: &mut Option<CodeFault>)
    ensures { Notes (FormatFault count text.now) found.old found.new }
{
    if !is_format_of(count, text.text.as_str()) {
        note_at(text.at, FaultKind::FormatMismatch, found);
    }
}

// Notes what is wrong with the texts of `Sequence` and of `Message`.
fn note_texts(scope: Scope<'_>, function: Function, args: &[Arg], found: &mut Option<CodeFault>)
    ensures { Notes (TextsFault (scope_view scope.entry) function (arg_trees args.now)) found.old found.new }
{
    match function {
        Function::Sequence => {
            if let Some(text) = text_at(args, 0) {
                note_sequence(scope, text, found);
            }
        }
        Function::Message => {
            if let Some(text) = text_at(args, 1) {
                note_format(args.len().saturating_sub(2), text, found);
            }
        }
        _ => {}
    }
}

// Notes the first fault of the call of this function.
fn note_known(
    scope: Scope<'_>,
    function: Function,
    name: &Name,
    args: &[Arg],
    found: &mut Option<CodeFault>,
)
    ensures { Notes (KnownFault (scope_view scope.entry) name.now (arg_trees args.now) function) found.old found.new }
{
    if function.takes(args.len()) {
        note_kinds(function, args, found);
        note_texts(scope, function, args, found);
    } else {
        note_at(name.at, FaultKind::ArgumentCount, found);
    }
}

// Notes a name of no function, or the first fault of the call of the function of that name.
fn note_function(scope: Scope<'_>, called: &CalledName, args: &[Arg], found: &mut Option<CodeFault>)
    ensures { Notes (FunctionFault (scope_view scope.entry) called.now.name (arg_trees args.now)) found.old found.new }
{
    match called.function {
        Some(function) => note_known(scope, function, &called.name, args, found),
        None => note_at(called.name.at, FaultKind::UndefinedFunction, found),
    }
}

/// Notes the first fault of a call, except those inside its arguments.
pub fn note_call(scope: Scope<'_>, called: &CalledName, args: &[Arg], found: &mut Option<CodeFault>)
    ensures { Notes (CallFault (scope_view scope.entry) called.now.name (arg_trees args.now)) found.old found.new }
{
    if scope.in_debugvars {
        note_at(called.name.at, FaultKind::BadDebugvars, found);
    }
    note_function(scope, called, args, found);
}
