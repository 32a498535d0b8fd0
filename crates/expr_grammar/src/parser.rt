//! Expressions, by how tightly their operators bind, and arguments.

ghost use Rattle.std.specs.Prelude.{◌≡◌, ◌<◌, ◌≤◌, length, IfOk, Ok};
ghost use Rattle.expr_grammar.specs.Tree.{tree, arg_tree, arg_trees};
ghost use Rattle.expr_grammar.specs.Lexeme.{lexemes};
ghost use Rattle.expr_grammar.specs.Reading as reading;
ghost use Rattle.expr_grammar.specs.Reading.{GivesReading};

use crate::code::{Arg, Args, Expr, Name, UnaryOp};
use crate::cursor::{after_mark, expect, next};
use crate::fault::Fault;
use crate::made;
use crate::operators::{binary_of, boxed_name, is_mark, level, name_of, string_of, unary_of};
use crate::token::{Token, TokenKind};
use dap_base::number;
use std::alloc::Global;

/// An expression, and the tokens after it.
#[cycle(parser)]
#[tactic(auto, unfolding(crate::specs::Reading::whole, crate::specs::Reading::assignment_after), using(crate::proofs::Fix::fixes))]
pub fn read_expression<'t, 'a>(
    alloc: Global,
    tokens: &'t [Token<'a>],
) -> Result<(Expr, &'t [Token<'a>]), Fault>
    ensures reads { GivesReading (λ x. (tree x.0, lexemes x.1.now)) result (reading.whole reading.read (lexemes tokens.now)) }
    ensures shorter { IfOk result (λ x. length x.1.now < length tokens.now) }
{
    let (left, rest) = choice(alloc, tokens)?;
    match left {
        Expr::Name(name) => assignment(alloc, name, rest),
        other => Ok((other, rest)),
    }
}

// What stands after a name: a value for it, or nothing of it.
#[cycle(parser)]
#[inline(never)]
#[tactic(auto, using(crate::proofs::Fix::fixes))]
fn assignment<'t, 'a>(
    alloc: Global,
    name: Box<Name>,
    tokens: &'t [Token<'a>],
) -> Result<(Expr, &'t [Token<'a>]), Fault>
    ensures reads { GivesReading (λ x. (tree x.0, lexemes x.1.now)) result (reading.set_to reading.read name.value (lexemes tokens.now)) }
    ensures shorter { IfOk result (λ x. length x.1.now ≤ length tokens.now) }
{
    match next(tokens) {
        Some((mark, after)) if is_mark(&mark, b'=') => {
            let (value, rest) = read_expression(alloc, after)?;
            Ok((made::assignment(alloc, name, value)?, rest))
        }
        _ => Ok((made::make_name(name), tokens)),
    }
}

// A choice between two values, or one value.
#[cycle(parser)]
#[tactic(auto, unfolding(crate::specs::Reading::choice, crate::specs::Reading::choice_after), using(crate::proofs::Fix::fixes))]
fn choice<'t, 'a>(alloc: Global, tokens: &'t [Token<'a>]) -> Result<(Expr, &'t [Token<'a>]), Fault>
    ensures reads { GivesReading (λ x. (tree x.0, lexemes x.1.now)) result (reading.choice reading.read (lexemes tokens.now)) }
    ensures shorter { IfOk result (λ x. length x.1.now < length tokens.now) }
{
    let (test, rest) = at_level(alloc, 2, tokens)?;
    match next(rest) {
        Some((mark, after)) if is_mark(&mark, b'?') => read_choice_values(alloc, test, after),
        _ => Ok((test, rest)),
    }
}

// The two values of a choice, after its question mark. It is not inlined, as the next ones are not: few expressions have a part of
// this kind, and all would pay for its room.
#[cycle(parser)]
#[inline(never)]
#[tactic(auto, using(crate::proofs::Fix::fixes))]
fn read_choice_values<'t, 'a>(
    alloc: Global,
    test: Expr,
    tokens: &'t [Token<'a>],
) -> Result<(Expr, &'t [Token<'a>]), Fault>
    ensures reads { GivesReading (λ x. (tree x.0, lexemes x.1.now)) result (reading.choice_values reading.read (tree test) (lexemes tokens.now)) }
    ensures shorter { IfOk result (λ x. length x.1.now < length tokens.now) }
{
    let (then, rest) = read_expression(alloc, tokens)?;
    let rest = expect(rest, b':')?;
    let (other, rest) = choice(alloc, rest)?;
    Ok((made::choice(alloc, test, then, other)?, rest))
}

// Operands joined by operators that bind at least so tightly, which group to the left.
#[cycle(parser)]
#[tactic(auto, unfolding(crate::specs::Reading::at_level, crate::specs::Reading::climb), using(crate::proofs::Fix::fixes))]
fn at_level<'t, 'a>(
    alloc: Global,
    least: u8,
    tokens: &'t [Token<'a>],
) -> Result<(Expr, &'t [Token<'a>]), Fault>
    ensures reads { GivesReading (λ x. (tree x.0, lexemes x.1.now)) result (reading.at_level reading.read least (lexemes tokens.now)) }
    ensures shorter { IfOk result (λ x. length x.1.now < length tokens.now) }
{
    let (mut left, mut rest) = operand(alloc, tokens)?;
    while let Some((mark, after)) = next(rest)
        && let Some(op) = binary_of(&mark)
        && level(op) >= least
    {
        let (right, later) = at_level(alloc, level(op) + 1, after)?;
        left = made::binary(alloc, op, left, right)?;
        rest = later;
    }
    Ok((left, rest))
}

// An expression in parentheses, after the first of them.
#[cycle(parser)]
#[inline(never)]
#[tactic(auto, using(crate::proofs::Fix::fixes))]
fn read_group<'t, 'a>(
    alloc: Global,
    tokens: &'t [Token<'a>],
) -> Result<(Expr, &'t [Token<'a>]), Fault>
    ensures reads { GivesReading (λ x. (tree x.0, lexemes x.1.now)) result (reading.grouped_expression reading.read (lexemes tokens.now)) }
    ensures shorter { IfOk result (λ x. length x.1.now < length tokens.now) }
{
    let (inner, rest) = read_expression(alloc, tokens)?;
    let rest = expect(rest, b')')?;
    Ok((made::group(alloc, inner)?, rest))
}

// A number, a name, an operator with its operand, or an expression in parentheses.
#[cycle(parser)]
#[tactic(auto, unfolding(crate::specs::Reading::operand), using(crate::proofs::Fix::fixes))]
fn operand<'t, 'a>(alloc: Global, tokens: &'t [Token<'a>]) -> Result<(Expr, &'t [Token<'a>]), Fault>
    ensures reads { GivesReading (λ x. (tree x.0, lexemes x.1.now)) result (reading.operand reading.read (lexemes tokens.now)) }
    ensures shorter { IfOk result (λ x. length x.1.now < length tokens.now) }
{
    let Some((token, rest)) = next(tokens) else {
        return Err(Fault::Unexpected(0));
    };
    match token.kind {
        TokenKind::Number => match number(token.text) {
            Some(n) => Ok((made::number(n), rest)),
            None => Err(Fault::Unexpected(tokens.len())),
        },
        TokenKind::Name => read_name_or_call(alloc, name_of(alloc, &token)?, rest),
        TokenKind::Text => Err(Fault::Unexpected(tokens.len())),
        TokenKind::Mark => match unary_of(token.text) {
            Some(op) => read_unary(alloc, op, rest),
            None => {
                if is_mark(&token, b'(') {
                    read_group(alloc, rest)
                } else {
                    Err(Fault::Unexpected(tokens.len()))
                }
            }
        },
    }
}

// The operand of an operator that stands before it.
#[cycle(parser)]
#[inline(never)]
#[tactic(auto, using(crate::proofs::Fix::fixes))]
fn read_unary<'t, 'a>(
    alloc: Global,
    op: UnaryOp,
    tokens: &'t [Token<'a>],
) -> Result<(Expr, &'t [Token<'a>]), Fault>
    ensures reads { GivesReading (λ x. (tree x.0, lexemes x.1.now)) result (reading.signed reading.read op (lexemes tokens.now)) }
    ensures shorter { IfOk result (λ x. length x.1.now < length tokens.now) }
{
    let (inner, rest) = operand(alloc, tokens)?;
    Ok((made::unary(alloc, op, inner)?, rest))
}

// A name, or a call of it, after the name.
#[cycle(parser)]
#[tactic(auto, using(crate::proofs::Fix::fixes))]
fn read_name_or_call<'t, 'a>(
    alloc: Global,
    name: Name,
    tokens: &'t [Token<'a>],
) -> Result<(Expr, &'t [Token<'a>]), Fault>
    ensures reads { GivesReading (λ x. (tree x.0, lexemes x.1.now)) result (reading.name_or_call reading.read name (lexemes tokens.now)) }
    ensures shorter { IfOk result (λ x. length x.1.now ≤ length tokens.now) }
{
    match next(tokens) {
        Some((mark, after)) if is_mark(&mark, b'(') => read_call(alloc, name, after),
        _ => Ok((made::make_name(boxed_name(alloc, name)?), tokens)),
    }
}

// A call, after its opening parenthesis.
#[cycle(parser)]
#[tactic(auto, using(crate::proofs::Fix::fixes))]
fn read_call<'t, 'a>(
    alloc: Global,
    name: Name,
    tokens: &'t [Token<'a>],
) -> Result<(Expr, &'t [Token<'a>]), Fault>
    ensures reads { GivesReading (λ x. (tree x.0, lexemes x.1.now)) result (reading.call_after_name reading.read name (lexemes tokens.now)) }
    ensures shorter { IfOk result (λ x. length x.1.now < length tokens.now) }
{
    let Some((mark, after)) = next(tokens) else {
        return Err(Fault::Unexpected(0));
    };
    if is_mark(&mark, b')') {
        return Ok((made::call(alloc, name, Args::new(alloc))?, after));
    }
    let (args, rest) = arguments(alloc, tokens)?;
    Ok((made::call(alloc, name, args)?, rest))
}

// An argument, and the tokens after it.
#[cycle(parser)]
#[tactic(auto, unfolding(crate::specs::Reading::argument), using(crate::proofs::Fix::fixes))]
fn argument<'t, 'a>(alloc: Global, tokens: &'t [Token<'a>]) -> Result<(Arg, &'t [Token<'a>]), Fault>
    ensures reads { GivesReading (λ x. (arg_tree x.0, lexemes x.1.now)) result (reading.argument reading.read (lexemes tokens.now)) }
    ensures shorter { IfOk result (λ x. length x.1.now < length tokens.now) }
{
    let Some((token, rest)) = next(tokens) else {
        return Err(Fault::Unexpected(0));
    };
    match token.kind {
        TokenKind::Text => match string_of(alloc, &token)? {
            Some(text) => Ok((made::text_arg(text), rest)),
            None => Err(Fault::Unexpected(tokens.len())),
        },
        _ => {
            let (value, rest) = read_expression(alloc, tokens)?;
            Ok((made::expr_arg(token.at, value), rest))
        }
    }
}

// One argument or more, and the tokens after the closing parenthesis.
#[cycle(parser)]
#[tactic(auto, unfolding(crate::specs::Reading::arguments), using(crate::proofs::Fix::fixes))]
fn arguments<'t, 'a>(
    alloc: Global,
    tokens: &'t [Token<'a>],
) -> Result<(Args, &'t [Token<'a>]), Fault>
    ensures reads { GivesReading (λ x. (arg_trees x.0, lexemes x.1.now)) result (reading.arguments reading.read (lexemes tokens.now)) }
    ensures shorter { IfOk result (λ x. length x.1.now < length tokens.now) }
{
    let (first, mut rest) = argument(alloc, tokens)?;
    let room = 1 + usize::from(after_mark(rest, b',').is_some());
    let mut args = Args::with_room(alloc, room)?;
    args.push(first)?;
    while let Some(after) = after_mark(rest, b',') {
        let (arg, later) = argument(alloc, after)?;
        args.push(arg)?;
        rest = later;
    }
    let rest = expect(rest, b')')?;
    Ok((args, rest))
}
