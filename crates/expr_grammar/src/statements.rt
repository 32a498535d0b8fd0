//! Statements.

ghost use Rattle.std.specs.Prelude.{◌≡◌, ◌<◌, length, IfOk, IfErr, IfSome, Ok, [], List};
ghost use Rattle.expr_grammar.specs.Tree.{tree, stmt_tree, code_trees};
ghost use Rattle.expr_grammar.specs.Lexeme.{Lexeme, lexemes};
ghost use Rattle.expr_grammar.specs.Reading as reading;
ghost use Rattle.expr_grammar.specs.Reading.{GivesReading};
ghost use Rattle.expr_grammar.specs.Found.{found_statements};

use crate::code::{Code, Stmt};
use crate::cursor::{expect, expect_name, next};
use crate::fault::Fault;
use crate::made;
use crate::operators::{is_declaration, is_mark};
use crate::parser::read_expression;
use crate::token::Token;
use dap_base::Place;
use std::alloc::Global;

// A declaration, after `__var`.
#[tactic(auto, unfolding(crate::specs::Reading::declaration_after))]
fn declaration<'t, 'a>(
    alloc: Global,
    tokens: &'t [Token<'a>],
) -> Result<(Stmt, &'t [Token<'a>]), Fault>
    ensures reads { GivesReading (λ x. (stmt_tree x.0, lexemes x.1.now)) result (reading.declaration_after reading.read (lexemes tokens.now)) }
    ensures shorter { IfOk result (λ x. length x.1.now < length tokens.now) }
{
    let (name, rest) = expect_name(alloc, tokens)?;
    let rest = expect(rest, b'=')?;
    let (value, rest) = read_expression(alloc, rest)?;
    let rest = expect(rest, b';')?;
    Ok((made::declaration(name, value), rest))
}

// An expression and its semicolon.
#[tactic(auto, unfolding(crate::specs::Reading::plain))]
fn read_plain<'t, 'a>(
    alloc: Global,
    at: Place,
    tokens: &'t [Token<'a>],
) -> Result<(Stmt, &'t [Token<'a>]), Fault>
    ensures reads { GivesReading (λ x. (stmt_tree x.0, lexemes x.1.now)) result (reading.plain reading.read at (lexemes tokens.now)) }
    ensures shorter { IfOk result (λ x. length x.1.now < length tokens.now) }
{
    let (value, rest) = read_expression(alloc, tokens)?;
    let rest = expect(rest, b';')?;
    Ok((made::make_plain(at, value), rest))
}

// A statement, and the tokens after it.
#[tactic(auto, unfolding(crate::specs::Reading::statement))]
fn statement<'t, 'a>(
    alloc: Global,
    tokens: &'t [Token<'a>],
) -> Result<(Stmt, &'t [Token<'a>]), Fault>
    ensures reads { GivesReading (λ x. (stmt_tree x.0, lexemes x.1.now)) result (reading.statement reading.read (lexemes tokens.now)) }
    ensures shorter { IfOk result (λ x. length x.1.now < length tokens.now) }
{
    let Some((token, rest)) = next(tokens) else {
        return Err(Fault::Unexpected(0));
    };
    if is_mark(&token, b';') {
        Ok((made::make_empty(token.at), rest))
    } else if is_declaration(&token) {
        declaration(alloc, rest)
    } else {
        read_plain(alloc, token.at, tokens)
    }
}

// A statement and the tokens after it, or nothing where no token is left.
#[tactic(auto, unfolding(crate::specs::Reading::statements))]
fn next_statement<'t, 'a>(
    alloc: Global,
    tokens: &'t [Token<'a>],
) -> Result<Option<(Stmt, &'t [Token<'a>])>, Fault>
    ensures reads { IfOk result (λ found. reading.statements reading.read (lexemes tokens.now) ≡ found_statements found) }
    ensures fails { IfErr result (λ f. reading.Fails f (reading.statements reading.read (lexemes tokens.now))) }
    ensures shorter { IfOk result (λ found. IfSome found (λ x. length x.1.now < length tokens.now)) }
{
    if tokens.is_empty() {
        return Ok(None);
    }
    Ok(Some(statement(alloc, tokens)?))
}

/// All of the tokens as statements.
pub fn statements(alloc: Global, tokens: &[Token<'_>]) -> Result<Code, Fault>
    ensures { GivesReading (λ code. let none : List Lexeme = [] in (code_trees code, none)) result (reading.statements reading.read (lexemes tokens.now)) }
{
    let room = tokens.iter().filter(|t| is_mark(t, b';')).count();
    let mut code = Code::with_room(alloc, room)?;
    let mut found = next_statement(alloc, tokens)?;
    while let Some((statement, rest)) = found {
        code.push(statement)?;
        found = next_statement(alloc, rest)?;
    }
    Ok(code)
}
