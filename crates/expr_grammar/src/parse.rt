//! Code and expressions from all of a list of tokens.

ghost use Rattle.std.specs.Prelude.{◌≡◌, ℕ, ◌≤◌, length, List};
ghost use Rattle.expr_grammar.specs.Tree.{Tree, tree, StmtTree, code_trees};
ghost use Rattle.expr_grammar.specs.Lexeme.{lexemes};
ghost use Rattle.expr_grammar.specs.Grammar.{ReadsExpr, ReadsCode};
ghost use Rattle.expr_grammar.specs.Reading as reading;
ghost use Rattle.expr_grammar.specs.Reading.{GivesReading, all_of};
ghost use Rattle.expr_grammar.specs.Refusal.{AnswersParse, IsAccepted, IsUnexpectedFirst, IsDeepFirst};
ghost use Rattle.expr_grammar.specs.Refusal.{Accepts, Refuses, place_of};
ghost use Rattle.expr_grammar.specs.Counting.{limited_answer};
ghost use Rattle.expr_grammar.specs.declared.limit.Span.TheVariants.{Text, Statement};

use crate::code::{Code, Expr};
use crate::fault::Fault;
use crate::limit::{Span, limit_of};
use crate::parser::read_expression;
use crate::statements::statements;
use crate::token::Token;
use crate::token_list::Tokens;
use dap_base::Place;
use std::alloc::Global;

/// Why tokens are no code, or no expression.
#[derive(Clone, Copy, Debug, PartialEq, Eq)]
pub enum ParseError {
    /// The first token such that no code (or expression) begins with the tokens up to it. Where the end is missing, the place just past the
    /// last token, or 1:1 where there is no token.
    Unexpected(Place),
    /// The 65th parenthesis that is open at once, or the 513th token of a statement or of an
    /// expression.
    TooDeep(Place),
    /// Memory was refused.
    OutOfMemory,
}

/// The expression that the tokens are.
///
/// `Unexpected` exactly where some token is unexpected, at the first such. `TooDeep` exactly at the
/// 65th parenthesis that is open at once or at the 513th token, whichever is first, where no earlier
/// token is unexpected. `OutOfMemory` where memory is refused.
pub fn parse_expr(alloc: Global, tokens: &Tokens<'_>) -> Result<Expr, ParseError>
    ensures answer { AnswersParse tree ReadsExpr Text tokens.now result }
    ensures only { (e : Tree) → IsAccepted ReadsExpr Text tokens.now e → Accepts tree e result }
    ensures only_unexpected { (i : ℕ) → IsUnexpectedFirst ReadsExpr Text tokens.now i
        → Refuses (ParseError.Unexpected (place_of tokens.now i)) result }
    ensures only_too_deep { (i : ℕ) → IsDeepFirst ReadsExpr Text tokens.now i
        → Refuses (ParseError.TooDeep (place_of tokens.now i)) result }
{
    expr_answer(alloc, tokens)
}

/// The code that the tokens are: their statements, in order.
///
/// `Unexpected` exactly where some token is unexpected, at the first such. `TooDeep` exactly at the 65th parenthesis that is open at once
/// or at the 513th token of a statement, whichever is first, where no earlier token is unexpected. The tokens of a statement are counted
/// from its first one, `__var` and `;` among them. `OutOfMemory` where memory is refused.
pub fn parse_code(alloc: Global, tokens: &Tokens<'_>) -> Result<Code, ParseError>
    ensures answer { AnswersParse code_trees ReadsCode Statement tokens.now result }
    ensures only { (code : List StmtTree) → IsAccepted ReadsCode Statement tokens.now code
        → Accepts code_trees code result }
    ensures only_unexpected { (i : ℕ) → IsUnexpectedFirst ReadsCode Statement tokens.now i
        → Refuses (ParseError.Unexpected (place_of tokens.now i)) result }
    ensures only_too_deep { (i : ℕ) → IsDeepFirst ReadsCode Statement tokens.now i
        → Refuses (ParseError.TooDeep (place_of tokens.now i)) result }
{
    code_answer(alloc, tokens)
}

// The expression, or the place where there is none.
fn expr_answer(alloc: Global, tokens: &Tokens<'_>) -> Result<Expr, ParseError>
    ensures { AnswersParse tree ReadsExpr Text tokens.now result }
{
    let all = tokens.as_slice();
    let limit = limit_of(all, Span::Text);
    answer(expression(alloc, &all[..limit]), tokens, limit)
}

// The statements, or the place where there are none.
fn code_answer(alloc: Global, tokens: &Tokens<'_>) -> Result<Code, ParseError>
    ensures { AnswersParse code_trees ReadsCode Statement tokens.now result }
{
    let all = tokens.as_slice();
    let limit = limit_of(all, Span::Statement);
    answer(code(alloc, &all[..limit]), tokens, limit)
}

// An expression that all of the tokens are.
fn expression(alloc: Global, tokens: &[Token<'_>]) -> Result<Expr, Fault>
    ensures { GivesReading tree result (all_of (reading.whole reading.read) (lexemes tokens.now)) }
{
    let (e, rest) = read_expression(alloc, tokens)?;
    if !rest.is_empty() {
        return Err(Fault::Unexpected(rest.len()));
    }
    Ok(e)
}

// Statements that all of the tokens are.
fn code(alloc: Global, tokens: &[Token<'_>]) -> Result<Code, Fault>
    ensures { GivesReading code_trees result
        (all_of (reading.statements reading.read) (lexemes tokens.now)) }
{
    statements(alloc, tokens)
}

// The answer, from what was read of the tokens before the limit. A token at the limit is too deep, also
// where it is unexpected.
fn answer<V: Drop>(
    outcome: Result<V, Fault>,
    tokens: &Tokens<'_>,
    limit: usize,
) -> Result<V, ParseError>
    requires { limit ≤ length tokens.now }
    ensures { result ≡ limited_answer outcome tokens.now limit }
{
    match outcome {
        Ok(value) => {
            if limit == tokens.len() {
                Ok(value)
            } else {
                Err(ParseError::TooDeep(tokens.place(limit)))
            }
        }
        Err(Fault::Memory) => Err(ParseError::OutOfMemory),
        Err(Fault::Unexpected(left)) => {
            if left == 0 && limit < tokens.len() {
                Err(ParseError::TooDeep(tokens.place(limit)))
            } else {
                Err(ParseError::Unexpected(tokens.place(limit.saturating_sub(left))))
            }
        }
    }
}
