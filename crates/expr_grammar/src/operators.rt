//! What a token stands for: marks, operators and how tightly they bind, and strings.

ghost use Rattle.std.specs.Prelude.{◌≡◌, ◌∷◌, [], codes, ◌≤◌, MatchOption, None, Some, IfOk};
ghost use Rattle.expr_grammar.specs.Grammar as spec;
ghost use Rattle.expr_grammar.specs.Lexeme.{lexeme};
ghost use Rattle.expr_grammar.specs.Reading as reading;

use crate::code::{BinaryOp, Name, TextArg, UnaryOp};
use crate::token::{Token, TokenKind};
use dap_base::{NameText, OutOfMemory};
use std::alloc::Global;

/// Whether the token is this mark.
pub fn is_mark(token: &Token<'_>, mark: u8) -> bool
    ensures { result ≡ reading.is_mark (mark ∷ []) (lexeme token.now) }
{
    match token.kind {
        TokenKind::Mark => match token.text.as_bytes() {
            [only] => *only == mark,
            _ => false,
        },
        _ => false,
    }
}

/// Whether the token is the keyword `__var`.
pub fn is_declaration(token: &Token<'_>) -> bool
    ensures { result ≡ reading.is_mark (codes "__var") (lexeme token.now) }
{
    match token.kind {
        TokenKind::Mark => token.text == "__var",
        _ => false,
    }
}

/// The operator before an operand that is written so.
pub fn unary_of(text: &str) -> Option<UnaryOp>
    ensures { result ≡ reading.unary_of text.now }
{
    match text.as_bytes() {
        b"!" => Some(UnaryOp::Not),
        b"~" => Some(UnaryOp::Flip),
        b"-" => Some(UnaryOp::Minus),
        b"+" => Some(UnaryOp::Plus),
        _ => None,
    }
}

fn operator_of(text: &str) -> Option<BinaryOp>
    ensures { result ≡ reading.operator_of text.now }
{
    match text.as_bytes() {
        b"*" => Some(BinaryOp::Mul),
        b"/" => Some(BinaryOp::Div),
        b"%" => Some(BinaryOp::Rem),
        b"+" => Some(BinaryOp::Add),
        b"-" => Some(BinaryOp::Sub),
        b"<<" => Some(BinaryOp::Shl),
        b">>" => Some(BinaryOp::Shr),
        b"<" => Some(BinaryOp::Lt),
        b"<=" => Some(BinaryOp::Le),
        b">" => Some(BinaryOp::Gt),
        b">=" => Some(BinaryOp::Ge),
        b"==" => Some(BinaryOp::Eq),
        b"!=" => Some(BinaryOp::Ne),
        b"&" => Some(BinaryOp::BitAnd),
        b"^" => Some(BinaryOp::BitXor),
        b"|" => Some(BinaryOp::BitOr),
        b"&&" => Some(BinaryOp::And),
        b"||" => Some(BinaryOp::Or),
        _ => None,
    }
}

/// The operator between operands that the token is.
#[tactic(auto, unfolding(crate::specs::Reading::binary_of))]
pub fn binary_of(token: &Token<'_>) -> Option<BinaryOp>
    ensures { result ≡ reading.binary_of (lexeme token.now) }
{
    match token.kind {
        TokenKind::Mark => operator_of(token.text),
        _ => None,
    }
}

/// How tightly the operator binds.
pub fn level(op: BinaryOp) -> u8
    ensures value { result ≡ spec.level op }
    ensures least { 2 ≤ result }
    ensures most { result ≤ 11 }
{
    match op {
        BinaryOp::Or => 2,
        BinaryOp::And => 3,
        BinaryOp::BitOr => 4,
        BinaryOp::BitXor => 5,
        BinaryOp::BitAnd => 6,
        BinaryOp::Eq | BinaryOp::Ne => 7,
        BinaryOp::Lt | BinaryOp::Le | BinaryOp::Gt | BinaryOp::Ge => 8,
        BinaryOp::Shl | BinaryOp::Shr => 9,
        BinaryOp::Add | BinaryOp::Sub => 10,
        BinaryOp::Mul | BinaryOp::Div | BinaryOp::Rem => 11,
    }
}

/// The name that the token writes.
pub fn name_of(alloc: Global, token: &Token<'_>) -> Result<Name, OutOfMemory>
    ensures { IfOk result (λ n. n ≡ reading.name_of (lexeme token.now)) }
{
    Ok(Name {
        text: NameText::new(alloc, token.text)?,
        at: token.at,
    })
}

/// The name, where a tree has it.
pub fn boxed_name(alloc: Global, name: Name) -> Result<Box<Name>, OutOfMemory>
    ensures { IfOk result (λ n. n.value ≡ name) }
{
    Box::new(alloc, name).map_err(|_| OutOfMemory)
}

/// What stands between the quotes of a string.
pub fn between_quotes(text: &str) -> Option<&str>
    ensures { MatchOption result (reading.between_quotes text.now ≡ None) (λ t. reading.between_quotes text.now ≡ Some t.now) }
{
    match text.strip_prefix('"') {
        Some(rest) => rest.strip_suffix('"'),
        None => None,
    }
}

/// The string that the token is, if it has both quotes.
pub fn string_of(alloc: Global, token: &Token<'_>) -> Result<Option<Box<TextArg>>, OutOfMemory>
    ensures { IfOk result (λ s. MatchOption s (reading.between_quotes token.now.text.now ≡ None)
        (λ t. (reading.between_quotes token.now.text.now ≡ Some t.value.text) × (t.value.at ≡ token.now.at))) }
{
    match between_quotes(token.text) {
        Some(text) => {
            let text = TextArg {
                text: NameText::new(alloc, text)?,
                at: token.at,
            };
            Ok(Some(Box::new(alloc, text).map_err(|_| OutOfMemory)?))
        }
        None => Ok(None),
    }
}
