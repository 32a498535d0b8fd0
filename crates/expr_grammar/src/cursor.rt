//! The next token, and the tokens after it.

ghost use Rattle.std.specs.Prelude.{◌≡◌, ◌<◌, suc, [], ◌∷◌, length, IfOk, Ok, IfSome, MatchOption};
ghost use Rattle.expr_grammar.specs.Lexeme.{lexeme, lexemes};
ghost use Rattle.expr_grammar.specs.Reading as reading;
ghost use Rattle.expr_grammar.specs.Reading.{GivesReading};

use crate::code::Name;
use crate::fault::Fault;
use crate::operators::{boxed_name, is_mark, name_of};
use crate::token::{Token, TokenKind};
use std::alloc::Global;

/// The next token, and the tokens after it.
pub fn next<'t, 'a>(tokens: &'t [Token<'a>]) -> Option<(Token<'a>, &'t [Token<'a>])>
    ensures tokens { MatchOption result (lexemes tokens.now ≡ []) (λ x. lexemes tokens.now ≡ lexeme x.0 ∷ lexemes x.1.now) }
    ensures len { IfSome result (λ x. length tokens.now ≡ suc (length (lexemes x.1.now))) }
    ensures shorter { IfSome result (λ x. length x.1.now < length tokens.now) }
{
    match tokens {
        [token, rest @ ..] => Some((*token, rest)),
        [] => None,
    }
}

/// The tokens after this mark, if it is the next.
pub fn after_mark<'t, 'a>(tokens: &'t [Token<'a>], mark: u8) -> Option<&'t [Token<'a>]>
    ensures tokens { MatchOption result (reading.IsNotNext (mark ∷ []) (lexemes tokens.now)) (λ rest. reading.IsNext (mark ∷ []) (lexemes tokens.now) (lexemes rest.now)) }
    ensures shorter { IfSome result (λ rest. length rest.now < length tokens.now) }
{
    match next(tokens) {
        Some((token, rest)) if is_mark(&token, mark) => Some(rest),
        _ => None,
    }
}

/// The tokens after this mark, which has to be the next.
#[tactic(auto, unfolding(crate::specs::Reading::expect))]
pub fn expect<'t, 'a>(tokens: &'t [Token<'a>], mark: u8) -> Result<&'t [Token<'a>], Fault>
    ensures reads { GivesReading (λ rest. (tt, lexemes rest.now)) result (reading.expect (mark ∷ []) (lexemes tokens.now)) }
    ensures shorter { IfOk result (λ rest. length rest.now < length tokens.now) }
{
    match next(tokens) {
        Some((token, rest)) if is_mark(&token, mark) => Ok(rest),
        _ => Err(Fault::Unexpected(tokens.len())),
    }
}

/// A name, which has to be the next token, and the tokens after it.
#[tactic(auto, unfolding(crate::specs::Reading::name_first))]
pub fn expect_name<'t, 'a>(
    alloc: Global,
    tokens: &'t [Token<'a>],
) -> Result<(Box<Name>, &'t [Token<'a>]), Fault>
    ensures reads { GivesReading (λ x. (x.0.value, lexemes x.1.now)) result (reading.name_first (lexemes tokens.now)) }
    ensures shorter { IfOk result (λ x. length x.1.now < length tokens.now) }
{
    let Some((token, rest)) = next(tokens) else {
        return Err(Fault::Unexpected(0));
    };
    match token.kind {
        TokenKind::Name => Ok((boxed_name(alloc, name_of(alloc, &token)?)?, rest)),
        _ => Err(Fault::Unexpected(tokens.len())),
    }
}
