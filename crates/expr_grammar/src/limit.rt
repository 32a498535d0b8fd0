//! How many tokens, and how many open parentheses, an expression or a statement may have.

ghost use Rattle.std.specs.Prelude.{◌≡◌, ◌<◌, ◌≤◌, length};
ghost use Rattle.expr_grammar.specs.Lexeme.{lexeme, lexemes};
ghost use Rattle.expr_grammar.specs.Refusal.{IsDeep, NoneDeepBefore};
ghost use Rattle.expr_grammar.specs.Counting as counting;

use crate::operators::is_mark;
use crate::token::Token;

/// Which tokens are counted together.
#[derive(Clone, Copy, Debug, PartialEq, Eq)]
pub enum Span {
    /// Those of the whole text.
    Text,
    /// Those of a statement, up to its `;`.
    Statement,
}

// How many tokens may be counted together.
const MAX_TOKENS: usize = 512;
// How many parentheses may be open at once.
const MAX_OPEN: usize = 64;

/// How many tokens were counted, and how many parentheses among them.
#[derive(Clone, Copy, Debug)]
pub struct Count {
    tokens: usize,
    opened: usize,
    closed: usize,
}

impl Count {
    // Nothing was counted.
    fn new() -> Count
        ensures { result ≡ counting.nothing_counted }
    {
        Count {
            tokens: 0,
            opened: 0,
            closed: 0,
        }
    }

    // Whether there is no room for this token.
    fn is_full(&self, token: &Token<'_>) -> bool
        ensures { result ≡ counting.is_full self.now (lexeme token.now) }
    {
        self.tokens == MAX_TOKENS
            || (is_mark(token, b'(') && self.opened.saturating_sub(self.closed) == MAX_OPEN)
    }

    // The count with this token, or from nothing after the end of a statement.
    fn with_token(&self, token: &Token<'_>, span: Span) -> Count
        requires tokens { self.now.tokens < 512 }
        requires opened { self.now.opened ≤ 512 }
        requires closed { self.now.closed ≤ 512 }
        ensures { result ≡ counting.with_token span self.now (lexeme token.now) }
    {
        if span == Span::Statement && is_mark(token, b';') {
            return Count::new();
        }
        Count {
            tokens: self.tokens + 1,
            opened: self.opened + usize::from(is_mark(token, b'(')),
            closed: self.closed + usize::from(is_mark(token, b')')),
        }
    }
}

/// The index of the first token that is too deep, or the number of tokens.
pub fn limit_of(tokens: &[Token<'_>], span: Span) -> usize
    ensures within { result ≤ length tokens.now }
    ensures before { NoneDeepBefore span (lexemes tokens.now) result }
    ensures here { result < length tokens.now → IsDeep span (lexemes tokens.now) result }
{
    let mut count = Count::new();
    for (i, token) in tokens.iter().enumerate() {
        if count.is_full(token) {
            return i;
        }
        count = count.with_token(token, span);
    }
    tokens.len()
}
