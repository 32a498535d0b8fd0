//! What a token is.
ghost use Rattle.std.specs.Prelude.{◌≡◌, ◌∷◌, [], codes, slice_get};
ghost use Rattle.expr_grammar.specs.Lexeme.{lexeme};
ghost use Rattle.expr_grammar.specs.Reading as reading;
ghost use Rattle.dbgconf_text.specs.Turns.{is_mark_of, token_number};

use dap_base::number;
use expr_grammar::{Token, TokenKind, Tokens};

// Whether the token is this mark of one byte.
pub fn is_mark(token: &Token<'_>, mark: u8) -> bool
    ensures { result ≡ reading.is_mark (mark ∷ []) (lexeme token.now) }
{
    match token.kind {
        TokenKind::Mark => match token.text.as_bytes() {
            [only] => *only == mark,
            _ => false,
        },
        _ => false,
    }
}

// Whether the token is the keyword `__var`.
pub fn is_keyword(token: &Token<'_>) -> bool
    ensures { result ≡ reading.is_mark (codes "__var") (lexeme token.now) }
{
    match token.kind {
        TokenKind::Mark => token.text == "__var",
        _ => false,
    }
}

// Whether there is a token at this index, which is this mark.
pub fn is_mark_at(tokens: &Tokens<'_>, index: usize, mark: u8) -> bool
    ensures { result ≡ is_mark_of (mark ∷ []) (slice_get tokens.now index) }
{
    match tokens.get(index) {
        Some(token) => is_mark(token, mark),
        None => false,
    }
}

// The number that the token at this index is, if there is one.
pub fn number_at(tokens: &Tokens<'_>, index: usize) -> Option<u64>
    ensures { result ≡ token_number (slice_get tokens.now index) }
{
    match tokens.get(index) {
        Some(token) => match token.kind {
            TokenKind::Number => number(token.text),
            _ => None,
        },
        None => None,
    }
}
