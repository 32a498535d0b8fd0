//! The tokens of a text, and how a text is cut into them.

ghost use Rattle.std.specs.Prelude.{◌≡◌, ◌≤◌, length, MatchOption, slice_get, Some};
ghost use Rattle.expr_grammar.specs.Lexeme.{lexeme, lexemes};
ghost use Rattle.expr_grammar.specs.Lexing.{AreTokensOf};
ghost use Rattle.expr_grammar.specs.Refusal.{place_of};
ghost use Rattle.expr_grammar.specs.declared.token_list.TokenError.TheVariants.{OutOfMemory as NoMemory};

use crate::token::Token;
use dap_base::{ItemList, OutOfMemory, Place};
use std::marker::Model;

/// Why a text has no list of tokens.
#[derive(Clone, Copy, Debug, PartialEq, Eq)]
pub enum TokenError {
    /// The first place from which no token, blank or comment can be taken.
    BadToken(Place),
    /// Memory was refused.
    OutOfMemory,
}

impl From<OutOfMemory> for TokenError {
    ghost from_gives = { λ _ e. e ≡ NoMemory };

    fn from(_: OutOfMemory) -> TokenError {
        TokenError::OutOfMemory
    }
}

/// The tokens of some text, in order. Only [`tokens`] makes one.
#[derive(Debug, Drop)]
pub struct Tokens<'a> {
    text: &'a str,
    items: ItemList<Token<'a>>,
}

impl<'a> Model for Tokens<'a> {
    ghost use Rattle.std.specs.Prelude.{List};
    ghost use Rattle.expr_grammar.specs.Lexeme.{Lexeme, lexemes};

    ghost Value = { List Lexeme };

    ghost use Rattle.expr_grammar.specs.Lexing.{AreTokensOf};
    ghost use Rattle.expr_grammar.specs.Refusal.{place_of};

    ghost view = { λ s. lexemes s.items };

    ghost invariant = { λ s. AreTokensOf s.text.now (lexemes s.items) };
}

impl<'a> Tokens<'a> {
    /// These tokens of the text.
    pub(crate) fn of_text(text: &'a str, items: ItemList<Token<'a>>) -> Tokens<'a>
        requires { AreTokensOf text.now (lexemes items) }
        ensures { result ≡ lexemes items.entry }
    {
        Tokens { text, items }
    }

    /// The number of tokens.
    pub fn len(&self) -> usize
        ensures { result ≡ length self.now }
    {
        self.items.len()
    }

    /// The token at `index`, counted from 0. `None` exactly past the end.
    pub fn get(&self, index: usize) -> Option<&Token<'a>>
        ensures { MatchOption result (length self.now ≤ index) (λ t. slice_get self.now index ≡ Some (lexeme t.now)) }
    {
        self.items.get(index)
    }

    /// All tokens, in order, lent without a copy.
    pub fn as_slice(&self) -> &[Token<'a>]
        ensures { lexemes result.now ≡ self.now }
    {
        self.items.as_slice()
    }

    /// The place of the token at `index`, counted from 0, at most the number of tokens. At that number it is the place just past the
    /// last token, on its line; with no token, 1:1.
    pub fn place(&self, index: usize) -> Place
        requires { index ≤ length self.now }
        ensures { result ≡ place_of self.now index }
    {
        let tokens = self.items.as_slice();
        if index < tokens.len() {
            return tokens[index].at;
        }
        if tokens.is_empty() {
            return Place { line: 1, column: 1 };
        }
        let last = tokens[tokens.len() - 1];
        Place {
            line: last.at.line,
            column: last.at.column + last.text.len() as u64,
        }
    }
}
