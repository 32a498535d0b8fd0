//! Cutting a text into tokens.

ghost use Rattle.std.specs.Prelude.{◌≡◌, ℕ, ◌+◌, ◌<◌, ◌^◌, ◌++◌, List, length};
ghost use Rattle.expr_grammar.specs.Lexeme.{Lexeme};
ghost use Rattle.expr_grammar.specs.Lexing as lexing;
ghost use Rattle.expr_grammar.specs.Lexing.{Lexes, AreTokensOf, GivesTokens, IsFirstBad, GivesBad, place_at};

use crate::front::{Piece, front_piece};
use crate::token::Token;
use crate::token_list::{TokenError, Tokens};
use dap_base::{ItemList, Place};
use std::alloc::Global;

// For how many tokens there is room at first, at most. A text of a block seldom has more than a token for each three bytes.
const MOST_ROOM: usize = 64;

/// The tokens of `text`, in order, each a slice of the text and the longest at its place, with
/// blanks and comments alone between them. `BadToken` exactly where some place of the text is
/// reached from which no token, blank or comment can be taken, with the first such place.
/// `OutOfMemory` where memory is refused. The text is gone through once, and nothing of it is copied.
pub fn tokens<'a>(alloc: Global, text: &'a str) -> Result<Tokens<'a>, TokenError>
    ensures answer { Lexes text.now result }
    ensures only { (ts : List Lexeme) → AreTokensOf text.now ts → GivesTokens ts result }
    ensures only_fault { (bad : ℕ) → IsFirstBad text.now bad → GivesBad (place_at text.now bad) result }
{
    cut_tokens(alloc, text)
}

// The tokens of `text`, or its first bad place.
fn cut_tokens<'a>(alloc: Global, text: &'a str) -> Result<Tokens<'a>, TokenError>
    ensures { Lexes text.now result }
{
    let mut items = ItemList::with_room(alloc, (text.len() / 3 + 1).min(MOST_ROOM))?;
    let mut rest = text;
    let mut at = Place { line: 1, column: 1 };
    while !rest.is_empty() {
        let Some(piece) = front_piece(rest) else {
            return Err(TokenError::BadToken(at));
        };
        let (front, after) = rest.split_at(piece.len());
        let next = place_after(at, front.as_bytes());
        if let Piece::Token(kind, _) = piece {
            items.push(Token {
                kind,
                text: front,
                start: text.len() - rest.len(),
                at,
            })?;
        }
        rest = after;
        at = next;
    }
    Ok(Tokens::of_text(text, items))
}

// The place after these bytes, where the first of them stands at this place.
fn place_after(at: Place, bytes: &[u8]) -> Place
    requires line { at.line + length bytes.now < 2 ^ 64 }
    requires column { at.column + length bytes.now + 1 < 2 ^ 64 }
    ensures { (before : List ℕ) → at ≡ lexing.place_after before → result ≡ lexing.place_after (before ++ bytes.now) }
{
    let mut at = at;
    for b in bytes {
        if *b == b'\n' {
            at = Place {
                line: at.line + 1,
                column: 1,
            };
        } else {
            at.column += 1;
        }
    }
    at
}
