//! Names and values read from a text.
ghost use Rattle.std.specs.Prelude.{◌≡◌, ◌^◌, ◌<◌, ℕ, IfErr, IfOk, List, false, length};
ghost use Rattle.expr_grammar.specs.Lexeme.{Lexeme};
ghost use Rattle.expr_grammar.specs.Lexing.{AreTokensOf, IsFirstBad, place_at};
ghost use Rattle.expr_grammar.specs.Refusal.{place_of};
ghost use Rattle.dbgconf_text.specs.Conf.{AnswersText, AnswersTokens, GivesItems, IsConf, IsRepeatedFirst, IsUnexpectedFirst, Refuses, has_item};
ghost use Rattle.dbgconf_text.specs.Written.{AreNames};
ghost use Rattle.dbgconf_text.specs.Turns.{IsNameAt, IsNext, IsRefusal, Stands, token_fault};

use crate::conf::{Conf, ConfFault, ConfItem};
use crate::found::IndexedConf;
use crate::marks::{is_mark_at, number_at};
use dap_base::NameText;
use expr_grammar::{Name, TokenError, TokenKind, Tokens, tokens};
use std::alloc::Global;

// The name at this index, where it is one that does not stand before.
fn read_name(
    alloc: Global,
    tokens: &Tokens<'_>,
    index: usize,
    found: &IndexedConf,
) -> Result<Name, ConfFault>
    requires stands { Stands tokens.now index found.now }
    requires here { index < length tokens.now }
    ensures name { IfOk result (IsNameAt tokens.now index) }
    ensures fresh { IfOk result (λ n. has_item found.now n.text ≡ false) }
    ensures refused { IfErr result (IsRefusal tokens.now) }
{
    let Some(token) = tokens.get(index) else {
        unreachable!();
    };
    match token.kind {
        TokenKind::Name => {}
        _ => return Err(ConfFault::Unexpected(tokens.place(index))),
    }
    if found.has(token.text) {
        return Err(ConfFault::Repeated(tokens.place(index)));
    }
    let text = NameText::new(alloc, token.text)?;
    Ok(Name { text, at: token.at })
}

// The name and its value that begin at this index.
fn read_item(
    alloc: Global,
    tokens: &Tokens<'_>,
    index: usize,
    found: &IndexedConf,
) -> Result<ConfItem, ConfFault>
    requires stands { Stands tokens.now index found.now }
    requires here { index < length tokens.now }
    requires fits { length tokens.now < 2 ^ 64 }
    ensures next { IfOk result (IsNext tokens.now index found.now) }
    ensures refused { IfErr result (IsRefusal tokens.now) }
{
    let name = read_name(alloc, tokens, index, found)?;
    if !is_mark_at(tokens, index + 1, b'=') {
        return Err(ConfFault::Unexpected(tokens.place(index + 1)));
    }
    let Some(value) = number_at(tokens, index + 2) else {
        return Err(ConfFault::Unexpected(tokens.place(index + 2)));
    };
    if !is_mark_at(tokens, index + 3, b';') {
        return Err(ConfFault::Unexpected(tokens.place(index + 3)));
    }
    Ok(ConfItem { name, value })
}

// All of the tokens as names and values.
fn read_items(alloc: Global, tokens: &Tokens<'_>) -> Result<Conf, ConfFault>
    ensures { AnswersTokens tokens.now result }
{
    let mut found = IndexedConf::new(alloc);
    let mut index = 0;
    while index < tokens.len() {
        let item = read_item(alloc, tokens, index, &found)?;
        found = found.with(alloc, item)?;
        index += 4;
    }
    Ok(found.into_conf())
}

// Why a text has no tokens, as a fault.
fn explain(error: TokenError) -> ConfFault
    ensures { result ≡ token_fault error }
{
    match error {
        TokenError::BadToken(at) => ConfFault::BadToken(at),
        TokenError::OutOfMemory => ConfFault::OutOfMemory,
    }
}

// The names and values of the text, or why there are none.
fn read_text(alloc: Global, text: &str) -> Result<Conf, ConfFault>
    ensures { AnswersText text.now result }
{
    match tokens(alloc, text) {
        Ok(tokens) => read_items(alloc, &tokens),
        Err(error) => Err(explain(error)),
    }
}

/// The names and values of a text: `name = number ;` any number of times, with the tokens, blanks and comments of code.
///
/// `BadToken` exactly where some place of the text is reached from which no token, blank or comment can be taken, with the first such
/// place. Else `Unexpected` exactly where some token is such that no such text begins with the tokens up to it, at the first such. Where
/// the end is missing it is just past the last token (1:1 where there is no token). `Repeated` exactly where a name stands before, at the
/// first such. Of these two the earlier place counts. `OutOfMemory` where memory is refused.
pub fn conf_of(alloc: Global, text: &str) -> Result<Conf, ConfFault>
    ensures answer { AnswersText text.now result }
    ensures names { IfOk result AreNames }
    ensures only { (ts : List Lexeme) (conf : List ConfItem) → AreTokensOf text.now ts → IsConf ts conf → GivesItems conf result }
    ensures only_bad { (at : ℕ) → IsFirstBad text.now at → Refuses (ConfFault.BadToken (place_at text.now at)) result }
    ensures only_unexpected { (ts : List Lexeme) (i : ℕ) → AreTokensOf text.now ts → IsUnexpectedFirst ts i
        → Refuses (ConfFault.Unexpected (place_of ts i)) result }
    ensures only_repeated { (ts : List Lexeme) (i : ℕ) → AreTokensOf text.now ts → IsRepeatedFirst ts i
        → Refuses (ConfFault.Repeated (place_of ts i)) result }
{
    read_text(alloc, text)
}
