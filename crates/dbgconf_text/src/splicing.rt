//! Numbers put into a text of code, from statement to statement.
ghost use Rattle.std.specs.Prelude.{◌≡◌, ◌+◌, ◌≤◌, ◌++◌, ◌∷◌, ℕ, List, None, Some, length, take, string_bytes, IfOk, OnOk, MatchOption};
ghost use Rattle.expr_grammar.specs.Lexeme.{lexemes};
ghost use Rattle.expr_grammar.specs.Lexing.{AreTokensOf};
ghost use Rattle.text_lines.specs.Hex.{hex};
ghost use Rattle.dbgconf_text.specs.Cuts.{Cut, cuts, semicolon, spliced_text};
ghost use Rattle.dbgconf_text.specs.Replacing.{AreCode, settings_of};
ghost use Rattle.dbgconf_text.specs.Splicing.{CanCut, cut_of, left_after, out_after, pending, rest_after, statement_len};
ghost use Rattle.dbgconf_text.specs.Values.{value_in};

use crate::appending::{append, append_hex};
use crate::conf::ConfItem;
use crate::marks::{is_keyword, is_mark};
use crate::values::NamedValues;
use dap_base::OutOfMemory;
use expr_grammar::Token;
use std::alloc::Global;

// Where the next `;` begins.
fn find_semicolon(tokens: &[Token<'_>]) -> usize
    ensures { result ≡ semicolon (lexemes tokens.now) }
{
    for token in tokens {
        if is_mark(token, b';') {
            return token.start;
        }
    }
    0
}

// The tokens of the first statement.
fn first_statement<'a, 't>(tokens: &'a [Token<'t>]) -> &'a [Token<'t>]
    ensures { result.now ≡ take (statement_len (lexemes tokens.now)) tokens.now }
{
    for (i, token) in tokens.iter().enumerate() {
        if is_mark(token, b';') {
            return &tokens[..i + 1];
        }
    }
    tokens
}

// A number that is put between a `=` and a `;`, by where these begin.
#[derive(Clone, Copy)]
struct Patch {
    equals: usize,
    semi: usize,
    value: u64,
}

// What is put into a statement. A name that is declared there loses its value.
fn take_patch(left: &mut NamedValues, own: &[Token<'_>]) -> Option<Patch>
    ensures patch { MatchOption result (cut_of (value_in left.old) (lexemes own.now) ≡ None)
        (λ p. cut_of (value_in left.old) (lexemes own.now) ≡ Some (record { from = p.equals + 1; to = p.semi; value = p.value })) }
    ensures left { (name : List ℕ) → value_in left.new name ≡ left_after (value_in left.old) (lexemes own.now) name }
{
    let [var, name, equals, after @ ..] = own else {
        return None;
    };
    if !is_keyword(var) {
        return None;
    }
    let value = left.take(name.text)?;
    Some(Patch {
        equals: equals.start,
        semi: find_semicolon(after),
        value,
    })
}

// A text, a space and a number at the end of `out`.
fn append_value(alloc: Global, out: &mut String, front: &str, value: u64) -> Result<(), OutOfMemory>
    ensures { OnOk result (string_bytes out.new ≡ string_bytes out.old ++ (front.now ++ 32 ∷ hex value)) }
{
    append(out, front)?;
    append(out, " ")?;
    append_hex(alloc, out, value)
}

// The text up to a statement's number is put out, and the number; what is left of the text. A statement without a number stays in it.
fn put_statement<'t>(
    alloc: Global,
    text: &str,
    own: &[Token<'_>],
    left: &mut NamedValues,
    rest: &'t str,
    out: &mut String,
) -> Result<&'t str, OutOfMemory>
    requires within { length rest.now ≤ length text.now }
    requires can { (c : Cut) → cut_of (value_in left.old) (lexemes own.now) ≡ Some c → CanCut text.now rest.now c }
    ensures rest { IfOk result (λ tail. tail.now ≡ rest_after text.now rest.now (cut_of (value_in left.old) (lexemes own.now))) }
    ensures out { OnOk result (string_bytes out.new ≡ out_after text.now rest.now (string_bytes out.old) (cut_of (value_in left.old) (lexemes own.now))) }
    ensures left { OnOk result ((name : List ℕ) → value_in left.new name ≡ left_after (value_in left.old) (lexemes own.now) name) }
{
    let Some(patch) = take_patch(left, own) else {
        return Ok(rest);
    };
    let here = text.len() - rest.len();
    let from = patch.equals + 1;
    let (front, after) = rest.split_at(from - here);
    append_value(alloc, out, front, patch.value)?;
    let (_, tail) = after.split_at(patch.semi - from);
    Ok(tail)
}

// The text with the values in the place of those of the first declarations, and the values of the names that it does not declare.
pub fn splice(
    alloc: Global,
    text: &str,
    tokens: &[Token<'_>],
    conf: &[ConfItem],
) -> Result<(String, NamedValues), OutOfMemory>
    requires are { AreTokensOf text.now (lexemes tokens.now) }
    requires code { AreCode (lexemes tokens.now) }
    ensures text { IfOk result (λ r. string_bytes r.0 ≡ spliced_text text.now 0 (cuts (settings_of conf.now) (lexemes tokens.now))) }
    ensures left { IfOk result (λ r. (name : List ℕ) → value_in r.1 name ≡ pending (settings_of conf.now) (lexemes tokens.now) name) }
{
    let mut left = NamedValues::of(alloc, conf)?;
    let mut out = String::new(alloc);
    let mut rest = text;
    let mut start = 0;
    while start < tokens.len() {
        let own = first_statement(&tokens[start..]);
        rest = put_statement(alloc, text, own, &mut left, rest, &mut out)?;
        start += own.len();
    }
    append(&mut out, rest)?;
    Ok((out, left))
}
