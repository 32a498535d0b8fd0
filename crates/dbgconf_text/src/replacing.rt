//! Starting values put into the text of debug variables.
ghost use Rattle.std.specs.Prelude.{◌≡◌, Err, List, IfOk, MatchBool};
ghost use Rattle.expr_grammar.specs.Lexing.{AreTokensOf, Lexes};
ghost use Rattle.dbgconf_text.specs.Replacing.{AnswersCode, AreCode, HasValues, Replaces};
ghost use Rattle.dbgconf_text.specs.Splicing.{first_left, is_memory};
ghost use Rattle.dbgconf_text.specs.Values.{value_in};

use crate::conf::{Conf, ConfItem};
use crate::splicing::splice;
use crate::values::NamedValues;
use dap_base::{NameText, OutOfMemory, Place};
use expr_grammar::{ParseError, TokenError, Tokens, parse_code, tokens};
use std::alloc::Global;

/// Why values cannot be put into the text of debug variables.
#[derive(Clone, Copy, Debug, PartialEq, Eq)]
pub enum ReplaceFault {
    /// The first name that no `__var` declares, by its place in the text of the names and values.
    UndefinedName(Place),
    /// Memory was refused.
    OutOfMemory,
}

impl From<OutOfMemory> for ReplaceFault {
    ghost use Rattle.std.specs.Prelude.{◌≡◌};
    ghost use Rattle.dbgconf_text.specs.declared.replacing.ReplaceFault.TheVariants as faults;

    ghost from_gives = { λ _ e. e ≡ faults.OutOfMemory };

    fn from(_: OutOfMemory) -> ReplaceFault {
        ReplaceFault::OutOfMemory
    }
}

// Whether memory was refused.
fn is_memory(error: ParseError) -> bool
    ensures { result ≡ is_memory error }
{
    match error {
        ParseError::OutOfMemory => true,
        _ => false,
    }
}

// Whether the tokens are code.
fn is_code(alloc: Global, tokens: &Tokens<'_>) -> Result<bool, OutOfMemory>
    ensures { IfOk result (λ is. MatchBool is (AreCode tokens.now) (AreCode tokens.now → ⊥)) }
{
    match parse_code(alloc, tokens) {
        Ok(_) => Ok(true),
        Err(error) => {
            if is_memory(error) {
                Err(OutOfMemory)
            } else {
                Ok(false)
            }
        }
    }
}

// The place of the first name that still has a value.
fn find_left(conf: &[ConfItem], left: &NamedValues) -> Option<Place>
    ensures { result ≡ first_left (value_in left.now) conf.now }
{
    for item in conf {
        if left.has(item.name.text.as_str()) {
            return Some(item.name.at);
        }
    }
    None
}

// The text of code with the values.
fn replace_in_code(
    alloc: Global,
    text: &str,
    tokens: &Tokens<'_>,
    conf: &[ConfItem],
) -> Result<NameText, ReplaceFault>
    requires are { AreTokensOf text.now tokens.now }
    requires code { AreCode tokens.now }
    ensures { AnswersCode text.now tokens.now conf.now result }
{
    let (new, left) = splice(alloc, text, tokens.as_slice(), conf)?;
    if let Some(at) = find_left(conf, &left) {
        return Err(ReplaceFault::UndefinedName(at));
    }
    let new = NameText::new(alloc, new.as_str())?;
    Ok(new)
}

// The text of these tokens with the values.
fn replace_in_tokens(
    alloc: Global,
    text: &str,
    tokens: &Tokens<'_>,
    conf: &[ConfItem],
) -> Result<NameText, ReplaceFault>
    requires { AreTokensOf text.now tokens.now }
    ensures { Replaces text.now conf.now result }
{
    if is_code(alloc, tokens)? {
        return replace_in_code(alloc, text, tokens, conf);
    }
    let same = NameText::new(alloc, text)?;
    Ok(same)
}

// A text without tokens, as it is.
fn keep_text(alloc: Global, text: &str, error: TokenError) -> Result<NameText, ReplaceFault>
    requires { Lexes text.now (Err error) }
    ensures { (conf : List ConfItem) → Replaces text.now conf result }
{
    match error {
        TokenError::BadToken(_) => {
            let same = NameText::new(alloc, text)?;
            Ok(same)
        }
        TokenError::OutOfMemory => Err(ReplaceFault::OutOfMemory),
    }
}

// The text with the values, or as it is.
fn replace_in_text(alloc: Global, text: &str, conf: &[ConfItem]) -> Result<NameText, ReplaceFault>
    ensures { Replaces text.now conf.now result }
{
    match tokens(alloc, text) {
        Ok(tokens) => replace_in_tokens(alloc, text, &tokens, conf),
        Err(error) => keep_text(alloc, text, error),
    }
}

/// The text of debug variables with these values. In the first declaration of each name, a space and the value take the place of what stood
/// between `=` and `;`. The value is `0x` and its digits in lower case without leading zeros. All else stays, byte for byte. A text that is
/// no code is answered as it is. Where a name stands twice in the list, its first value counts.
///
/// `UndefinedName` exactly where the text is code and some name of the list is declared by no `__var` of it. The place is that of the first
/// such name in the text of the names and values. `OutOfMemory` where memory is refused.
pub fn replace(alloc: Global, debugvars: &str, conf: &Conf) -> Result<NameText, ReplaceFault>
    ensures answer { Replaces debugvars.now conf.now result }
    ensures tree { IfOk result (HasValues debugvars.now conf.now) }
{
    replace_in_text(alloc, debugvars, conf.as_slice())
}
