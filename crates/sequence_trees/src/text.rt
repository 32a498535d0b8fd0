//! Texts, read as code or as a condition.

ghost use Rattle.std.specs.Prelude.{List};
ghost use Rattle.dap_base.specs.declared.text.Place.{Place};
ghost use Rattle.expr_grammar.specs.Tree.{Tree, tree, StmtTree, code_trees};
ghost use Rattle.sequence_trees.specs.Texts.{IsCodeOf, IsConditionOf, IsFaultyCode, IsFaultyCondition};
ghost use Rattle.sequence_trees.specs.Answers.{AnswersCode, AnswersCondition, GivesValue, ReportsPlace};

use dap_base::Place;
use expr_grammar::{Code, Expr, ParseError, TokenError, parse_code, parse_expr, tokens};
use std::alloc::Global;

/// Why a text was not read.
#[derive(Clone, Copy, Debug, PartialEq, Eq)]
pub enum TextFault {
    /// The text is no code, or no expression; its first fault is at this place.
    Syntax(Place),
    /// Memory was refused.
    OutOfMemory,
}

impl From<TokenError> for TextFault {
    ghost use Rattle.std.specs.Prelude.{◌≡◌};
    ghost use Rattle.sequence_trees.specs.Answers.{token_fault};

    ghost from_gives = { λ error fault. fault ≡ token_fault error };

    fn from(error: TokenError) -> TextFault {
        match error {
            TokenError::BadToken(at) => TextFault::Syntax(at),
            TokenError::OutOfMemory => TextFault::OutOfMemory,
        }
    }
}

impl From<ParseError> for TextFault {
    ghost use Rattle.std.specs.Prelude.{◌≡◌};
    ghost use Rattle.sequence_trees.specs.Answers.{parse_fault};

    ghost from_gives = { λ error fault. fault ≡ parse_fault error };

    fn from(error: ParseError) -> TextFault {
        match error {
            ParseError::Unexpected(at) | ParseError::TooDeep(at) => TextFault::Syntax(at),
            ParseError::OutOfMemory => TextFault::OutOfMemory,
        }
    }
}

/// The code that `text` is: its statements, in order.
///
/// `Syntax` exactly where the text is no code, with the place of its first fault. That is its first bad token. In a text without one it is
/// the first token that is unexpected or too deep, or the place just past the last token where the end is missing. `OutOfMemory` where
/// memory is refused.
pub fn read_code(alloc: Global, text: &str) -> Result<Code, TextFault>
    ensures answer { AnswersCode text.now result }
    ensures only { (code : List StmtTree) → IsCodeOf text.now code → GivesValue code_trees code result }
    ensures only_fault { (at : Place) → IsFaultyCode text.now at → ReportsPlace at result }
{
    code_of(alloc, text)
}

/// The expression that `text` is, as the condition of an `if` or a `while`.
///
/// `Syntax` exactly where the text is no expression, with the place of its first fault, as in
/// [`read_code`]. `OutOfMemory` where memory is refused.
pub fn read_condition(alloc: Global, text: &str) -> Result<Expr, TextFault>
    ensures answer { AnswersCondition text.now result }
    ensures only { (e : Tree) → IsConditionOf text.now e → GivesValue tree e result }
    ensures only_fault { (at : Place) → IsFaultyCondition text.now at → ReportsPlace at result }
{
    condition_of(alloc, text)
}

fn code_of(alloc: Global, text: &str) -> Result<Code, TextFault>
    ensures { AnswersCode text.now result }
{
    let found = tokens(alloc, text)?;
    Ok(parse_code(alloc, &found)?)
}

fn condition_of(alloc: Global, text: &str) -> Result<Expr, TextFault>
    ensures { AnswersCondition text.now result }
{
    let found = tokens(alloc, text)?;
    Ok(parse_expr(alloc, &found)?)
}
