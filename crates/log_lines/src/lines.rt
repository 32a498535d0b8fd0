//! Lines of a log.
ghost use Rattle.std.specs.Prelude.{◌≡◌, ◌++◌, codes, IfOk};
ghost use Rattle.expr_grammar.specs.Tree.{tree};
ghost use Rattle.log_lines.specs.CodeText.{expr_text};
ghost use Rattle.log_lines.specs.LogText.{below_line, chosen_text, margin, opening_line, turns_text};

use crate::code::with_expr;
use dap_base::OutOfMemory;
use expr_grammar::Expr;
use std::alloc::Global;
use text_lines::Line;

/// Two blanks for each sequence that is called.
#[tactic(auto, unfolding(crate::specs::LogText::margin))]
pub fn begin_line(alloc: Global, depth: u32) -> Result<Line, OutOfMemory>
    ensures { IfOk result (λ l. l ≡ margin depth) }
{
    let mut line = Line::begin(alloc, "")?;
    for _ in 0..depth {
        line = line.text("  ")?;
    }
    Ok(line)
}

/// The start of a line below what began.
pub fn begin_below(alloc: Global, depth: u32) -> Result<Line, OutOfMemory>
    ensures { IfOk result (λ l. l ≡ margin depth ++ codes "  ") }
{
    begin_line(alloc, depth)?.text("  ")
}

/// A number of turns.
pub fn with_turns(line: Line, turns: u32) -> Result<Line, OutOfMemory>
    ensures { IfOk result (λ l. l ≡ line ++ turns_text turns) }
{
    let line = line.decimal(u64::from(turns))?;
    if turns == 1 {
        line.text(" turn")
    } else {
        line.text(" turns")
    }
}

/// The condition of a `while`, and how many turns it may make.
pub fn with_loop(alloc: Global, line: Line, expr: &Expr, turns: u32) -> Result<Line, OutOfMemory>
    ensures { IfOk result (λ l. l ≡ line ++ expr_text (tree expr.now) ++ codes "  at most " ++ turns_text turns) }
{
    let line = with_expr(alloc, line, expr)?.text("  at most ")?;
    with_turns(line, turns)
}

/// Whether a control is taken, by the value of its `if`.
pub fn chosen_text(value: u64) -> &'static str
    ensures { result.now ≡ chosen_text value }
{
    if value == 0 { ", skipped" } else { ", taken" }
}
