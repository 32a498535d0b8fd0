//! The marks of operators.
ghost use Rattle.std.specs.Prelude.{◌≡◌};
ghost use Rattle.log_lines.specs.CodeText.{binary_mark};
ghost use Rattle.expr_grammar.specs.Grammar.{unary_text};

use expr_grammar::{BinaryOp, UnaryOp};

pub fn unary_mark(op: UnaryOp) -> &'static str
    ensures { result.now ≡ unary_text op }
{
    match op {
        UnaryOp::Not => "!",
        UnaryOp::Flip => "~",
        UnaryOp::Minus => "-",
        UnaryOp::Plus => "+",
    }
}

pub fn binary_mark(op: BinaryOp) -> &'static str
    ensures { result.now ≡ binary_mark op }
{
    match op {
        BinaryOp::Mul => " * ",
        BinaryOp::Div => " / ",
        BinaryOp::Rem => " % ",
        BinaryOp::Add => " + ",
        BinaryOp::Sub => " - ",
        BinaryOp::Shl => " << ",
        BinaryOp::Shr => " >> ",
        BinaryOp::Lt => " < ",
        BinaryOp::Le => " <= ",
        BinaryOp::Gt => " > ",
        BinaryOp::Ge => " >= ",
        BinaryOp::Eq => " == ",
        BinaryOp::Ne => " != ",
        BinaryOp::BitAnd => " & ",
        BinaryOp::BitXor => " ^ ",
        BinaryOp::BitOr => " | ",
        BinaryOp::And => " && ",
        BinaryOp::Or => " || ",
    }
}
