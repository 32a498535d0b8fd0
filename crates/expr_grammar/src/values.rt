//! The values of operators.

ghost use Rattle.std.specs.Prelude.{◌≡◌};
ghost use Rattle.expr_grammar.specs.Arithmetic as arithmetic;

use crate::code::{BinaryOp, UnaryOp};

/// The value of an operator before an operand: `!` gives 1 for 0 and else 0, `~` flips all 64 bits,
/// `-` is modulo 2^64, `+` leaves the value.
pub fn unary_value(op: UnaryOp, value: u64) -> u64
    ensures { result ≡ arithmetic.unary_value op value }
{
    match op {
        UnaryOp::Not => u64::from(value == 0),
        UnaryOp::Flip => !value,
        UnaryOp::Minus => value.wrapping_neg(),
        UnaryOp::Plus => value,
    }
}

/// The value of an operator between its operands. Sums, differences and products are modulo 2^64, a
/// shift by 64 or more gives 0, comparisons are unsigned, and comparisons, `&&` and `||` give 1 or 0.
/// `None` exactly for `/` and `%` at a right operand 0.
pub fn binary_value(op: BinaryOp, left: u64, right: u64) -> Option<u64>
    ensures { result ≡ arithmetic.binary_value op left right }
{
    match op {
        BinaryOp::Mul => Some(left.wrapping_mul(right)),
        BinaryOp::Div => left.checked_div(right),
        BinaryOp::Rem => left.checked_rem(right),
        BinaryOp::Add => Some(left.wrapping_add(right)),
        BinaryOp::Sub => Some(left.wrapping_sub(right)),
        BinaryOp::Shl => Some(shifted_left(left, right)),
        BinaryOp::Shr => Some(shifted_right(left, right)),
        BinaryOp::Lt => Some(u64::from(left < right)),
        BinaryOp::Le => Some(u64::from(left <= right)),
        BinaryOp::Gt => Some(u64::from(left > right)),
        BinaryOp::Ge => Some(u64::from(left >= right)),
        BinaryOp::Eq => Some(u64::from(left == right)),
        BinaryOp::Ne => Some(u64::from(left != right)),
        BinaryOp::BitAnd => Some(left & right),
        BinaryOp::BitXor => Some(left ^ right),
        BinaryOp::BitOr => Some(left | right),
        BinaryOp::And => Some(u64::from(left != 0 && right != 0)),
        BinaryOp::Or => Some(u64::from(left != 0 || right != 0)),
    }
}

fn shifted_left(left: u64, right: u64) -> u64
    ensures { result ≡ arithmetic.shifted_left left right }
{
    if right < 64 { left << right } else { 0 }
}

fn shifted_right(left: u64, right: u64) -> u64
    ensures { result ≡ arithmetic.shifted_right left right }
{
    if right < 64 { left >> right } else { 0 }
}
