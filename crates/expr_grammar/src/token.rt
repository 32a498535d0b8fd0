//! Tokens, the smallest parts of code that mean something.

use dap_base::Place;

/// What a token is.
#[derive(Clone, Copy, Debug, PartialEq, Eq)]
pub enum TokenKind {
    /// Decimal digits without a leading 0, or `0`, or `0x` or `0X` and hexadecimal digits.
    Number,
    /// An identifier: an ASCII letter or `_`, then ASCII letters, digits and `_`, but not `__var`.
    Name,
    /// A string between double quotes.
    Text,
    /// An operator, a parenthesis, a separator or the keyword `__var`.
    Mark,
}

/// A token of a text, which it borrows.
#[derive(Clone, Copy, Debug)]
pub struct Token<'a> {
    /// What the token is.
    pub kind: TokenKind,
    /// The bytes of the token, a slice of the text; those of a string with both quotes.
    pub text: &'a str,
    /// The offset of the token's first byte in the text, in bytes from 0.
    pub start: usize,
    /// The line and the column of the token's first byte.
    pub at: Place,
}
