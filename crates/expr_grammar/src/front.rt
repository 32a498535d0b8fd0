//! What stands at the front of a text: blanks, a comment, or a token.

ghost use Rattle.std.specs.Prelude.{◌≡◌, ◌<◌, ◌≤◌, ◌&&◌, ◌==◌, true, false, length, slice_index, Some};
ghost use Rattle.std.specs.List.{prefix_len};
ghost use Rattle.expr_grammar.specs.Spelling as spelling;
ghost use Rattle.expr_grammar.specs.Lexing as lexing;
ghost use Rattle.expr_grammar.specs.Front as front;
ghost use Rattle.expr_grammar.specs.Front.{FrontIs, ClosesFirst};
ghost use Rattle.function_table.specs.Format.{is_decimal};

use crate::token::TokenKind;
use dap_base::number;

/// What stands at the front of a text, and how many bytes it takes.
#[derive(Clone, Copy, Debug, PartialEq, Eq)]
pub enum Piece {
    /// Blanks, or a comment.
    Gap(usize),
    /// A token.
    Token(TokenKind, usize),
}

impl Piece {
    /// How many bytes it takes.
    pub fn len(&self) -> usize
        ensures { result ≡ front.piece_len self.now }
    {
        match self {
            Piece::Gap(len) => *len,
            Piece::Token(_, len) => *len,
        }
    }
}

fn is_blank(b: u8) -> bool
    ensures { result ≡ lexing.is_blank b }
{
    b == b' ' || b == b'\t' || b == b'\r' || b == b'\n'
}

fn is_letter(b: u8) -> bool
    ensures { result ≡ spelling.is_letter b }
{
    b.is_ascii_alphabetic() || b == b'_'
}

fn is_word(b: u8) -> bool
    ensures { result ≡ spelling.is_word b }
{
    b.is_ascii_alphanumeric() || b == b'_'
}

fn is_decimal(b: u8) -> bool
    ensures { result ≡ is_decimal b }
{
    b >= b'0' && b <= b'9'
}

fn is_pair(a: u8, b: u8) -> bool
    ensures { result ≡ spelling.is_pair a b }
{
    match (a, b) {
        (b'<' | b'>' | b'=' | b'!', b'=') => true,
        (b'<' | b'>' | b'&' | b'|', _) => a == b,
        _ => false,
    }
}

fn is_single(a: u8) -> bool
    ensures { result ≡ spelling.is_single a }
{
    match a {
        b'('
        | b')'
        | b','
        | b';'
        | b'?'
        | b':'
        | b'!'
        | b'~'
        | b'+'
        | b'-'
        | b'*'
        | b'/'
        | b'%'
        | b'<'
        | b'>'
        | b'&'
        | b'^'
        | b'|'
        | b'=' => true,
        _ => false,
    }
}

fn blank_len(bytes: &[u8]) -> usize
    ensures { result ≡ prefix_len lexing.is_blank bytes.now }
{
    bytes.iter().take_while(|b| is_blank(**b)).count()
}

fn word_len(bytes: &[u8]) -> usize
    ensures { result ≡ prefix_len spelling.is_word bytes.now }
{
    bytes.iter().take_while(|b| is_word(**b)).count()
}

fn line_len(bytes: &[u8]) -> usize
    ensures { result ≡ prefix_len lexing.is_in_line bytes.now }
{
    bytes.iter().take_while(|b| **b != b'\n').count()
}

// The length of the comment that `/*` opens, up to the next `*/`.
fn block_len(bytes: &[u8]) -> Option<usize>
    requires { 2 ≤ length bytes.now }
    ensures { ClosesFirst bytes.now result }
{
    for k in 2..bytes.len() - 1 {
        if bytes[k] == b'*' && bytes[k + 1] == b'/' {
            return Some(k + 2);
        }
    }
    None
}

// The length of a string after its opening quote, the closing one included.
fn string_end(bytes: &[u8]) -> Option<usize>
    ensures { result ≡ front.string_end false bytes.now }
{
    let mut escaped = false;
    for (i, b) in bytes.iter().enumerate() {
        match *b {
            b'\n' => return None,
            b'"' if !escaped => return Some(i + 1),
            b => escaped = !escaped && b == b'\\',
        }
    }
    None
}

fn mark_len(bytes: &[u8]) -> usize
    ensures { result ≡ front.mark_len bytes.now }
{
    match bytes {
        [a, b, ..] if is_pair(*a, *b) => 2,
        [a, ..] if is_single(*a) => 1,
        _ => 0,
    }
}

// Whether the text begins with `/` and this byte.
fn opens_comment(bytes: &[u8], second: u8) -> bool
    requires { 0 < second }
    ensures { result ≡ (slice_index bytes.now 0 == 47 && slice_index bytes.now 1 == second) }
{
    bytes.len() > 1 && bytes[0] == b'/' && bytes[1] == second
}

// A number: from its first digit to the last letter, digit or `_`.
fn number_front(text: &str) -> Option<Piece>
    requires { is_decimal (slice_index text.now 0) ≡ true }
    ensures { FrontIs text.now result }
{
    let len = word_len(text.as_bytes());
    let (word, _) = text.split_at(len);
    match number(word) {
        Some(_) => Some(Piece::Token(TokenKind::Number, len)),
        None => None,
    }
}

// A name or the keyword.
fn word_front(text: &str) -> Piece
    requires { spelling.is_letter (slice_index text.now 0) ≡ true }
    ensures { FrontIs text.now (Some result) }
{
    let len = word_len(text.as_bytes());
    let (word, _) = text.split_at(len);
    if word == "__var" {
        Piece::Token(TokenKind::Mark, len)
    } else {
        Piece::Token(TokenKind::Name, len)
    }
}

// A string, from its opening quote.
fn string_front(bytes: &[u8]) -> Option<Piece>
    requires { slice_index bytes.now 0 ≡ 34 }
    ensures { FrontIs bytes.now result }
{
    match string_end(&bytes[1..]) {
        Some(len) => Some(Piece::Token(TokenKind::Text, len + 1)),
        None => None,
    }
}

// A mark that begins with no letter.
fn mark_front(bytes: &[u8]) -> Option<Piece>
    requires blank { lexing.is_blank (slice_index bytes.now 0) ≡ false }
    requires line { lexing.begins_line_comment bytes.now ≡ false }
    requires block { lexing.begins_block_comment bytes.now ≡ false }
    requires digit { is_decimal (slice_index bytes.now 0) ≡ false }
    requires letter { spelling.is_letter (slice_index bytes.now 0) ≡ false }
    requires quote { (slice_index bytes.now 0 == 34) ≡ false }
    ensures { FrontIs bytes.now result }
{
    let len = mark_len(bytes);
    if len == 0 {
        None
    } else {
        Some(Piece::Token(TokenKind::Mark, len))
    }
}

// A comment that `/*` opens.
fn block_front(bytes: &[u8]) -> Option<Piece>
    requires { lexing.begins_block_comment bytes.now ≡ true }
    ensures { FrontIs bytes.now result }
{
    match block_len(bytes) {
        Some(len) => Some(Piece::Gap(len)),
        None => None,
    }
}

/// What stands at the front of a text that is not empty. `None` where nothing can be taken.
pub fn front_piece(text: &str) -> Option<Piece>
    requires { 0 < length text.now }
    ensures { FrontIs text.now result }
{
    let bytes = text.as_bytes();
    let first = bytes[0];
    if is_blank(first) {
        Some(Piece::Gap(blank_len(bytes)))
    } else if opens_comment(bytes, b'/') {
        Some(Piece::Gap(line_len(bytes)))
    } else if opens_comment(bytes, b'*') {
        block_front(bytes)
    } else if is_decimal(first) {
        number_front(text)
    } else if is_letter(first) {
        Some(word_front(text))
    } else if first == b'"' {
        string_front(bytes)
    } else {
        mark_front(bytes)
    }
}
