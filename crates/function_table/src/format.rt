//! The formats of messages.

ghost use Rattle.std.specs.Prelude.{◌≡◌, ◌++◌, ℕ, List, None, Some, MatchOption, IfSome, IsSomeAnd};
ghost use Rattle.function_table.specs.declared.format.FormatPiece.{FormatPiece};
ghost use Rattle.function_table.specs.Format.{BeginsWith, AreFormatPieces, conversion_count};
ghost use Rattle.function_table.specs.Front as front;

/// How a conversion writes a number.
#[derive(Clone, Copy, Debug, PartialEq, Eq)]
pub enum NumberForm {
    /// `d`, `i` or `u`: unsigned decimal digits.
    Decimal,
    /// `x`: hexadecimal digits in lower case.
    LowerHex,
    /// `X`: hexadecimal digits in upper case.
    UpperHex,
}

/// A conversion of a number.
#[derive(Clone, Copy, Debug, PartialEq, Eq)]
pub struct Conversion {
    /// Whether a shorter text is filled with zeros; else it is filled with spaces.
    pub zero: bool,
    /// The least number of characters, at most 99; 0 where none is written.
    pub width: u8,
    /// How the number is written.
    pub form: NumberForm,
}

/// A piece of a format.
#[derive(Clone, Copy, Debug, PartialEq, Eq)]
pub enum FormatPiece {
    /// A byte that is no `%` and stands for itself.
    Plain(u8),
    /// `%%`, which stands for a percent sign.
    Percent,
    /// `%`, an optional `0`, an optional width of one or two digits, an optional `l` or `ll`, and
    /// one of `d`, `i`, `u`, `x` and `X`.
    Conversion(Conversion),
}

/// The number of conversions of `format`. `None` exactly where a `%` begins no piece, so that the
/// format isn't a list of pieces. The format is gone through once, and no memory is taken.
pub fn conversions(format: &str) -> Option<usize>
    ensures answer { IfSome result (λ count. (pieces : List FormatPiece) × AreFormatPieces pieces format.now × (count ≡ conversion_count pieces)) }
    ensures only { (pieces : List FormatPiece) → AreFormatPieces pieces format.now → result ≡ Some (conversion_count pieces) }
{
    let mut count = 0;
    let mut rest = format.as_bytes();
    while !rest.is_empty() {
        let Some((piece, after)) = front_piece(rest) else {
            return None;
        };
        if let FormatPiece::Conversion(_) = piece {
            count += 1;
        }
        rest = after;
    }
    Some(count)
}

/// The piece that `format` begins with, and the bytes after it. `None` exactly where `format` is
/// empty or begins with a `%` that begins no piece.
pub fn front_piece(format: &[u8]) -> Option<(FormatPiece, &[u8])>
    ensures answer { IfSome result (λ front. BeginsWith front.0 format.now front.1.now) }
    ensures only { (piece : FormatPiece) (rest : List ℕ) → BeginsWith piece format.now rest
        → IsSomeAnd result (λ front. (front.0 ≡ piece) × (front.1.now ≡ rest)) }
    ensures front { MatchOption result (front.front_of format.now ≡ None) (λ r. front.front_of format.now ≡ Some (r.0, r.1.now)) }
{
    front(format)
}

fn front(format: &[u8]) -> Option<(FormatPiece, &[u8])>
    ensures { MatchOption result (front.front_of format.now ≡ None) (λ r. front.front_of format.now ≡ Some (r.0, r.1.now)) }
{
    match format {
        [b'%', rest @ ..] => after_percent(rest),
        [byte, rest @ ..] => Some((FormatPiece::Plain(*byte), rest)),
        [] => None,
    }
}

fn after_percent(text: &[u8]) -> Option<(FormatPiece, &[u8])>
    ensures { MatchOption result (front.after_percent text.now ≡ None) (λ r. front.after_percent text.now ≡ Some (r.0, r.1.now)) }
{
    match text {
        [b'%', rest @ ..] => Some((FormatPiece::Percent, rest)),
        [_, ..] => match conversion_after(text) {
            Some((conversion, after)) => Some((FormatPiece::Conversion(conversion), after)),
            None => None,
        },
        [] => None,
    }
}

// The conversion after a `%`, and the bytes after it.
#[tactic(auto, unfolding(crate::specs::Front::read_conversion))]
fn conversion_after(text: &[u8]) -> Option<(Conversion, &[u8])>
    ensures { MatchOption result (front.read_conversion text.now ≡ None) (λ r. front.read_conversion text.now ≡ Some (r.0, r.1.now)) }
{
    let (zero, after_fill) = fill(text);
    let (width, after_width) = width(after_fill);
    match after_long(after_width) {
        [letter, rest @ ..] => match form_of(*letter) {
            Some(form) => Some((Conversion { zero, width, form }, rest)),
            None => None,
        },
        [] => None,
    }
}

// Whether a `0` stands at the front, and what is after it.
fn fill(text: &[u8]) -> (bool, &[u8])
    ensures { front.read_fill text.now ≡ (result.0, result.1.now) }
{
    match text {
        [b'0', rest @ ..] => (true, rest),
        _ => (false, text),
    }
}

// The width at the front, and what is after it.
fn width(text: &[u8]) -> (u8, &[u8])
    ensures { front.read_width text.now ≡ (result.0, result.1.now) }
{
    match text {
        [tens @ b'0'..=b'9', ones @ b'0'..=b'9', rest @ ..] => {
            (10 * (*tens - b'0') + (*ones - b'0'), rest)
        }
        [ones @ b'0'..=b'9', rest @ ..] => (*ones - b'0', rest),
        _ => (0, text),
    }
}

// What is after an `l` or `ll` at the front.
fn after_long(text: &[u8]) -> &[u8]
    ensures { front.after_long text.now ≡ result.now }
{
    match text {
        [b'l', b'l', rest @ ..] => rest,
        [b'l', rest @ ..] => rest,
        _ => text,
    }
}

fn form_of(letter: u8) -> Option<NumberForm>
    ensures { result ≡ front.form_of letter }
{
    match letter {
        b'd' | b'i' | b'u' => Some(NumberForm::Decimal),
        b'x' => Some(NumberForm::LowerHex),
        b'X' => Some(NumberForm::UpperHex),
        _ => None,
    }
}
