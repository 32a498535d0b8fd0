//! The name that begins at a place of a line.
ghost use Rattle.std.specs.Prelude.{◌≡◌, false, take, drop, option_map};
ghost use Rattle.fault_lines.specs.Source as source;
ghost use Rattle.fault_lines.specs.Source.{from_column, is_name_byte, is_blank_or_tab, word_front, after_word, after_blanks, after_first, after_byte, text_before_quote};

// What follows in the line from this column on.
fn from_column(line: &[u8], column: u64) -> &[u8]
    ensures { result.now ≡ from_column line.now column }
{
    let start = column.saturating_sub(1) as usize;
    line.get(start..).unwrap_or(&[])
}

fn is_word(byte: u8) -> bool
    ensures { result ≡ is_name_byte byte }
{
    byte.is_ascii_alphanumeric() || byte == b'_'
}

fn is_blank(byte: u8) -> bool
    ensures { result ≡ is_blank_or_tab byte }
{
    byte == b' ' || byte == b'\t'
}

// How many letters, digits and `_` stand at the front.
fn word_len(bytes: &[u8]) -> usize
    ensures front { take result bytes.now ≡ word_front bytes.now }
    ensures rest { drop result bytes.now ≡ after_word bytes.now }
{
    for (index, byte) in bytes.iter().enumerate() {
        if !is_word(*byte) {
            return index;
        }
    }
    bytes.len()
}

// How many blanks and tabs stand at the front.
fn blanks_len(bytes: &[u8]) -> usize
    ensures { drop result bytes.now ≡ after_blanks bytes.now }
{
    for (index, byte) in bytes.iter().enumerate() {
        if !is_blank(*byte) {
            return index;
        }
    }
    bytes.len()
}

// How many bytes stand before the quote that ends them.
fn quoted_len(bytes: &[u8]) -> usize
    ensures { take result bytes.now ≡ text_before_quote false bytes.now }
{
    let mut escaped = false;
    for (index, byte) in bytes.iter().enumerate() {
        if *byte == b'"' && !escaped {
            return index;
        }
        escaped = *byte == b'\\' && !escaped;
    }
    bytes.len()
}

// The first bytes, or all where there are no more.
fn front(bytes: &[u8], len: usize) -> &[u8]
    ensures { result.now ≡ take len bytes.now }
{
    bytes.get(..len).unwrap_or(bytes)
}

// What comes after the first bytes, or nothing where there are no more.
fn rest_of(bytes: &[u8], len: usize) -> &[u8]
    ensures { result.now ≡ drop len bytes.now }
{
    bytes.get(len..).unwrap_or(&[])
}

// What follows this byte at the front.
fn after_first(byte: u8, bytes: &[u8]) -> Option<&[u8]>
    ensures { option_map (λ rest. rest.now) result ≡ after_first byte bytes.now }
{
    match bytes {
        [first, rest @ ..] if *first == byte => Some(rest),
        _ => None,
    }
}

// What follows this byte, where it comes next after blanks.
fn after_byte(byte: u8, bytes: &[u8]) -> Option<&[u8]>
    ensures { option_map (λ rest. rest.now) result ≡ after_byte byte bytes.now }
{
    after_first(byte, rest_of(bytes, blanks_len(bytes)))
}

/// The name that begins at this column of the line: letters, digits and `_`. Columns count bytes from 1.
pub fn word_at(line: &[u8], column: u64) -> &[u8]
    ensures { result.now ≡ source.name_at_column line.now column }
{
    let bytes = from_column(line, column);
    front(bytes, word_len(bytes))
}

/// What stands between the quotes of the text that begins at this column of the line, as it is spelled. Columns
/// count bytes from 1.
pub fn quoted_at(line: &[u8], column: u64) -> &[u8]
    ensures { result.now ≡ source.quoted_at line.now column }
{
    let quoted = from_column(line, column).get(1..).unwrap_or(&[]);
    front(quoted, quoted_len(quoted))
}

/// What stands between the quotes of the text that comes first between the parentheses of the call at this column of the line, as
/// it is spelled. `None` where that is not in this line. Columns count bytes from 1.
pub fn called_at(line: &[u8], column: u64) -> Option<&[u8]>
    ensures { option_map (λ name. name.now) result ≡ source.called_at line.now column }
{
    let bytes = from_column(line, column);
    let arguments = after_byte(b'(', rest_of(bytes, word_len(bytes)))?;
    let text = after_byte(b'"', arguments)?;
    Some(front(text, quoted_len(text)))
}
