//! Columns that count characters, where those of a fault count bytes.
ghost use Rattle.std.specs.Prelude.{◌≡◌, ◌-◌, take};
ghost use Rattle.fault_json.specs.Columns.{begins, character_column};

// Whether a byte begins a character of UTF-8.
fn begins(byte: u8) -> bool
    ensures { result ≡ begins byte }
{
    match byte {
        0x80..=0xbf => false,
        _ => true,
    }
}

// What stands in the line before this column.
fn before_column(line: &[u8], column: u64) -> &[u8]
    ensures { result.now ≡ take (column - 1) line.now }
{
    line.get(..column.saturating_sub(1) as usize)
        .unwrap_or(line)
}

/// The column of the byte at this column of a line: one more than the characters that begin before it. Both count from 1;
/// past the end of the line it is one more than all characters.
pub fn character_column(line: &[u8], column: u64) -> usize
    ensures { result ≡ character_column line.now column }
{
    let before = before_column(line, column);
    let characters = before.iter().filter(|byte| begins(**byte)).count();
    characters + 1
}
