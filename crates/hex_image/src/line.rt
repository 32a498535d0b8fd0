//! The content of a line, and the record that it is.
ghost use Rattle.std.specs.Prelude.{◌≡◌, ◌/◌, ◌≤◌, Ok, Some, None, take, length, MatchBool, MatchOption};
ghost use Rattle.hex.specs.Hex.{decode_of};
ghost use Rattle.hex_image.specs.Records.{decoded_record, record_of, without_return};

// Decodes digits into a room of half their length; whether each of them is a hexadecimal digit, and their number even.
fn is_decoded(digits: &[u8], room: &mut [u8]) -> bool
    requires { length room.old ≡ length digits.now / 2 }
    ensures { MatchBool result (decode_of digits.now ≡ Ok room.new) (decoded_record (decode_of digits.now) ≡ None) }
{
    hex::decode_to_slice(digits, room).is_ok()
}

// Decodes the digits after the colon of a record into the first bytes of a room; how many bytes they are. `None` where they are no record.
// No record has fewer than 10 digits or more than 520, so a long line is refused before it is decoded.
fn decode_digits(digits: &[u8], room: &mut [u8; 260]) -> Option<usize>
    ensures { MatchOption result (decoded_record (decode_of digits.now) ≡ None)
        (λ n. (n ≤ 260) × (5 ≤ n) × (decoded_record (decode_of digits.now) ≡ Some (take n room.new))) }
{
    if digits.len() < 10 || digits.len() > 520 {
        return None;
    }
    let length = digits.len() / 2;
    if is_decoded(digits, &mut room[..length]) && length == room[0] as usize + 5 {
        Some(length)
    } else {
        None
    }
}

// Decodes the content of a line into the first bytes of a room; how many bytes the record has. `None` where it is no record.
pub(crate) fn record_of(line: &[u8], room: &mut [u8; 260]) -> Option<usize>
    ensures { MatchOption result (record_of line.now ≡ None) (λ n. (n ≤ 260) × (5 ≤ n) × (record_of line.now ≡ Some (take n room.new))) }
{
    match line.split_first() {
        Some((b':', digits)) => decode_digits(digits, room),
        _ => None,
    }
}

// A line without a carriage return at its end.
pub(crate) fn without_return(line: &[u8]) -> &[u8]
    ensures { result.now ≡ without_return line.now }
{
    let length = line.len();
    if length > 0 && line[length - 1] == b'\r' {
        &line[..length - 1]
    } else {
        line
    }
}
