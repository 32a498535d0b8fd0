//! Entries as texts: `> ` or `< ` and the digits of the bytes.
ghost use Rattle.std.specs.Prelude.{◌≡◌, ◌≢◌, ◌++◌, ◌≤◌, ℕ, List, IfOk, IfSome, IsNone, MatchOption, OnOk, length};
ghost use Rattle.std.specs.List.{All, list_all};
ghost use Rattle.hex.specs.Hex as hex;
ghost use Rattle.probe_core.specs.Log as log;
ghost use Rattle.trace_audit.specs.Audits.{entries_of, entry_of};
ghost use Rattle.trace_audit.specs.Texts.{AreEntriesOf, IsEntry, IsEntryText, IsMarked, are_digits, entry_mark, is_entry_text};

use crate::entry::{Bytes, Entries, Entry, TraceTexts};
use dap_base::{NameText, OutOfMemory};
use hex::{FromHexError, decode};
use std::alloc::Global;

// The most digits of an entry.
const MOST_DIGITS: usize = 2048;

// Whether the text is of a reply, and its digits; none where it begins as no entry.
fn split_mark(text: &[u8]) -> Option<(bool, &[u8])>
    ensures { MatchOption result (IsMarked text.now → ⊥) (λ x. text.now ≡ entry_mark x.0 ++ x.1.now) }
{
    match text {
        [b'<', b' ', digits @ ..] => Some((true, digits)),
        [b'>', b' ', digits @ ..] => Some((false, digits)),
        _ => None,
    }
}

fn is_hex_digit(byte: u8) -> bool
    ensures { result ≡ hex.is_hex_digit byte }
{
    byte.is_ascii_hexdigit()
}

fn are_hex_digits(digits: &[u8]) -> bool
    ensures { result ≡ list_all hex.is_hex_digit digits.now }
{
    digits.iter().all(|digit| is_hex_digit(*digit))
}

// Whether these are an even number of hexadecimal digits, and not too many.
fn are_digits(digits: &[u8]) -> bool
    ensures { result ≡ are_digits digits.now }
{
    digits.len() <= MOST_DIGITS && digits.len() % 2 == 0 && are_hex_digits(digits)
}

/// Whether the text is that of an entry: `> ` or `< `, and then an even number of hexadecimal digits of either case, at most 2,048.
pub fn is_entry_text(text: &str) -> bool
    ensures { result ≡ is_entry_text text.now }
{
    match split_mark(text.as_bytes()) {
        Some((_, digits)) => are_digits(digits),
        None => false,
    }
}

// A list of these bytes.
fn list_of(alloc: Global, bytes: &[u8]) -> Result<Bytes, OutOfMemory>
    ensures { IfOk result (λ list. list ≡ bytes.now) }
{
    let mut list = Bytes::with_room(alloc, bytes.len())?;
    for byte in bytes {
        list.push(*byte)?;
    }
    Ok(list)
}

fn make_entry(is_reply: bool, bytes: Bytes) -> Entry
    ensures { entry_of result ≡ record { is_reply = is_reply; bytes = bytes } }
{
    if is_reply {
        Entry::Replied(bytes)
    } else {
        Entry::Sent(bytes)
    }
}

/// The entry that the text is. `None` exactly where it is none (`is_entry_text`). `OutOfMemory` where memory is refused.
pub fn entry_in(alloc: Global, text: &str) -> Result<Option<Entry>, OutOfMemory>
    ensures entry { IfOk result (λ found. IfSome found (λ e. IsEntryText text.now (entry_of e))) }
    ensures none { IfOk result (λ found. IsNone found → IsEntry text.now → ⊥) }
{
    let Some((is_reply, digits)) = split_mark(text.as_bytes()) else {
        return Ok(None);
    };
    if digits.len() > MOST_DIGITS {
        return Ok(None);
    }
    match decode(alloc, digits) {
        Ok(bytes) => {
            let bytes = list_of(alloc, &bytes)?;
            Ok(Some(make_entry(is_reply, bytes)))
        }
        Err(FromHexError::OutOfMemory) => Err(OutOfMemory),
        Err(_) => Ok(None),
    }
}

/// The entries that the texts are. `OutOfMemory` where memory is refused.
pub fn entries_of(alloc: Global, texts: &TraceTexts) -> Result<Entries, OutOfMemory>
    requires { All IsEntry texts.now }
    ensures { IfOk result (λ entries. AreEntriesOf texts.now (entries_of entries)) }
{
    read_entries(alloc, texts.as_slice())
}

fn read_entries(alloc: Global, texts: &[NameText]) -> Result<Entries, OutOfMemory>
    requires { All IsEntry texts.now }
    ensures { IfOk result (λ entries. AreEntriesOf texts.now (entries_of entries)) }
{
    let mut entries = Entries::with_room(alloc, texts.len())?;
    for text in texts {
        match entry_in(alloc, text.as_str())? {
            Some(entry) => entries.push(entry)?,
            None => unreachable!(),
        }
    }
    Ok(entries)
}
