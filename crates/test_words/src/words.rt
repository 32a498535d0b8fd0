//! The words of a row, read one after the other.

use crate::RowError;
use dap_base::number;

/// The words of a text that are still to come. Spaces stand between them.
#[derive(Clone, Copy)]
pub struct RowWords<'a> {
    rest: &'a str,
}

impl<'a> RowWords<'a> {
    /// The words of a text.
    pub fn new(text: &'a str) -> RowWords<'a> {
        RowWords {
            rest: text.trim_ascii(),
        }
    }

    /// Whether no word is left.
    pub fn is_empty(&self) -> bool {
        self.rest.is_empty()
    }

    /// Takes all that is left.
    pub fn take_rest(&mut self) -> &'a str {
        let rest = self.rest;
        self.rest = "";
        rest
    }

    /// The next word. An error where none is left.
    pub fn word(&mut self) -> Result<&'a str, RowError> {
        if self.rest.is_empty() {
            return Err(RowError::Unreadable);
        }
        let (word, rest) = self.rest.split_once(" ").unwrap_or((self.rest, ""));
        self.rest = rest.trim_ascii();
        Ok(word)
    }

    /// Takes the next word where it is this one.
    pub fn takes(&mut self, word: &str) -> bool {
        let mut after = *self;
        if after.word() != Ok(word) {
            return false;
        }
        *self = after;
        true
    }

    /// The next word as a number: decimal digits, or `0x` and hexadecimal ones.
    pub fn number(&mut self) -> Result<u64, RowError> {
        number(self.word()?).ok_or(RowError::Unreadable)
    }

    /// The next word as a number of at most 32 bits.
    pub fn number32(&mut self) -> Result<u32, RowError> {
        u32::try_from(self.number()?).map_err(|_| RowError::Unreadable)
    }

    /// The next word as a number of at most 16 bits.
    pub fn number16(&mut self) -> Result<u16, RowError> {
        u16::try_from(self.number()?).map_err(|_| RowError::Unreadable)
    }

    /// The next word as a number of at most 8 bits.
    pub fn number8(&mut self) -> Result<u8, RowError> {
        u8::try_from(self.number()?).map_err(|_| RowError::Unreadable)
    }

    /// How often what stood before is repeated: `* N` at the end says so, and nothing says once. At most 65,535 times.
    pub fn times(&mut self) -> Result<u16, RowError> {
        let times = if self.takes("*") { self.number16()? } else { 1 };
        self.end()?;
        Ok(times)
    }

    /// Nothing is left. An error where something is.
    pub fn end(&self) -> Result<(), RowError> {
        if self.rest.is_empty() {
            Ok(())
        } else {
            Err(RowError::Unreadable)
        }
    }
}
