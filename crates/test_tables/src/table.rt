//! The files of tables.
use crate::escapes::unescape;
use std::alloc::{AllocError, Global};
use std::{fs, io};

/// A row of a table.
#[derive(Drop)]
pub struct Row {
    /// Its line in the file, counted from 1.
    pub line: usize,
    /// The words of the last line `@form` before it; empty where there is none.
    pub form: String,
    /// What is tried.
    pub input: Vec<u8>,
    /// What is to come of it.
    pub expected: Vec<u8>,
}

// What the lines that begin with `@` said last.
#[derive(Drop)]
struct Frame {
    // Whether inputs, and what stands before and after them, have no escapes.
    raw: bool,
    form: String,
    before: Vec<u8>,
    after: Vec<u8>,
}

impl Frame {
    fn new(alloc: Global) -> Frame {
        Frame {
            raw: false,
            form: String::new(alloc),
            before: Vec::new(alloc),
            after: Vec::new(alloc),
        }
    }

    // A part of an input.
    fn part(&self, alloc: Global, text: &str) -> Result<Vec<u8>, AllocError> {
        if self.raw {
            Vec::from_slice(alloc, text.as_bytes())
        } else {
            unescape(alloc, text)
        }
    }

    // Reads a line that begins with `@`; one that is none of the four says nothing.
    fn read(&mut self, alloc: Global, line: &str) -> Result<(), AllocError> {
        if let Some(words) = line.strip_prefix("@form ") {
            self.form = String::from_str(alloc, words)?;
        } else if let Some(text) = line.strip_prefix("@before ") {
            self.before = self.part(alloc, text)?;
        } else if let Some(text) = line.strip_prefix("@after ") {
            self.after = self.part(alloc, text)?;
        } else if line == "@raw" {
            self.raw = true;
        }
        Ok(())
    }

    // The row of a line.
    fn row(&self, alloc: Global, number: usize, line: &str) -> Result<Row, AllocError> {
        let (input, expected) = line.split_once(" => ").unwrap_or((line, ""));
        let inner = self.part(alloc, input)?;
        let mut input = self.before.clone()?;
        input.extend_from_slice(inner.as_slice())?;
        input.extend_from_slice(self.after.as_slice())?;
        Ok(Row {
            line: number,
            form: self.form.clone()?,
            input,
            expected: unescape(alloc, expected)?,
        })
    }
}

/// The rows of a table, in order. Each line is a row, `INPUT => EXPECTED`, except empty lines, comments, which begin with `#`, and lines
/// that begin with `@` and count for the rows after them. `@form WORDS` says how they are tried. `@before TEXT` and `@after TEXT` say what
/// stands before and after each input. Both sides of a row have the escapes of [`unescape`]; after a line `@raw` inputs, and what stands
/// before and after them, have none.
///
/// An error where memory is refused.
pub fn rows_of(alloc: Global, text: &str) -> Result<Vec<Row>, AllocError> {
    let mut frame = Frame::new(alloc);
    let mut rows = Vec::new(alloc);
    for (number, line) in text.lines().enumerate() {
        if line.starts_with("@") {
            frame.read(alloc, line)?;
        } else if !line.is_empty() && !line.starts_with("#") {
            rows.push(frame.row(alloc, number.saturating_add(1), line)?)?;
        }
    }
    Ok(rows)
}

/// The rows of the file `NAME.table` of the folder that the program runs in.
///
/// An error where the file cannot be read or memory is refused.
pub fn table_of(rt: &HostRuntime, name: &str) -> io::Result<Vec<Row>> {
    let text = fs::read_to_string(rt, format!(in rt.alloc(); "{name}.table")?)?;
    let rows = rows_of(rt.alloc(), text.as_str())?;
    Ok(rows)
}
