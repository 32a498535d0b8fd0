//! The numbers of stops, by what an access keeps of its journal.

use crate::over::put_report;
use access_calls::{Issued, StopCause, stop_report};
use std::alloc::Global;
use target_calls::{Ask, Part};
use target_machine::Call;
use test_words::{RowError, RowWords, Trial, unit_of};

/// The entries of a journal and the calls that they are of.
#[derive(Drop)]
pub struct Stops {
    entries: Vec<Issued>,
    calls: Vec<Ask>,
}

// What an entry is to its unit, by its letter.
fn part_of(letter: u8) -> Result<Part, RowError> {
    match letter {
        b'L' => Ok(Part::Leads),
        b'E' => Ok(Part::Ends),
        b'S' => Ok(Part::Settles),
        b'A' => Ok(Part::Skips { attempted: true }),
        b'K' => Ok(Part::Skips { attempted: false }),
        _ => Err(RowError::Unreadable),
    }
}

// Adds the entries of one unit: `1 LLLLE`.
fn push_entries(entries: &mut Vec<Issued>, text: &str) -> Result<(), RowError> {
    let mut words = RowWords::new(text);
    let unit = words.number32()?;
    for letter in words.word()?.as_bytes() {
        let part = part_of(*letter)?;
        entries.push(Issued { unit, part })?;
    }
    words.end()
}

// The units of a text, with `;` between them, as calls.
fn calls_of(alloc: Global, text: &str) -> Result<Vec<Ask>, RowError> {
    let mut calls = Vec::new(alloc);
    for item in text.split(";") {
        let mut words = RowWords::new(item);
        let unit = unit_of(&mut words)?;
        words.end()?;
        calls.push(Ask {
            call: Call::Access(unit),
            forgive: false,
            settled: false,
        })?;
    }
    Ok(calls)
}

// The entries of a text, with `,` between those of the units.
fn entries_of(alloc: Global, text: &str) -> Result<Vec<Issued>, RowError> {
    let mut entries = Vec::new(alloc);
    for item in text.split(",") {
        push_entries(&mut entries, item)?;
    }
    Ok(entries)
}

impl Stops {
    // Writes the report of a stop, where it can be one.
    fn put_stop(
        &self,
        text: &mut String,
        accesses: u32,
        confirmed: u32,
        cause: StopCause,
    ) -> Result<(), RowError> {
        let entries = self.entries.as_slice();
        let calls = self.calls.as_slice();
        if entries.len() > 1000 || accesses as usize > entries.len() {
            return Err(RowError::Unreadable);
        }
        if confirmed as usize >= entries.len() {
            return Err(RowError::Unreadable);
        }
        let next = entries[confirmed as usize];
        if next.unit == 0 || next.unit as usize > calls.len() {
            return Err(RowError::Unreadable);
        }
        let stop = stop_report(entries, calls, accesses, confirmed, cause);
        let skipped = stop.skipped;
        let lines = stop.lines;
        put_report(text, &stop.report)?;
        write!(text, ", skipped {skipped}, lines {lines}")?;
        Ok(())
    }
}

impl Trial for Stops {
    fn begin(alloc: Global, form: &str) -> Result<Stops, RowError> {
        let Some((_, text)) = form.split_once(":") else {
            return Err(RowError::Unreadable);
        };
        let Some((calls, entries)) = text.split_once("/") else {
            return Err(RowError::Unreadable);
        };
        let entries = entries_of(alloc, entries)?;
        let calls = calls_of(alloc, calls)?;
        Ok(Stops { entries, calls })
    }

    fn answer(&mut self, alloc: Global, input: &str) -> Result<String, RowError> {
        let mut words = RowWords::new(input);
        let mut text = String::new(alloc);
        let cause = match words.word()? {
            "fault" => StopCause::Faulted,
            "wait" => StopCause::NoAnswer,
            _ => return Err(RowError::Unreadable),
        };
        let accesses = words.number32()?;
        let confirmed = words.number32()?;
        words.end()?;
        self.put_stop(&mut text, accesses, confirmed, cause)?;
        Ok(text)
    }
}
