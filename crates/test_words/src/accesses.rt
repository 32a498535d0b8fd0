//! Register accesses and what they answer.

use crate::{RowError, RowWords};
use std::alloc::{AllocError, Global};
use target_machine::{Outcome, RegAccess};

/// One access: `dp read 0x4`, `ap write 0x4 0x20000000`.
pub fn access_of(words: &mut RowWords<'_>) -> Result<RegAccess, RowError> {
    let ap = match words.word()? {
        "ap" => true,
        "dp" => false,
        _ => return Err(RowError::Unreadable),
    };
    let read = match words.word()? {
        "read" => true,
        "write" => false,
        _ => return Err(RowError::Unreadable),
    };
    let addr = words.number8()?;
    let value = if read { 0 } else { words.number32()? };
    Ok(RegAccess {
        ap,
        read,
        addr,
        value,
    })
}

// Adds an access so often.
fn push_times(
    accesses: &mut Vec<RegAccess>,
    access: RegAccess,
    times: u16,
) -> Result<(), RowError> {
    for _ in 0..times {
        accesses.push(access)?;
    }
    Ok(())
}

/// The accesses of a text, with `;` between them. `ap read 0xC * 18` stands for eighteen of them. None for an empty text.
pub fn accesses_of(alloc: Global, text: &str) -> Result<Vec<RegAccess>, RowError> {
    let mut accesses = Vec::new(alloc);
    if text.is_empty() {
        return Ok(accesses);
    }
    for item in text.split(";") {
        let mut words = RowWords::new(item);
        let access = access_of(&mut words)?;
        let times = words.times()?;
        push_times(&mut accesses, access, times)?;
    }
    Ok(accesses)
}

/// Writes an access as it is read.
pub fn put_access(text: &mut String, access: RegAccess) -> Result<(), AllocError> {
    let port = if access.ap { "ap" } else { "dp" };
    let addr = access.addr;
    let value = access.value;
    if access.read {
        write!(text, "{port} read {addr:#X}")
    } else {
        write!(text, "{port} write {addr:#X} {value:#X}")
    }
}

/// Writes what an access answers: `value 0x2BA01477`, `done` or `fault`.
pub fn put_outcome(text: &mut String, outcome: Outcome) -> Result<(), AllocError> {
    match outcome {
        Outcome::Value(value) => write!(text, "value {value:#X}"),
        Outcome::Done => text.push_str("done"),
        Outcome::Fault => text.push_str("fault"),
    }
}
