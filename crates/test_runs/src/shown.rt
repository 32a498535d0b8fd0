//! What was asked, as text.
use std::alloc::{AllocError, Global};
use target_calls::Ask;
use target_machine::{Call, ProbeCall, Unit};

// A read, or a write of a value. That of a read is 0.
fn access_text(
    alloc: Global,
    place: &str,
    read: bool,
    address: u64,
    value: u32,
) -> Result<String, AllocError> {
    match (read, value) {
        (true, 0) => format!(in alloc; "{place} read 0x{address:x}"),
        (true, _) => format!(in alloc; "{place} read 0x{address:x} with 0x{value:x}"),
        (false, _) => format!(in alloc; "{place} write 0x{address:x} 0x{value:x}"),
    }
}

fn unit_text(alloc: Global, unit: Unit) -> Result<String, AllocError> {
    match unit {
        Unit::Memory {
            size,
            read,
            ap,
            address,
            value,
        } => {
            let place = format!(in alloc; "ap {ap} memory {size}")?;
            access_text(alloc, place.as_str(), read, address, value)
        }
        Unit::Ap {
            read,
            ap,
            addr,
            value,
        } => {
            let place = format!(in alloc; "ap {ap} register")?;
            access_text(alloc, place.as_str(), read, u64::from(addr), value)
        }
        Unit::Dp { read, addr, value } => {
            access_text(alloc, "dp register", read, u64::from(addr), value)
        }
        Unit::Poll { mask, value, turns } => {
            format!(in alloc; "poll mask 0x{mask:x} value 0x{value:x} turns {turns}")
        }
    }
}

fn probe_text(alloc: Global, call: ProbeCall) -> Result<String, AllocError> {
    match call {
        ProbeCall::Delay(micros) => format!(in alloc; "delay {micros}"),
        ProbeCall::Abort(word) => format!(in alloc; "abort 0x{word:x}"),
        ProbeCall::Pins {
            output,
            select,
            wait,
        } => format!(in alloc; "pins output 0x{output:x} select 0x{select:x} wait {wait}"),
        ProbeCall::Clock(hertz) => format!(in alloc; "clock {hertz}"),
        ProbeCall::Line { count, bits } => format!(in alloc; "line {count} bits 0x{bits:x}"),
    }
}

// One call that was asked.
fn ask_text(alloc: Global, ask: &Ask) -> Result<String, AllocError> {
    let mut text = match ask.call {
        Call::Access(unit) => unit_text(alloc, unit)?,
        Call::Probe(call) => probe_text(alloc, call)?,
    };
    if ask.forgive {
        text.push_str(" forgiving")?;
    }
    if ask.settled {
        text.push_str(" settled")?;
    }
    Ok(text)
}

// Adds each call that was asked, in order.
fn push_asks(alloc: Global, out: &mut String, asks: &[Ask]) -> Result<(), AllocError> {
    for ask in asks {
        out.push_str("; ")?;
        out.push_str(ask_text(alloc, ask)?.as_str())?;
    }
    Ok(())
}

/// A text, then what was asked and what was written, each after `; `.
pub(crate) fn with_calls_and_lines(
    alloc: Global,
    text: String,
    asks: &[Ask],
    lines: &[u8],
) -> Result<String, AllocError> {
    let mut text = text;
    push_asks(alloc, &mut text, asks)?;
    if !lines.is_empty() {
        text.push_str("; writes ")?;
        text.push_str(str::from_utf8(lines).unwrap_or("no text"))?;
    }
    Ok(text)
}
