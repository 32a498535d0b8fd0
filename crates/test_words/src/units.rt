//! Units of sequences and commands of the probe.
ghost use Rattle.std.specs.Prelude.{◌≡◌, true};
ghost use Rattle.target_machine.specs.Sound.{IsSound, IsSoundMemory, IsSoundProbe};

use crate::{RowError, RowWords};
use std::alloc::AllocError;
use target_machine::{Call, ProbeCall, Unit};

// The rest of a memory access of so many bytes: `AP ADDRESS`, and of a write the value.
fn memory_of(size: u8, read: bool, words: &mut RowWords<'_>) -> Result<Unit, RowError> {
    let ap = words.number8()?;
    let address = words.number()?;
    let value = if read { 0 } else { words.number32()? };
    Ok(Unit::Memory {
        size,
        read,
        ap,
        address,
        value,
    })
}

// The rest of an access of an AP register: `AP ADDRESS`, and of a write the value.
fn ap_of(read: bool, words: &mut RowWords<'_>) -> Result<Unit, RowError> {
    let ap = words.number8()?;
    let addr = words.number8()?;
    let value = if read { 0 } else { words.number32()? };
    Ok(Unit::Ap {
        read,
        ap,
        addr,
        value,
    })
}

// The rest of an access of a DP register: its address, and of a write the value.
fn dp_of(read: bool, words: &mut RowWords<'_>) -> Result<Unit, RowError> {
    let addr = words.number8()?;
    let value = if read { 0 } else { words.number32()? };
    Ok(Unit::Dp { read, addr, value })
}

/// A unit, by the name of its function: `Read32 0 0x20000000` by AP 0, `Write8 3 0x200003FE 0xAB` by AP 3, `ReadAP 0 0xFC`,
/// `WriteDP 0x8 0xFFF0`, `Poll 0xA0000000 0xA0000000 100` with mask, value and turns.
pub fn unit_of(words: &mut RowWords<'_>) -> Result<Unit, RowError> {
    match words.word()? {
        "Read8" => memory_of(1, true, words),
        "Read16" => memory_of(2, true, words),
        "Read32" => memory_of(4, true, words),
        "Write8" => memory_of(1, false, words),
        "Write16" => memory_of(2, false, words),
        "Write32" => memory_of(4, false, words),
        "ReadAP" => ap_of(true, words),
        "WriteAP" => ap_of(false, words),
        "ReadDP" => dp_of(true, words),
        "WriteDP" => dp_of(false, words),
        "Poll" => Ok(Unit::Poll {
            mask: words.number32()?,
            value: words.number32()?,
            turns: words.number32()?,
        }),
        _ => Err(RowError::Unreadable),
    }
}

/// A command of the probe: `DAP_Delay 70000`, `DAP_WriteABORT 0x1E`, `DAP_SWJ_Pins 0 0x80 0` with output, selected pins and wait,
/// `DAP_SWJ_Clock 1000000`, `DAP_SWJ_Sequence 16 0xE79E`.
pub fn call_of(words: &mut RowWords<'_>) -> Result<ProbeCall, RowError> {
    match words.word()? {
        "DAP_Delay" => Ok(ProbeCall::Delay(words.number32()?)),
        "DAP_WriteABORT" => Ok(ProbeCall::Abort(words.number32()?)),
        "DAP_SWJ_Pins" => Ok(ProbeCall::Pins {
            output: words.number8()?,
            select: words.number8()?,
            wait: words.number32()?,
        }),
        "DAP_SWJ_Clock" => Ok(ProbeCall::Clock(words.number32()?)),
        "DAP_SWJ_Sequence" => Ok(ProbeCall::Line {
            count: words.number8()?,
            bits: words.number()?,
        }),
        _ => Err(RowError::Unreadable),
    }
}

// Whether a memory access may be asked: its size is 1, 2 or 4, and its address and value follow it.
fn is_sound_memory(size: u8, read: bool, address: u64, value: u32) -> bool
    ensures { result ≡ true → IsSoundMemory size read address value }
{
    match size {
        1 => read || value < 0x100,
        2 => address % 2 == 0 && (read || value < 0x1_0000),
        4 => address % 4 == 0,
        _ => false,
    }
}

/// Whether the unit may be asked.
pub fn is_sound(unit: &Unit) -> bool
    ensures { result ≡ true → IsSound unit.now }
{
    match *unit {
        Unit::Memory {
            size,
            read,
            address,
            value,
            ..
        } => is_sound_memory(size, read, address, value),
        Unit::Ap { addr, .. } => addr % 4 == 0,
        Unit::Dp {
            read: true,
            addr,
            ..
        } => addr == 0 || addr == 4,
        Unit::Dp {
            read: false,
            addr,
            ..
        } => addr == 0 || addr == 4 || addr == 8,
        Unit::Poll { turns, .. } => 1 <= turns && turns <= 60_000_000,
    }
}

/// Whether the command may be asked. Of `DAP_SWJ_Sequence` only one of 16 bits is.
pub fn is_sound_call(call: &ProbeCall) -> bool
    ensures { result ≡ true → IsSoundProbe call.now }
{
    match *call {
        ProbeCall::Delay(micros) => micros <= 60_000_000,
        ProbeCall::Line { count, bits } => count == 16 && bits < 0x1_0000,
        ProbeCall::Pins { .. } | ProbeCall::Abort(_) => true,
        ProbeCall::Clock(hertz) => hertz != 0,
    }
}

// Writes the end of an access: an address, and of a write the value.
fn put_access(text: &mut String, read: bool, address: u64, value: u32) -> Result<(), AllocError> {
    if read {
        write!(text, "{address:#X}")
    } else {
        write!(text, "{address:#X} {value:#X}")
    }
}

// Writes a unit as it is read.
fn put_unit(text: &mut String, unit: &Unit) -> Result<(), AllocError> {
    match *unit {
        Unit::Memory {
            size,
            read,
            ap,
            address,
            value,
        } => {
            let name = if read { "Read" } else { "Write" };
            let bits = u32::from(size) * 8;
            write!(text, "{name}{bits} {ap} ")?;
            put_access(text, read, address, value)
        }
        Unit::Ap {
            read,
            ap,
            addr,
            value,
        } => {
            let name = if read { "ReadAP" } else { "WriteAP" };
            write!(text, "{name} {ap} ")?;
            put_access(text, read, u64::from(addr), value)
        }
        Unit::Dp { read, addr, value } => {
            text.push_str(if read { "ReadDP " } else { "WriteDP " })?;
            put_access(text, read, u64::from(addr), value)
        }
        Unit::Poll { mask, value, turns } => { write!(text, "Poll {mask:#X} {value:#X} {turns}") }
    }
}

/// Writes a call: a unit as it is read, and a command of the probe with its parts.
pub fn put_call(text: &mut String, call: &Call) -> Result<(), AllocError> {
    match call {
        Call::Access(unit) => put_unit(text, unit),
        Call::Probe(command) => write!(text, "{command:?}"),
    }
}
