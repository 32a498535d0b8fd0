//! What a call asks, as a report shows it.
ghost use Rattle.std.specs.Prelude.{◌≡◌, ◌++◌, codes, IfOk};
ghost use Rattle.text_lines.specs.Hex.{hex, hex2, hex_address};
ghost use Rattle.report_lines.specs.Calls.{call_words, memory_words, port_part, unit_words};
ghost use Rattle.report_lines.specs.Words.{direction_word};

use crate::words::direction_text;
use dap_base::OutOfMemory;
use std::alloc::Global;
use target_machine::{Call, Unit};
use text_lines::Line;

// The number of an access port.
fn with_port(line: Line, ap: u8) -> Result<Line, OutOfMemory>
    ensures { IfOk result (λ l. l ≡ line ++ port_part ap) }
{
    line.add_labelled(" ap ", u64::from(ap))
}

// A memory access.
fn with_memory(
    line: Line,
    size: u8,
    is_read: bool,
    ap: u8,
    address: u64,
) -> Result<Line, OutOfMemory>
    ensures { IfOk result (λ l. l ≡ line ++ memory_words size is_read ap address) }
{
    let line = line.text(direction_text(is_read))?;
    let line = line.decimal(8 * u64::from(size))?.text(" ")?;
    with_port(line.add_address(address)?, ap)
}

// An access to a register of an access port.
fn with_ap(line: Line, is_read: bool, ap: u8, addr: u8) -> Result<Line, OutOfMemory>
    ensures { IfOk result (λ l. l ≡ line ++ direction_word is_read ++ codes "ap " ++ hex2 addr ++ port_part ap) }
{
    let line = line.text(direction_text(is_read))?.text("ap ")?;
    with_port(line.hex2(addr)?, ap)
}

// An access to a register of the debug port.
fn with_dp(alloc: Global, line: Line, is_read: bool, addr: u8) -> Result<Line, OutOfMemory>
    ensures { IfOk result (λ l. l ≡ line ++ direction_word is_read ++ codes "dp " ++ hex addr) }
{
    let line = line.text(direction_text(is_read))?.text("dp ")?;
    line.hex(alloc, u64::from(addr))
}

// An access.
fn with_unit(alloc: Global, line: Line, unit: Unit) -> Result<Line, OutOfMemory>
    ensures { IfOk result (λ l. l ≡ line ++ unit_words unit) }
{
    match unit {
        Unit::Memory {
            size,
            read,
            ap,
            address,
            ..
        } => with_memory(line, size, read, ap, address),
        Unit::Ap { read, ap, addr, .. } => with_ap(line, read, ap, addr),
        Unit::Dp { read, addr, .. } => with_dp(alloc, line, read, addr),
        Unit::Poll { .. } => line.text("poll"),
    }
}

/// A line with an access after it, or with the word for a probe command. `OutOfMemory` where memory is refused.
pub fn with_call(alloc: Global, line: Line, call: Call) -> Result<Line, OutOfMemory>
    ensures { IfOk result (λ l. l ≡ line ++ call_words call) }
{
    match call {
        Call::Access(unit) => with_unit(alloc, line, unit),
        Call::Probe(_) => line.text("command"),
    }
}
