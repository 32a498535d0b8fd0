//! Units as text.
ghost use Rattle.std.specs.Prelude.{◌≡◌, ◌++◌, ◌*◌, codes, decimal, option_map, IfOk};
ghost use Rattle.direct_calls.specs.Made.{call_end_of};
ghost use Rattle.text_lines.specs.Hex.{hex, hex2, hex8, hex_address};
ghost use Rattle.log_lines.specs.Units.{call_text, command_text, direction_word, end_text, has_result, made_text, port_text, unit_text, written_text};

use dap_base::OutOfMemory;
use direct_calls::Made;
use std::alloc::Global;
use target_calls::Ask;
use target_machine::{Call, ProbeCall, Unit};
use text_lines::Line;

fn direction_text(read: bool) -> &'static str
    ensures { result.now ≡ direction_word read }
{
    if read { "read" } else { "write" }
}

// What a write writes.
fn with_written(alloc: Global, line: Line, read: bool, value: u32) -> Result<Line, OutOfMemory>
    ensures { IfOk result (λ l. l ≡ line ++ written_text read value) }
{
    if read {
        Ok(line)
    } else {
        line.text(" = ")?.hex(alloc, u64::from(value))
    }
}

// A memory access.
fn with_memory(line: Line, size: u8, read: bool, ap: u8, address: u64) -> Result<Line, OutOfMemory>
    ensures { IfOk result (λ l. l ≡ line ++ direction_word read ++ decimal (8 * size) ++ codes " " ++ hex_address address ++ port_text ap) }
{
    let line = line
        .text(direction_text(read))?
        .decimal(8 * u64::from(size))?;
    line.text(" ")?
        .add_address(address)?
        .add_labelled(" ap ", u64::from(ap))
}

// An access to a register of an access port.
fn with_ap(line: Line, read: bool, ap: u8, addr: u8) -> Result<Line, OutOfMemory>
    ensures { IfOk result (λ l. l ≡ line ++ direction_word read ++ codes "ap " ++ hex2 addr ++ port_text ap) }
{
    let line = line.text(direction_text(read))?.text("ap ")?;
    line.hex2(addr)?.add_labelled(" ap ", u64::from(ap))
}

// An access to a register of the debug port.
fn with_dp(alloc: Global, line: Line, read: bool, addr: u8) -> Result<Line, OutOfMemory>
    ensures { IfOk result (λ l. l ≡ line ++ direction_word read ++ codes "dp " ++ hex addr) }
{
    let line = line.text(direction_text(read))?.text("dp ")?;
    line.hex(alloc, u64::from(addr))
}

// A poll of CTRL/STAT.
fn with_poll(line: Line, mask: u32, value: u32, turns: u32) -> Result<Line, OutOfMemory>
    ensures { IfOk result (λ l. l ≡ line ++ codes "poll mask " ++ hex8 mask ++ codes " value " ++ hex8 value ++ codes " turns " ++ decimal turns) }
{
    let line = line.text("poll mask ")?.hex8(mask)?;
    line.text(" value ")?
        .hex8(value)?
        .add_labelled(" turns ", u64::from(turns))
}

// An access.
fn with_unit(alloc: Global, line: Line, unit: Unit) -> Result<Line, OutOfMemory>
    ensures { IfOk result (λ l. l ≡ line ++ unit_text unit) }
{
    match unit {
        Unit::Memory {
            size,
            read,
            ap,
            address,
            value,
        } => {
            let line = with_memory(line, size, read, ap, address)?;
            with_written(alloc, line, read, value)
        }
        Unit::Ap {
            read,
            ap,
            addr,
            value,
        } => {
            let line = with_ap(line, read, ap, addr)?;
            with_written(alloc, line, read, value)
        }
        Unit::Dp { read, addr, value } => {
            let line = with_dp(alloc, line, read, addr)?;
            with_written(alloc, line, read, value)
        }
        Unit::Poll { mask, value, turns } => with_poll(line, mask, value, turns),
    }
}

// `DAP_SWJ_Pins`.
fn with_pins(line: Line, output: u8, select: u8, wait: u32) -> Result<Line, OutOfMemory>
    ensures { IfOk result (λ l. l ≡ line ++ codes "pins " ++ hex2 output ++ codes " select " ++ hex2 select ++ codes " wait " ++ decimal wait) }
{
    let line = line.text("pins ")?.hex2(output)?;
    line.text(" select ")?
        .hex2(select)?
        .add_labelled(" wait ", u64::from(wait))
}

// A command of the probe.
fn with_command(alloc: Global, line: Line, call: ProbeCall) -> Result<Line, OutOfMemory>
    ensures { IfOk result (λ l. l ≡ line ++ command_text call) }
{
    match call {
        ProbeCall::Delay(micros) => line.add_labelled("delay ", u64::from(micros)),
        ProbeCall::Abort(value) => line.text("abort = ")?.hex(alloc, u64::from(value)),
        ProbeCall::Pins {
            output,
            select,
            wait,
        } => with_pins(line, output, select, wait),
        ProbeCall::Clock(hertz) => line.add_labelled("clock ", u64::from(hertz)),
        ProbeCall::Line { count, bits } => {
            let line = line.add_labelled("line ", u64::from(count))?;
            line.text(" bits ")?.hex(alloc, bits)
        }
    }
}

// A call.
fn with_call(alloc: Global, line: Line, call: Call) -> Result<Line, OutOfMemory>
    ensures { IfOk result (λ l. l ≡ line ++ call_text call) }
{
    match call {
        Call::Access(unit) => with_unit(alloc, line, unit),
        Call::Probe(command) => with_command(alloc, line, command),
    }
}

// The call has a result: what is read, whether a poll matched, the pins.
fn has_result(call: Call) -> bool
    ensures { result ≡ has_result call }
{
    match call {
        Call::Access(Unit::Memory { read, .. })
        | Call::Access(Unit::Ap { read, .. })
        | Call::Access(Unit::Dp { read, .. }) => read,
        Call::Access(Unit::Poll { .. }) | Call::Probe(ProbeCall::Pins { .. }) => true,
        Call::Probe(_) => false,
    }
}

// How a call ends.
fn with_end(
    alloc: Global,
    line: Line,
    has_result: bool,
    end: Option<Made>,
) -> Result<Line, OutOfMemory>
    ensures { IfOk result (λ l. l ≡ line ++ end_text has_result (option_map call_end_of end)) }
{
    match end {
        Some(Made::Answered(value)) => {
            if has_result {
                line.text(" -> ")?.hex(alloc, u64::from(value))
            } else {
                Ok(line)
            }
        }
        Some(Made::Skipped) => line.text(" fault, forgiven"),
        Some(Made::Faulted) => line.text(" fault"),
        Some(Made::Small) => line.text(" no large addresses"),
        None => line.text(" no answer"),
    }
}

/// A unit, added to a line: its number from 1, the call, and how it ends, `None` where it is not answered. `OutOfMemory` where memory
/// is refused.
pub fn with_made(
    alloc: Global,
    line: Line,
    number: u64,
    ask: &Ask,
    end: Option<Made>,
) -> Result<Line, OutOfMemory>
    ensures { IfOk result (λ l. l ≡ line ++ made_text (record { number = number; ask = ask.now; end = option_map call_end_of end })) }
{
    let line = line.add_labelled("unit ", number)?.text(" ")?;
    let call = ask.call;
    let line = with_call(alloc, line, call)?;
    with_end(alloc, line, has_result(call), end)
}
