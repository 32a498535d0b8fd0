//! The lines of a report from the number of units on.
ghost use Rattle.std.specs.Prelude.{◌≡◌, ◌++◌, IfOk, codes, decimal};
ghost use Rattle.text_lines.specs.Hex.{hex2, hex8, hex16};
ghost use Rattle.report_lines.specs.Lines.{ap_line, dp_line, high_part, lines_line, place_part, units_line, variable_line, word_line};

use crate::words::bit_text;
use dap_base::OutOfMemory;
use std::alloc::Global;
use target_machine::{ApImage, DpImage, LinesImage, WordImage};
use text_lines::Line;

/// How many units were asked.
pub fn units_text(alloc: Global, units: u64) -> Result<Line, OutOfMemory>
    ensures { IfOk result (λ line. line ≡ units_line units) }
{
    Line::begin(alloc, "units ")?.decimal(units)?.text("\n")
}

/// A variable.
pub fn variable_text(alloc: Global, name: &str, value: u64) -> Result<Line, OutOfMemory>
    ensures { IfOk result (λ line. line ≡ variable_line name.now value) }
{
    let line = Line::begin(alloc, "var ")?.text(name)?.text(" ")?;
    line.hex(alloc, value)?.text("\n")
}

// SELECT and CTRL/STAT.
fn begin_dp(alloc: Global, image: &DpImage) -> Result<Line, OutOfMemory>
    ensures { IfOk result (λ line. line ≡ codes "dp select " ++ hex8 image.now.select ++ codes " ctrl " ++ hex8 image.now.ctrl) }
{
    let line = Line::begin(alloc, "dp select ")?.hex8(image.select)?;
    line.text(" ctrl ")?.hex8(image.ctrl)
}

/// The debug port.
pub fn dp_text(alloc: Global, image: &DpImage) -> Result<Line, OutOfMemory>
    ensures { IfOk result (λ line. line ≡ dp_line image.now) }
{
    let line = begin_dp(alloc, image)?.text(" sticky ")?;
    let line = line.text(bit_text(image.sticky))?;
    line.add_labelled(" reads ", u64::from(image.reads))?
        .text("\n")
}

// The upper word of TAR, where there is one.
fn with_high(line: Line, high: Option<u32>) -> Result<Line, OutOfMemory>
    ensures { IfOk result (λ l. l ≡ line ++ high_part high) }
{
    match high {
        Some(high) => line.text(" high ")?.hex8(high),
        None => Ok(line),
    }
}

/// An access port.
pub fn ap_text(alloc: Global, ap: u8, image: &ApImage) -> Result<Line, OutOfMemory>
    ensures { IfOk result (λ line. line ≡ ap_line ap image.now) }
{
    let line = Line::begin(alloc, "ap ")?.decimal(u64::from(ap))?;
    let line = line.text(" csw ")?.hex8(image.csw)?;
    let line = line.text(" tar ")?.hex8(image.tar)?;
    with_high(line, image.high)?.text("\n")
}

// The pins and the bits.
fn begin_lines(alloc: Global, image: &LinesImage) -> Result<Line, OutOfMemory>
    ensures { IfOk result (λ line. line ≡ codes "lines pins " ++ hex2 image.now.pins
        ++ codes " bits " ++ decimal image.now.bits ++ codes " last " ++ hex16 image.now.last) }
{
    let line = Line::begin(alloc, "lines pins ")?.hex2(image.pins)?;
    let line = line.text(" bits ")?.decimal(image.bits)?;
    line.text(" last ")?.hex16(image.last)
}

// The clock and the delays.
fn end_lines(line: Line, image: &LinesImage) -> Result<Line, OutOfMemory>
    ensures { IfOk result (λ l. l ≡ line ++ codes " clock " ++ decimal image.now.clock ++ codes " delay " ++ decimal image.now.delay ++ codes "\n") }
{
    let line = line.add_labelled(" clock ", u64::from(image.clock))?;
    line.add_labelled(" delay ", image.delay)?.text("\n")
}

/// The lines of the probe.
pub fn lines_text(alloc: Global, image: &LinesImage) -> Result<Line, OutOfMemory>
    ensures { IfOk result (λ line. line ≡ lines_line image.now) }
{
    end_lines(begin_lines(alloc, image)?, image)
}

// The place of a value among several, where there is one.
fn with_place(line: Line, place: Option<u32>) -> Result<Line, OutOfMemory>
    ensures { IfOk result (λ l. l ≡ line ++ place_part place) }
{
    match place {
        Some(place) => line.text(" at ")?.decimal(u64::from(place)),
        None => Ok(line),
    }
}

/// A word of memory.
pub fn word_text(alloc: Global, address: u64, image: &WordImage) -> Result<Line, OutOfMemory>
    ensures { IfOk result (λ line. line ≡ word_line address image.now) }
{
    let line = Line::begin(alloc, "mem ")?.add_address(address)?;
    let line = line.text(" ")?.hex8(image.value)?;
    with_place(line, image.place)?.text("\n")
}
