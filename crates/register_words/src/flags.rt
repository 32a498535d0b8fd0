//! The bits of registers, the pins and the line sequences by name.
ghost use Rattle.std.specs.Prelude.{◌≡◌, ◌++◌, IfOk};
ghost use Rattle.register_words.specs.Flags.{flag_word, power_flags, reset_flags, sticky_flags, ctrl_stat_flags, clear_flags, abort_flags, size_name};
ghost use Rattle.register_words.specs.Flags.{increment_name, csw_flags, csw_words, dp_bank_words, select_words, reset_pins, line_pins, pin_names};
ghost use Rattle.register_words.specs.Flags.{switch_name, reset_name, line_name};

use dap_base::OutOfMemory;
use target_machine::registers::{APBANKSEL, CSW_ADDRINC, CSW_SIZE, DPBANKSEL};
use text_lines::Line;

// A name, where the bit is set.
#[tactic(auto, unfolding(crate::specs::Flags::flag_word))]
fn with_flag(line: Line, word: u32, mask: u32, name: &str) -> Result<Line, OutOfMemory>
    ensures { IfOk result (λ l. l ≡ line ++ flag_word word mask name.now) }
{
    if word & mask != 0 {
        line.text(name)
    } else {
        Ok(line)
    }
}

fn with_power_flags(line: Line, word: u32) -> Result<Line, OutOfMemory>
    ensures { IfOk result (λ l. l ≡ line ++ power_flags word) }
{
    let line = with_flag(line, word, 0x8000_0000, " CSYSPWRUPACK")?;
    let line = with_flag(line, word, 0x4000_0000, " CSYSPWRUPREQ")?;
    let line = with_flag(line, word, 0x2000_0000, " CDBGPWRUPACK")?;
    with_flag(line, word, 0x1000_0000, " CDBGPWRUPREQ")
}

fn with_reset_flags(line: Line, word: u32) -> Result<Line, OutOfMemory>
    ensures { IfOk result (λ l. l ≡ line ++ reset_flags word) }
{
    let line = with_flag(line, word, 0x0800_0000, " CDBGRSTACK")?;
    let line = with_flag(line, word, 0x0400_0000, " CDBGRSTREQ")?;
    let line = with_flag(line, word, 0x80, " WDATAERR")?;
    with_flag(line, word, 0x40, " READOK")
}

fn with_sticky_flags(line: Line, word: u32) -> Result<Line, OutOfMemory>
    ensures { IfOk result (λ l. l ≡ line ++ sticky_flags word) }
{
    let line = with_flag(line, word, 0x20, " STICKYERR")?;
    let line = with_flag(line, word, 0x10, " STICKYCMP")?;
    let line = with_flag(line, word, 0x02, " STICKYORUN")?;
    with_flag(line, word, 0x01, " ORUNDETECT")
}

/// The bits of CTRL/STAT that are set, added to a line. `OutOfMemory` where memory is refused.
#[tactic(auto, unfolding(crate::specs::Flags::ctrl_stat_flags))]
pub fn with_ctrl_stat(line: Line, word: u32) -> Result<Line, OutOfMemory>
    ensures { IfOk result (λ l. l ≡ line ++ ctrl_stat_flags word) }
{
    let line = with_power_flags(line, word)?;
    let line = with_reset_flags(line, word)?;
    with_sticky_flags(line, word)
}

fn with_clear_flags(line: Line, word: u32) -> Result<Line, OutOfMemory>
    ensures { IfOk result (λ l. l ≡ line ++ clear_flags word) }
{
    let line = with_flag(line, word, 0x10, " ORUNERRCLR")?;
    let line = with_flag(line, word, 0x08, " WDERRCLR")?;
    let line = with_flag(line, word, 0x04, " STKERRCLR")?;
    with_flag(line, word, 0x02, " STKCMPCLR")
}

/// The bits of ABORT that are set, added to a line. `OutOfMemory` where memory is refused.
#[tactic(auto, unfolding(crate::specs::Flags::abort_flags))]
pub fn with_abort(line: Line, word: u32) -> Result<Line, OutOfMemory>
    ensures { IfOk result (λ l. l ≡ line ++ abort_flags word) }
{
    let line = with_clear_flags(line, word)?;
    with_flag(line, word, 0x01, " DAPABORT")
}

#[tactic(auto, unfolding(crate::specs::Flags::size_name))]
fn with_size(line: Line, size: u32) -> Result<Line, OutOfMemory>
    ensures { IfOk result (λ l. l ≡ line ++ size_name size) }
{
    match size {
        0 => line.text(" byte"),
        1 => line.text(" halfword"),
        2 => line.text(" word"),
        _ => line.add_labelled(" size ", u64::from(size)),
    }
}

#[tactic(auto, unfolding(crate::specs::Flags::increment_name))]
fn with_increment(line: Line, increment: u32) -> Result<Line, OutOfMemory>
    ensures { IfOk result (λ l. l ≡ line ++ increment_name increment) }
{
    match increment {
        0x00 => line.text(" no increment"),
        0x10 => line.text(" increment"),
        0x20 => line.text(" packed"),
        _ => line.text(" increment 3"),
    }
}

fn with_csw_flags(line: Line, word: u32) -> Result<Line, OutOfMemory>
    ensures { IfOk result (λ l. l ≡ line ++ csw_flags word) }
{
    let line = with_flag(line, word, 0x8000_0000, " DbgSwEnable")?;
    let line = with_flag(line, word, 0x80, " TrInProg")?;
    with_flag(line, word, 0x40, " DeviceEn")
}

/// Size and AddrInc of CSW, and bits 31, 7 and 6, added to a line. `OutOfMemory` where memory is refused.
#[tactic(auto, unfolding(crate::specs::Flags::csw_words))]
pub fn with_csw(line: Line, word: u32) -> Result<Line, OutOfMemory>
    ensures { IfOk result (λ l. l ≡ line ++ csw_words word) }
{
    let line = with_size(line, word & CSW_SIZE)?;
    let line = with_increment(line, word & CSW_ADDRINC)?;
    with_csw_flags(line, word)
}

#[tactic(auto, unfolding(crate::specs::Flags::dp_bank_words))]
fn with_dp_bank(line: Line, bank: u32) -> Result<Line, OutOfMemory>
    ensures { IfOk result (λ l. l ≡ line ++ dp_bank_words bank) }
{
    if bank == 0 {
        Ok(line)
    } else {
        line.add_labelled(" dp bank ", u64::from(bank))
    }
}

/// APSEL, APBANKSEL and DPBANKSEL of SELECT, added to a line. `OutOfMemory` where memory is refused.
#[tactic(auto, unfolding(crate::specs::Flags::select_words))]
pub fn with_select(line: Line, word: u32) -> Result<Line, OutOfMemory>
    ensures { IfOk result (λ l. l ≡ line ++ select_words word) }
{
    let line = line.add_labelled(" ap ", u64::from(word / 0x100_0000))?;
    let line = line.text(" bank ")?.hex2((word & APBANKSEL) as u8)?;
    with_dp_bank(line, word & DPBANKSEL)
}

fn with_reset_pins(line: Line, pins: u32) -> Result<Line, OutOfMemory>
    ensures { IfOk result (λ l. l ≡ line ++ reset_pins pins) }
{
    let line = with_flag(line, pins, 0x80, " nRESET")?;
    with_flag(line, pins, 0x20, " nTRST")
}

fn with_line_pins(line: Line, pins: u32) -> Result<Line, OutOfMemory>
    ensures { IfOk result (λ l. l ≡ line ++ line_pins pins) }
{
    let line = with_flag(line, pins, 0x08, " TDO")?;
    let line = with_flag(line, pins, 0x04, " TDI")?;
    let line = with_flag(line, pins, 0x02, " SWDIO/TMS")?;
    with_flag(line, pins, 0x01, " SWCLK/TCK")
}

/// The pins of `DAP_SWJ_Pins` whose bits are set, added to a line. `OutOfMemory` where memory is refused.
#[tactic(auto, unfolding(crate::specs::Flags::pin_names))]
pub fn with_pins(line: Line, pins: u8) -> Result<Line, OutOfMemory>
    ensures { IfOk result (λ l. l ≡ line ++ pin_names pins) }
{
    let line = with_reset_pins(line, u32::from(pins))?;
    with_line_pins(line, u32::from(pins))
}

#[tactic(auto, unfolding(crate::specs::Flags::switch_name))]
fn switch_name(bits: u64) -> &'static str
    ensures { result.now ≡ switch_name bits }
{
    match bits {
        0xE79E => " JTAG to SWD",
        0xE73C => " SWD to JTAG",
        0xE3BC => " SWD to dormant",
        _ => "",
    }
}

#[tactic(auto, unfolding(crate::specs::Flags::reset_name))]
fn reset_name(count: u8, bits: u64) -> &'static str
    ensures { result.now ≡ reset_name count bits }
{
    if count >= 50 && bits.count_ones() == u32::from(count) {
        " line reset"
    } else {
        ""
    }
}

/// What a line sequence of 1 to 64 bits is, where it is known.
#[tactic(auto, unfolding(crate::specs::Flags::line_name))]
pub fn line_name(count: u8, bits: u64) -> &'static str
    ensures { result.now ≡ line_name count bits }
{
    if count == 16 {
        switch_name(bits)
    } else {
        reset_name(count, bits)
    }
}
