//! The register that a request accesses, and its name.
ghost use Rattle.std.specs.Prelude.{◌≡◌, ◌<◌, ◌++◌, Option, IfOk, codes};
ghost use Rattle.register_words.specs.Registers.{in_bank, register_in_bank, selected_dp_register, apsel, selected_ap_register, register_of, ap_name, register_name};

use dap_base::OutOfMemory;
use dap_messages::{ADDRESS_BITS, APNDP, RNW};
use target_machine::registers::{APBANKSEL, DPBANKSEL};
use text_lines::Line;

/// A register of ADIv5, as a request byte and SELECT choose it.
#[derive(Clone, Copy, Debug, PartialEq, Eq)]
pub enum Register {
    /// DPIDR, which is read at 0x0.
    Dpidr,
    /// ABORT, which is written at 0x0.
    Abort,
    /// CTRL/STAT, at 0x4 in bank 0.
    CtrlStat,
    /// DLCR, at 0x4 in bank 1.
    Dlcr,
    /// TARGETID, at 0x4 in bank 2.
    Targetid,
    /// DLPIDR, at 0x4 in bank 3.
    Dlpidr,
    /// EVENTSTAT, at 0x4 in bank 4.
    Eventstat,
    /// The register at 0x4 in another bank, or where SELECT is not known.
    Banked,
    /// SELECT, which is written at 0x8.
    Select,
    /// RESEND, which is read at 0x8.
    Resend,
    /// RDBUFF, which is read at 0xC.
    Rdbuff,
    /// TARGETSEL, which is written at 0xC.
    Targetsel,
    /// A register of an access port: bits 7:4 are the bank, bits 3:2 the address.
    Ap { ap: u8, register: u8 },
    /// A register of an access port, where SELECT is not known: bits 3:2.
    UnknownAp(u8),
}

#[tactic(auto, unfolding(crate::specs::Registers::in_bank))]
fn in_bank(bank: u32) -> Register
    ensures { result ≡ in_bank bank }
{
    match bank {
        0 => Register::CtrlStat,
        1 => Register::Dlcr,
        2 => Register::Targetid,
        3 => Register::Dlpidr,
        4 => Register::Eventstat,
        _ => Register::Banked,
    }
}

fn banked_register(select: Option<u32>) -> Register
    ensures { result ≡ register_in_bank select }
{
    match select {
        Some(select) => in_bank(select & DPBANKSEL),
        None => Register::Banked,
    }
}

#[tactic(auto, unfolding(crate::specs::Registers::selected_dp_register))]
fn dp_register(select: Option<u32>, is_read: bool, addr: u8) -> Register
    ensures { result ≡ selected_dp_register select is_read addr }
{
    match (addr, is_read) {
        (0x0, true) => Register::Dpidr,
        (0x0, false) => Register::Abort,
        (0x4, _) => banked_register(select),
        (0x8, true) => Register::Resend,
        (0x8, false) => Register::Select,
        (_, true) => Register::Rdbuff,
        (_, false) => Register::Targetsel,
    }
}

// The number of the access port.
fn apsel(select: u32) -> u8
    ensures { result ≡ apsel select }
{
    (select / 0x100_0000) as u8
}

fn ap_register(select: Option<u32>, addr: u8) -> Register
    requires { addr < 16 }
    ensures { result ≡ selected_ap_register select addr }
{
    match select {
        Some(select) => Register::Ap {
            ap: apsel(select),
            register: (select & APBANKSEL) as u8 + addr,
        },
        None => Register::UnknownAp(addr),
    }
}

/// The register that a request with this byte accesses, where SELECT has this value or is not known.
#[tactic(auto, unfolding(crate::specs::Registers::register_of))]
pub fn register_of(select: Option<u32>, byte: u8) -> Register
    ensures { result ≡ register_of select byte }
{
    let addr = byte & ADDRESS_BITS;
    if byte & APNDP != 0 {
        ap_register(select, addr)
    } else {
        dp_register(select, byte & RNW != 0, addr)
    }
}

// The name of a register of a MEM-AP.
#[tactic(auto, unfolding(crate::specs::Registers::ap_name))]
fn with_ap_name(line: Line, register: u8) -> Result<Line, OutOfMemory>
    ensures { IfOk result (λ l. l ≡ line ++ ap_name register) }
{
    match register {
        0x00 => line.text("CSW"),
        0x04 => line.text("TAR"),
        0x08 => line.text("TAR high"),
        0x0C => line.text("DRW"),
        0x10 => line.text("BD0"),
        0x14 => line.text("BD1"),
        0x18 => line.text("BD2"),
        0x1C => line.text("BD3"),
        0xF0 => line.text("BASE high"),
        0xF4 => line.text("CFG"),
        0xF8 => line.text("BASE"),
        0xFC => line.text("IDR"),
        _ => line.hex2(register),
    }
}

/// The name of a register after that of its port, added to a line. `OutOfMemory` where memory is refused.
#[tactic(auto, unfolding(crate::specs::Registers::register_name))]
pub fn with_register(line: Line, register: Register) -> Result<Line, OutOfMemory>
    ensures { IfOk result (λ l. l ≡ line ++ register_name register) }
{
    match register {
        Register::Dpidr => line.text("dp DPIDR"),
        Register::Abort => line.text("dp ABORT"),
        Register::CtrlStat => line.text("dp CTRL/STAT"),
        Register::Dlcr => line.text("dp DLCR"),
        Register::Targetid => line.text("dp TARGETID"),
        Register::Dlpidr => line.text("dp DLPIDR"),
        Register::Eventstat => line.text("dp EVENTSTAT"),
        Register::Banked => line.text("dp 0x04"),
        Register::Select => line.text("dp SELECT"),
        Register::Resend => line.text("dp RESEND"),
        Register::Rdbuff => line.text("dp RDBUFF"),
        Register::Targetsel => line.text("dp TARGETSEL"),
        Register::Ap { ap, register } => {
            let line = line.add_labelled("ap ", u64::from(ap))?.text(" ")?;
            with_ap_name(line, register)
        }
        Register::UnknownAp(addr) => line.text("ap ? ")?.hex2(addr),
    }
}
