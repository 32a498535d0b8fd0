//! The register accesses of which calls are made, and what they are written with.
ghost use Rattle.std.specs.Prelude.{◌≡◌, ◌<◌, ◌⊎◌, ◌*◌, ◌/◌, ◌%◌, ◌^◌, false, if◌then◌else◌};
ghost use Rattle.target_machine.specs.Plain.{ap_access_of, dp_read_of, dp_write_of, drw_of, from_lanes, select_of, to_lanes};

use target_machine::RegAccess;
use target_machine::registers::{DRW, SELECT};

/// An access of the register of the debug port at a byte address; a read writes 0.
pub fn access_dp(read: bool, addr: u8, value: u32) -> RegAccess
    ensures { result ≡ (if read then dp_read_of addr else dp_write_of addr value) }
{
    RegAccess {
        ap: false,
        read,
        addr,
        value: if read { 0 } else { value },
    }
}

/// The write of SELECT with this AP and this bank of 16 bytes; DPBANKSEL is 0.
pub fn select(ap: u8, bank: u8) -> RegAccess
    requires { bank < 16 }
    ensures { result ≡ select_of ap bank }
{
    RegAccess {
        ap: false,
        read: false,
        addr: SELECT,
        value: u32::from(ap) * 0x100_0000 + u32::from(bank) * 16,
    }
}

/// An access of the register of the selected AP and bank at a byte address; a read writes 0.
pub fn access_ap(read: bool, addr: u8, value: u32) -> RegAccess
    ensures { result ≡ ap_access_of read addr value }
{
    RegAccess {
        ap: true,
        read,
        addr,
        value: if read { 0 } else { value },
    }
}

/// An access of DRW for the memory at a byte address, with the value in its lanes.
pub fn access_drw(read: bool, address: u64, value: u32) -> RegAccess
    requires { read ≡ false → value * 2 ^ (8 * (address % 4)) < 2 ^ 32 }
    ensures { result ≡ drw_of read address value }
{
    if read {
        access_ap(true, DRW, 0)
    } else {
        access_ap(false, DRW, in_lanes(address, value))
    }
}

// The value in its lanes of DRW.
fn in_lanes(address: u64, value: u32) -> u32
    requires { value * 2 ^ (8 * (address % 4)) < 2 ^ 32 }
    ensures { result ≡ to_lanes address value }
{
    match address % 4 {
        0 => value,
        1 => value * 0x100,
        2 => value * 0x1_0000,
        _ => value * 0x100_0000,
    }
}

/// The value of 1, 2 or 4 bytes at a byte address, in the lanes of what was read from DRW.
pub fn from_lanes(size: u8, address: u64, word: u32) -> u32
    requires { (size ≡ 1) ⊎ ((size ≡ 2) ⊎ (size ≡ 4)) }
    ensures { result ≡ from_lanes size address word }
{
    let shifted = match address % 4 {
        0 => word,
        1 => word / 0x100,
        2 => word / 0x1_0000,
        _ => word / 0x100_0000,
    };
    match size {
        1 => shifted % 0x100,
        2 => shifted % 0x1_0000,
        _ => shifted,
    }
}

/// The low 32 bits of an address: TAR.
pub fn low_of(address: u64) -> u32
    ensures { result ≡ address % 2 ^ 32 }
{
    (address % 0x1_0000_0000) as u32
}

/// The other bits of an address: the upper word of TAR.
pub fn high_of(address: u64) -> u32
    ensures { result ≡ address / 2 ^ 32 }
{
    (address / 0x1_0000_0000) as u32
}
