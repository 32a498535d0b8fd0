//! What registers are written with.
ghost use Rattle.std.specs.Prelude.{◌≡◌, ◌<◌, ◌⊎◌, ◌%◌};
ghost use Rattle.target_machine.specs.Plain.{dp_write_of};
ghost use Rattle.target_machine.specs.Registers.{select_address};
ghost use Rattle.access_regs.specs.Kept.{is_known};
ghost use Rattle.access_regs.specs.Plan as plans;

use target_machine::RegAccess;
use target_machine::registers::{ADDRINC_SINGLE, CSW_ADDRINC, CSW_OTHERS, SELECT};

// SELECT with this AP and this bank.
pub(crate) fn select_value(ap: u8, bank: u8) -> u32
    requires { bank < 16 }
    ensures { result ≡ plans.select_value ap bank }
{
    u32::from(ap) * 0x100_0000 + u32::from(bank) * 16
}

// A write of SELECT.
pub(crate) fn write_select(value: u32) -> RegAccess
    ensures { result ≡ dp_write_of select_address value }
{
    RegAccess {
        ap: false,
        read: false,
        addr: SELECT,
        value,
    }
}

// CSW with this size and AddrInc single, its other bits as they are known.
pub(crate) fn planned_csw(csw: u32, size: u8) -> u32
    ensures { result ≡ plans.planned_csw csw size }
{
    let code = match size {
        1 => 0,
        2 => 1,
        _ => 2,
    };
    (csw & CSW_OTHERS) + code + ADDRINC_SINGLE
}

// What TAR is after an access by DRW; where that is a multiple of 1,024 it is not known.
pub(crate) fn predict_tar(tar: u32, size: u8) -> Option<u32>
    requires sized { (size ≡ 1) ⊎ ((size ≡ 2) ⊎ (size ≡ 4)) }
    requires aligned { tar % size ≡ 0 }
    ensures { result ≡ plans.predicted_tar tar size }
{
    if tar > 0xFFFF_FFFF - u32::from(size) {
        return None;
    }
    let next = tar + u32::from(size);
    if next % 1024 == 0 { None } else { Some(next) }
}

// CSW with AddrInc off.
pub(crate) fn increment_off(csw: u32) -> u32
    ensures { result ≡ plans.increment_off csw }
{
    csw & !CSW_ADDRINC
}

// Whether the value is known, and is this one.
pub(crate) fn is_known(known: Option<u32>, value: u32) -> bool
    ensures { result ≡ is_known known value }
{
    match known {
        Some(number) => number == value,
        None => false,
    }
}
