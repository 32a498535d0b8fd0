//! The registers of ADIv5 by name: their addresses, their bits, and the bits of them that are stored.

/// DPIDR, which is read at 0x0.
pub const DPIDR: u8 = 0x0;
/// ABORT, which is written at 0x0.
pub const ABORT: u8 = 0x0;
/// CTRL/STAT, at 0x4 where SELECT.DPBANKSEL is 0.
pub const CTRL_STAT: u8 = 0x4;
/// SELECT, which is written at 0x8.
pub const SELECT: u8 = 0x8;
/// RESEND, which is read at 0x8.
pub const RESEND: u8 = 0x8;
/// RDBUFF, which is read at 0xC.
pub const RDBUFF: u8 = 0xC;

/// CTRL/STAT bit 28: the request of debug power.
pub const CDBGPWRUPREQ: u32 = 0x1000_0000;
/// CTRL/STAT bit 29: the acknowledgement of debug power.
pub const CDBGPWRUPACK: u32 = 0x2000_0000;
/// CTRL/STAT bit 30: the request of system power.
pub const CSYSPWRUPREQ: u32 = 0x4000_0000;
/// CTRL/STAT bit 31: the acknowledgement of system power.
pub const CSYSPWRUPACK: u32 = 0x8000_0000;
/// CTRL/STAT bits 30 and 28: both requests of power.
pub const POWER_REQUESTS: u32 = 0x5000_0000;
/// CTRL/STAT bit 5.
pub const STICKYERR: u32 = 0x20;
/// CTRL/STAT bits 30, 28 and 11:8: those that are stored, the requests of power and MASKLANE.
pub const CTRL_STORED: u32 = 0x5000_0F00;

/// ABORT bit 2, which clears STICKYERR.
pub const STKERRCLR: u32 = 0x4;
/// ABORT bits 4:1, ORUNERRCLR, WDERRCLR, STKERRCLR and STKCMPCLR, which clear each sticky flag.
pub const CLEAR_ALL: u32 = 0x1E;

/// SELECT bits 3:0.
pub const DPBANKSEL: u32 = 0xF;
/// SELECT bits 7:4.
pub const APBANKSEL: u32 = 0xF0;
/// SELECT bits 31:24, 7:4 and 3:0: those that are stored, APSEL, APBANKSEL and DPBANKSEL.
pub const SELECT_STORED: u32 = 0xFF00_00FF;

/// CSW, in bank 0 of a MEM-AP.
pub const CSW: u8 = 0x00;
/// TAR, in bank 0.
pub const TAR: u8 = 0x04;
/// The upper word of TAR, in bank 0.
pub const TAR_HIGH: u8 = 0x08;
/// DRW, in bank 0.
pub const DRW: u8 = 0x0C;
/// The bank of BD0 to BD3.
pub const BD_BANK: u8 = 1;
/// CFG, in bank F.
pub const CFG: u8 = 0xF4;
/// BASE, in bank F.
pub const BASE: u8 = 0xF8;
/// IDR, in bank F.
pub const IDR: u8 = 0xFC;
/// Bits 3:2, those of the address of an AP access that count.
pub const ADDRESS_BITS: u8 = 0xC;

/// CSW bits 2:0, Size.
pub const CSW_SIZE: u32 = 0x7;
/// CSW bits 5:4, AddrInc.
pub const CSW_ADDRINC: u32 = 0x30;
/// AddrInc, where it is single.
pub const ADDRINC_SINGLE: u32 = 0x10;
/// CSW bit 6, DeviceEn.
pub const DEVICE_EN: u32 = 0x40;
/// CSW bits 31:24 and 5:0: those that are stored.
pub const CSW_STORED: u32 = 0xFF00_003F;
/// CSW without bits 5:4 and 2:0, AddrInc and Size.
pub const CSW_OTHERS: u32 = 0xFFFF_FFC8;
/// CFG bit 1, LA: the AP has large physical addresses.
pub const CFG_LA: u32 = 0x2;
/// All lanes of a word.
pub const WHOLE_WORD: u32 = 0xFFFF_FFFF;

/// The pins that the probe drives: bits 7, 5, 2, 1 and 0.
pub const DRIVEN_PINS: u8 = 0xA7;
/// Bits 6 and 4, which are no pins.
pub const NO_PINS: u8 = 0x50;
/// nRESET, bit 7 of the pins.
pub const NRESET: u8 = 0x80;
