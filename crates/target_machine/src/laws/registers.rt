//! The constants of `registers` are the numbers that the definitions name.
ghost use Rattle.std.specs.Prelude.{◌≡◌};
ghost use Rattle.target_machine.specs.Registers as named;

use crate::registers::*;

/// The addresses of the registers, the bits and the masks are those of the definitions.
pub fn registers_are_named()
    ensures dpidr { DPIDR ≡ named.dpidr_address }
    ensures abort { ABORT ≡ named.abort_address }
    ensures ctrl_stat { CTRL_STAT ≡ named.ctrl_stat_address }
    ensures select { SELECT ≡ named.select_address }
    ensures resend { RESEND ≡ named.resend_address }
    ensures rdbuff { RDBUFF ≡ named.rdbuff_address }
    ensures csw { CSW ≡ named.csw_register }
    ensures tar { TAR ≡ named.tar_register }
    ensures tar_high { TAR_HIGH ≡ named.tar_high_register }
    ensures drw { DRW ≡ named.drw_register }
    ensures bd_bank { BD_BANK ≡ named.bd_bank }
    ensures cfg { CFG ≡ named.cfg_register }
    ensures base { BASE ≡ named.base_register }
    ensures idr { IDR ≡ named.idr_register }
    ensures address_bits { ADDRESS_BITS ≡ named.address_bits }
    ensures cdbgpwrupreq { CDBGPWRUPREQ ≡ named.cdbgpwrupreq }
    ensures cdbgpwrupack { CDBGPWRUPACK ≡ named.cdbgpwrupack }
    ensures csyspwrupreq { CSYSPWRUPREQ ≡ named.csyspwrupreq }
    ensures csyspwrupack { CSYSPWRUPACK ≡ named.csyspwrupack }
    ensures power_requests { POWER_REQUESTS ≡ named.power_requests }
    ensures stickyerr { STICKYERR ≡ named.stickyerr }
    ensures ctrl_stored { CTRL_STORED ≡ named.ctrl_stored }
    ensures stkerrclr { STKERRCLR ≡ named.stkerrclr }
    ensures clear_all { CLEAR_ALL ≡ named.clear_all }
    ensures dpbanksel { DPBANKSEL ≡ named.dpbanksel }
    ensures apbanksel { APBANKSEL ≡ named.apbanksel }
    ensures select_stored { SELECT_STORED ≡ named.select_stored }
    ensures csw_size { CSW_SIZE ≡ named.csw_size }
    ensures csw_addrinc { CSW_ADDRINC ≡ named.csw_addrinc }
    ensures addrinc_single { ADDRINC_SINGLE ≡ named.addrinc_single }
    ensures device_en { DEVICE_EN ≡ named.device_en }
    ensures csw_stored { CSW_STORED ≡ named.csw_stored }
    ensures csw_others { CSW_OTHERS ≡ named.csw_others }
    ensures cfg_la { CFG_LA ≡ named.cfg_la }
    ensures whole_word { WHOLE_WORD ≡ named.whole_word }
    ensures driven_pins { DRIVEN_PINS ≡ named.driven_pins }
    ensures no_pins { NO_PINS ≡ named.no_pins }
    ensures nreset { NRESET ≡ named.nreset }
{}
