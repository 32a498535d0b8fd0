//! What is known after accesses that were made.
ghost use Rattle.std.specs.Prelude.{◌≡◌};
ghost use Rattle.dap_base.specs.Bits.{has_bit};
ghost use Rattle.target_machine.specs.Registers.{cfg_la};
ghost use Rattle.target_machine.specs.Sound.{IsSound};
ghost use Rattle.access_regs.specs.Plan.{kept_after_csw, learned_cfg, kept_after_plan, kept_after_settling};

use super::Managed;
use crate::values::{increment_off, planned_csw, predict_tar, select_value};
use crate::{Known, Unsettled};
use target_calls::accesses::{high_of, low_of};
use target_machine::Unit;
use target_machine::registers::{CFG, CFG_LA, SELECT};

impl Managed {
    /// The plan of this unit was made. A memory unit leaves its access port unsettled, with TAR
    /// predicted as its address and size. Of the port of an AP unit CSW, TAR and its upper word are
    /// no longer known. Of a write of SELECT the value is noted as it was written.
    pub fn note_made(&mut self, unit: &Unit)
        requires sound { IsSound unit.now }
        ensures { self.new ≡ kept_after_plan self.old unit.now }
    {
        match *unit {
            Unit::Memory {
                size,
                ap,
                address,
                ..
            } => {
                let known = self.known_port(ap);
                let low = low_of(address);
                let high = if known.large {
                    Some(high_of(address))
                } else {
                    known.high
                };
                let after = Known {
                    csw: Some(planned_csw(known.csw.unwrap_or(0), size)),
                    tar: predict_tar(low, size),
                    high,
                    large: known.large,
                };
                self.note(ap, after);
                self.select = Some(select_value(ap, 0));
                self.unsettled = Some(Unsettled { ap, tar: low });
            }
            Unit::Ap { ap, addr, .. } => {
                self.forget_port(ap);
                self.select = Some(select_value(ap, addr / 16));
            }
            Unit::Dp { read, addr, value } => {
                if !read && addr == SELECT {
                    self.select = Some(value);
                }
            }
            Unit::Poll { .. } => {}
        }
    }

    /// The settling was made, where there was one: no access port is unsettled now.
    pub fn note_settled(&mut self)
        ensures { self.new ≡ kept_after_settling self.old }
    {
        if let Some(unsettled) = self.unsettled {
            let known = self.known_port(unsettled.ap);
            let after = Known {
                csw: Some(increment_off(known.csw.unwrap_or(0))),
                tar: Some(unsettled.tar),
                high: known.high,
                large: known.large,
            };
            self.note(unsettled.ap, after);
            self.unsettled = None;
        }
    }

    /// The first plan of this access port was made, and read this CSW.
    pub fn learn(&mut self, ap: u8, csw: u32)
        ensures { self.new ≡ kept_after_csw self.old ap csw }
    {
        let known = self.known_port(ap);
        let after = Known {
            csw: Some(csw),
            tar: known.tar,
            high: known.high,
            large: known.large,
        };
        self.note(ap, after);
        self.select = Some(select_value(ap, 0));
    }

    /// The read of CFG of this access port was made, and gave this value. Answers whether the port
    /// has large addresses: bit 1, LA.
    pub fn learn_cfg(&mut self, ap: u8, cfg: u32) -> bool
        ensures kept { self.new ≡ learned_cfg self.old ap cfg }
        ensures large { result ≡ has_bit cfg cfg_la }
    {
        let large = cfg & CFG_LA != 0;
        let known = self.known_port(ap);
        let after = Known {
            csw: known.csw,
            tar: known.tar,
            high: known.high,
            large: known.large || large,
        };
        self.note(ap, after);
        self.select = Some(select_value(ap, CFG / 16));
        large
    }
}
