//! What is known of the registers from unit to unit.
ghost use Rattle.std.specs.Prelude.{◌≡◌, IfOk, None};
ghost use Rattle.access_regs.specs.Kept.{forget, is_known, known_at, nothing_kept, kept_with_select, with_known};
ghost use Rattle.access_regs.specs.Plan.{bank_zero, needs_cfg, needs_csw, needs_settle};

mod notes;
mod plans;

use crate::values::{is_known, select_value};
use crate::{Known, Unsettled};
use dap_base::OutOfMemory;
use std::alloc::Global;
use std::marker::Model;
use target_machine::Unit;
use target_machine::registers::{CTRL_STAT, DPBANKSEL, SELECT};

/// SELECT as it was written last, what is known of each of 256 access ports, and which of them is unsettled. At most one is, and then
/// SELECT has it with bank 0.
#[derive(Debug, Drop)]
pub struct Managed {
    select: Option<u32>,
    ports: Vec<Known>,
    unsettled: Option<Unsettled>,
}

impl Model for Managed {
    ghost use Rattle.std.specs.Prelude.{◌≡◌, length};
    ghost use Rattle.std.specs.Coded.{codes};
    ghost use Rattle.access_regs.specs.Kept.{Kept};

    ghost Value = { Kept };

    ghost coded = { Prim.hlevel codes };

    ghost view = { λ m. record { select = m.select; ports = m.ports.items; unsettled = m.unsettled } };

    ghost invariant = { λ m. length m.ports.items ≡ 256 };
}

impl Managed {
    /// Nothing is known of any register. This call alone takes memory; an error where it is refused.
    pub fn new(alloc: Global) -> Result<Managed, OutOfMemory>
        ensures { IfOk result (λ managed. managed ≡ nothing_kept) }
    {
        let unknown = Known {
            csw: None,
            tar: None,
            high: None,
            large: false,
        };
        let Ok(ports) = Vec::from_elem(alloc, unknown, 256) else {
            return Err(OutOfMemory);
        };
        Ok(Managed {
            select: None,
            ports,
            unsettled: None,
        })
    }

    // What is known of this access port.
    fn known_port(&self, ap: u8) -> Known
        ensures { result ≡ known_at self.now ap }
    {
        self.ports[usize::from(ap)]
    }

    // Whether SELECT is known to have this value.
    fn is_selected(&self, value: u32) -> bool
        ensures { result ≡ is_known self.now.select value }
    {
        is_known(self.select, value)
    }

    /// Whether CSW of the unit's access port has to be read first, by `first_plan`: where it is not
    /// known, before a memory unit. It is asked where `needs_cfg` answers no.
    pub fn needs_csw(&self, unit: &Unit) -> bool
        ensures { result ≡ needs_csw self.now unit.now }
    {
        match *unit {
            Unit::Memory { ap, .. } => self.known_port(ap).csw.is_none(),
            _ => false,
        }
    }

    /// Whether CFG of the unit's access port has to be read first, by `cfg_plan`. It has to before a memory unit whose address is over
    /// 0xFFFFFFFF, where the port is not known to have large addresses.
    pub fn needs_cfg(&self, unit: &Unit) -> bool
        ensures { result ≡ needs_cfg self.now unit.now }
    {
        match *unit {
            Unit::Memory { ap, address, .. } => 0xFFFF_FFFF < address && !self.known_port(ap).large,
            _ => false,
        }
    }

    /// Whether an access port is unsettled, and has to be settled before this unit. The unit is one that changes SELECT or reads CFG, an AP
    /// unit, and a write of SELECT or of CTRL/STAT.
    pub fn needs_settle(&self, unit: &Unit) -> bool
        ensures { result ≡ needs_settle self.now unit.now }
    {
        if self.unsettled.is_none() {
            return false;
        }
        match *unit {
            Unit::Memory { ap, .. } => {
                self.needs_cfg(unit) || !self.is_selected(select_value(ap, 0))
            }
            Unit::Ap { .. } => true,
            Unit::Dp { read, addr, .. } => !read && (addr == CTRL_STAT || addr == SELECT),
            Unit::Poll { .. } => false,
        }
    }

    /// Whether the SELECT that was written last has DPBANKSEL 0. No, where none was written.
    pub fn bank_zero(&self) -> bool
        ensures { result ≡ bank_zero self.now }
    {
        match self.select {
            Some(value) => value & DPBANKSEL == 0,
            None => false,
        }
    }

    /// SELECT was written with this value outside the plans. No access port is unsettled.
    pub fn note_select(&mut self, select: u32)
        requires { self.old.unsettled ≡ None }
        ensures { self.new ≡ kept_with_select self.old select }
    {
        self.select = Some(select);
    }

    /// CSW, TAR and its upper word of this access port are no longer known; whether it has large
    /// addresses stays. No access port is unsettled.
    pub fn forget(&mut self, ap: u8)
        requires { self.old.unsettled ≡ None }
        ensures { self.new ≡ forget self.old ap }
    {
        self.forget_port(ap);
    }

    // This is known of the access port now.
    fn note(&mut self, ap: u8, known: Known)
        ensures { self.new ≡ with_known self.old ap known }
    {
        self.ports[usize::from(ap)] = known;
    }

    // CSW, TAR and its upper word of this access port are no longer known.
    fn forget_port(&mut self, ap: u8)
        ensures { self.new ≡ forget self.old ap }
    {
        let known = self.known_port(ap);
        let forgotten = Known {
            csw: None,
            tar: None,
            high: None,
            large: known.large,
        };
        self.note(ap, forgotten);
    }
}
