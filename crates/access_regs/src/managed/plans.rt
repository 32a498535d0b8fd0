//! The plans of a unit, and settling.
ghost use Rattle.std.specs.Prelude.{◌≡◌, true};
ghost use Rattle.target_machine.specs.Sound.{IsSound, IsSoundMemory};
ghost use Rattle.target_machine.specs.declared.unit.Unit.TheVariants.{Memory};
ghost use Rattle.access_regs.specs.Journal.{port_of};
ghost use Rattle.access_regs.specs.Plan.{cfg_plan, first_plan, needs_cfg, needs_csw, plan, settle};
ghost use Rattle.access_regs.specs.Plans.{accesses_of};

use super::Managed;
use crate::Plan;
use crate::values::{increment_off, is_known, planned_csw, select_value, write_select};
use target_calls::accesses::{access_ap, access_drw, high_of, low_of};
use target_machine::registers::{CFG, CSW, CTRL_STAT, TAR, TAR_HIGH};
use target_machine::{RegAccess, Unit};

impl Managed {
    /// The accesses of a unit in order, except those that are not needed: SELECT, CSW, the upper
    /// word of TAR, TAR, and then the access that the unit is for. Of a poll it is one read. The
    /// unit's sizes, addresses and counts are in their ranges.
    pub fn plan(&self, unit: &Unit) -> Plan
        requires sound { IsSound unit.now }
        ensures { accesses_of result ≡ plan self.now unit.now }
    {
        match *unit {
            Unit::Memory {
                size,
                read,
                ap,
                address,
                value,
            } => self.plan_memory(size, read, ap, address, value),
            Unit::Ap {
                read,
                ap,
                addr,
                value,
            } => {
                let select = select_value(ap, addr / 16);
                Plan::new()
                    .with_unless(self.is_selected(select), write_select(select))
                    .with(access_ap(read, addr % 16, value))
            }
            Unit::Dp { read, addr, value } => Plan::new().with(RegAccess {
                ap: false,
                read,
                addr,
                value: if read { 0 } else { value },
            }),
            Unit::Poll { .. } => Plan::new().with(RegAccess {
                ap: false,
                read: true,
                addr: CTRL_STAT,
                value: 0,
            }),
        }
    }

    // The plan of a memory unit.
    #[tactic(auto, using(target_calls::proofs::CallRanges::lanes_fit, crate::proofs::PlanLemmas::memory_listed))]
    fn plan_memory(&self, size: u8, read: bool, ap: u8, address: u64, value: u32) -> Plan
        requires sound { IsSoundMemory size read address value }
        ensures { accesses_of result ≡ plan self.now (Memory size read ap address value) }
    {
        let known = self.known_port(ap);
        let select = select_value(ap, 0);
        let csw = planned_csw(known.csw.unwrap_or(0), size);
        let high = high_of(address);
        let low = low_of(address);
        let no_high = !known.large || is_known(known.high, high);
        Plan::new()
            .with_unless(self.is_selected(select), write_select(select))
            .with_unless(is_known(known.csw, csw), access_ap(false, CSW, csw))
            .with_unless(no_high, access_ap(false, TAR_HIGH, high))
            .with_unless(is_known(known.tar, low), access_ap(false, TAR, low))
            .with(access_drw(read, address, value))
    }

    /// SELECT with bank 0 where it differs, and a read of CSW. The unit is one for which `needs_csw`
    /// answers yes.
    pub fn first_plan(&self, unit: &Unit) -> Plan
        requires { needs_csw self.now unit.now ≡ true }
        ensures { accesses_of result ≡ first_plan self.now (port_of unit.now) }
    {
        let select = select_value(port_of(unit), 0);
        Plan::new()
            .with_unless(self.is_selected(select), write_select(select))
            .with(access_ap(true, CSW, 0))
    }

    /// SELECT with bank F where it differs, and a read of CFG. The unit is one for which `needs_cfg`
    /// answers yes.
    pub fn cfg_plan(&self, unit: &Unit) -> Plan
        requires { needs_cfg self.now unit.now ≡ true }
        ensures { accesses_of result ≡ cfg_plan self.now (port_of unit.now) }
    {
        let select = select_value(port_of(unit), CFG / 16);
        Plan::new()
            .with_unless(self.is_selected(select), write_select(select))
            .with(access_ap(true, CFG % 16, 0))
    }

    /// CSW with AddrInc off, and TAR at the last unit's address, in this order. No access where no
    /// access port is unsettled.
    pub fn settle(&self) -> Plan
        ensures { accesses_of result ≡ settle self.now }
    {
        match self.unsettled {
            Some(unsettled) => {
                let csw = self.known_port(unsettled.ap).csw.unwrap_or(0);
                Plan::new()
                    .with(access_ap(false, CSW, increment_off(csw)))
                    .with(access_ap(false, TAR, unsettled.tar))
            }
            None => Plan::new(),
        }
    }
}

// The access port of a memory or AP unit.
fn port_of(unit: &Unit) -> u8
    ensures { result ≡ port_of unit.now }
{
    match *unit {
        Unit::Memory { ap, .. } | Unit::Ap { ap, .. } => ap,
        _ => 0,
    }
}
