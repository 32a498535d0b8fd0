//! A memory access port that is aimed at an address.
ghost use Rattle.std.specs.Prelude.{◌≡◌, ◌<◌, Some, true, false};
ghost use Rattle.std.specs.FinMap as map;

use super::Target;
use crate::ap::{self, ApState, plain_csw};
use crate::registers::{CDBGPWRUPREQ, CSW, TAR};

impl Target {
    ghost use Rattle.target_machine.specs.Attempt.{done_attempt};
    ghost use Rattle.target_machine.specs.Plain.{in_order};
    ghost use Rattle.target_machine.specs.Aim.{aim_actions, aimed_target, can_aim};

    // A port, which is there with these registers, is selected and aimed.
    fn aim_port(&mut self, number: u32, port: ApState, size: u8, address: u32)
        requires few { number < 256 }
        requires there { map.get self.old.aps number ≡ Some port }
        ensures { self.new ≡ aimed_target self.old number port size address }
    {
        let csw = port.register(CSW);
        let sized = port.with_register(CSW, plain_csw(csw, size));
        ap::replace_ap(&mut self.aps, number, sized.with_register(TAR, address));
        self.select = number * 0x100_0000;
        self.rdbuff = csw;
    }

    /// Makes, in one step, the four accesses that lead DRW of an access port to an address in the low 4 GiB:
    /// - a write of SELECT with the port and bank 0;
    /// - a read of CSW;
    /// - a write of CSW with this size (1, 2 or 4 bytes) and no increment;
    /// - a write of TAR.
    ///
    /// `false` where STICKYERR is set, the debug power is not acknowledged, or there is no such port. Nothing has changed then.
    pub fn aim(&mut self, ap: u8, size: u8, address: u32) -> bool
        ensures aims { result ≡ can_aim self.old ap }
        ensures made { result ≡ true → in_order self.old (aim_actions self.old ap size address) ≡ done_attempt self.new }
        ensures same { result ≡ false → self.new ≡ self.old }
    {
        if self.sticky || !self.acknowledges(CDBGPWRUPREQ) {
            return false;
        }
        let number = u32::from(ap);
        let Some(port) = ap::ap_at(&self.aps, number) else {
            return false;
        };
        self.aim_port(number, port, size, address);
        true
    }
}
