//! A command of the probe, done at once.
ghost use Rattle.std.specs.Prelude.{◌≡◌, false};
ghost use Rattle.target_machine.specs.Plain.{command_attempt, given_number, is_fault};
ghost use Rattle.target_machine.specs.Sound.{IsSoundProbe};

use super::{Target, attempt};
use crate::registers::ABORT;
use crate::{ProbeCall, RegAccess};

impl Target {
    /// Does a command of the probe at once, and answers the levels of the pins after `DAP_SWJ_Pins`, else 0. A delay adds all its
    /// microseconds to the sum of the delays; a write of ABORT is done whatever STICKYERR is. No command meets a fault.
    #[tactic(auto, using(crate::proofs::CommandLemmas::command_passes))]
    pub fn command(&mut self, call: ProbeCall) -> u32
        requires { IsSoundProbe call }
        ensures value { result ≡ given_number (command_attempt self.old call).outcome }
        ensures passes { is_fault (command_attempt self.old call).outcome ≡ false }
        ensures next { self.new ≡ (command_attempt self.old call).next }
    {
        match call {
            ProbeCall::Delay(micros) => {
                self.delay(micros);
                0
            }
            ProbeCall::Abort(value) => {
                let write = RegAccess {
                    ap: false,
                    read: false,
                    addr: ABORT,
                    value,
                };
                attempt(self, write).number()
            }
            ProbeCall::Pins { output, select, .. } => u32::from(self.pins(output, select)),
            ProbeCall::Clock(hertz) => {
                self.clock(hertz);
                0
            }
            ProbeCall::Line { count, bits } => {
                self.line(count, bits);
                0
            }
        }
    }
}
