//! What the layers above need of flights.
ghost use Rattle.std.specs.Prelude.{◌≡◌, ◌+◌, ◌*◌, ◌<◌, ◌≤◌, ℕ, true, false, List, Option};
ghost use Rattle.dap_base.specs.Bits.{has_bit};
ghost use Rattle.target_machine.specs.InRange.{IsInRange};
ghost use Rattle.target_machine.specs.Plain.{Action, Commands, action_attempt, given_number};
ghost use Rattle.target_machine.specs.Registers.{stkerrclr};
ghost use Rattle.target_machine.specs.declared.unit.ProbeCall.{ProbeCall};
ghost use Rattle.target_machine.specs.declared.unit.ProbeCall.TheVariants as probe;
ghost use Rattle.dap_messages.specs.Commands.{IsCommand};
ghost use Rattle.dap_transfer.specs.Lines.{state_after_delay};
ghost use Rattle.dap_transfer.specs.State.{TransferState};
ghost use Rattle.probe_core.specs.Commands.{command_result};
ghost use Rattle.probe_core.specs.Probe.{ExecutorState};
ghost use Rattle.target_machine.specs.declared.access.RegAccess.{RegAccess};
ghost use Rattle.probe_core.specs.Bench.{BenchState};
ghost use Rattle.flight_forms.specs.declared.form.Form.{Form};
ghost use Rattle.batch_packer.specs.Actions.{Acts, command_of, delayed_by, is_one};
ghost use Rattle.batch_packer.specs.Commands.{number_given};
ghost use Rattle.batch_packer.specs.FlightEnds.{whole_part};
ghost use Rattle.batch_packer.specs.Flying.{CanFly, HasFlown, transfers_of};

/// After a flight that came to its end the bench can do another. Match mask and match retry are 0, bit 0 of DPIDR is set, and STICKYERR is
/// clear. The numbers of the target are in range.
pub fn another_flight_may_follow()
    ensures { (form : Form) (accesses : List RegAccess) (values : List (Option ℕ)) (m n : BenchState) → CanFly m
        → HasFlown form accesses (whole_part accesses values) m n → CanFly n }
{}

/// A command of the probe in one packet is its call. What it does is the action (`acts`), and it leaves the settings of the transfers
/// (`setting`). The number that it answers is what the action gives (`number`). One is enough for all but a delay of more than 65,535
/// microseconds.
pub fn a_command_is_its_call()
    ensures acts { (e : ExecutorState) (c : ProbeCall) → is_one c ≡ true → IsCommand (command_of c)
        → Acts (Commands c) e.transfers (command_result e (command_of c)).next.transfers }
    ensures setting { (e : ExecutorState) (c : ProbeCall) → (command_result e (command_of c)).next.transfers.setting ≡ e.transfers.setting }
    ensures number { (e : ExecutorState) (c : ProbeCall)
        → number_given e (command_of c) ≡ given_number (action_attempt e.transfers.line.target (Commands c)).outcome }
{}

/// A delay of more than 65,535 microseconds is several commands, all but the last of 65,535. The state after so many of these is
/// `delayed_by` (`none`, `next`). With the last, which has something left, the whole delay was made (`last`).
pub fn a_delay_is_its_commands()
    ensures none { (p : TransferState) → IsInRange p.line.target → delayed_by p 0 ≡ p }
    ensures next { (p : TransferState) (count : ℕ) → state_after_delay (delayed_by p count) 65535 ≡ delayed_by p (count + 1) }
    ensures last { (p : TransferState) (count rest : ℕ) → rest ≤ 65535 → (0 < count → 0 < rest)
        → Acts (Commands (probe.Delay (65535 * count + rest))) p (state_after_delay (delayed_by p count) rest) }
{}

/// After a poll or a command of the probe a flight may follow (`flies`). A write of ABORT with bit 2 set
/// leaves STICKYERR clear, also where it was set (`clears`).
pub fn a_flight_may_follow_an_action()
    ensures flies { (x : Action) (m n : BenchState) → CanFly m → Acts x (transfers_of m) (transfers_of n) → CanFly n }
    ensures clears { (value : ℕ) (p q : TransferState) → has_bit value stkerrclr ≡ true
        → Acts (Commands (probe.Abort value)) p q → q.line.target.sticky ≡ false }
{}
