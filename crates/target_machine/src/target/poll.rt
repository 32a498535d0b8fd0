//! Polls of CTRL/STAT.
ghost use Rattle.std.specs.Prelude.{◌≡◌, ◌≢◌, ◌<◌, ◌^◌};

use super::Target;
use crate::Outcome;

/// How a poll of CTRL/STAT ended: its outcome, `Value(1)` where it matched, `Value(0)` where its turns were used and `Fault` at a
/// fault, and how many reads it made.
#[derive(Clone, Copy, Debug, PartialEq, Eq)]
pub struct PollEnd {
    pub outcome: Outcome,
    pub reads: u32,
}

impl Target {
    ghost use Rattle.target_machine.specs.Attempt.{bank};
    ghost use Rattle.target_machine.specs.Plain.{poll_result};
    ghost use Rattle.target_machine.specs.PollCounts.{is_match, reads_counted, waits};

    // Whether there is a match among so many reads that show what CTRL/STAT shows now.
    fn is_match(&self, mask: u32, requested: u32, reads: u32) -> bool
        ensures { result ≡ is_match self.now mask requested reads }
    {
        reads > 0 && self.ctrl_stat() & mask == requested
    }

    // So many reads of CTRL/STAT.
    fn count_reads(&mut self, count: u32)
        ensures { self.new ≡ reads_counted self.old count }
    {
        self.reads = self.reads.saturating_add(count);
    }

    // How many reads of CTRL/STAT come before the first that acknowledges a power-up.
    fn reads_until_power(&self) -> u32
        ensures value { result ≡ waits self.now }
        ensures power_reads { self.now.power_reads < 2 ^ 32 }
        ensures reads { self.now.reads < 2 ^ 32 }
    {
        self.power_reads.saturating_sub(self.reads)
    }

    // A poll with another DPBANKSEL: what is read is 0.
    fn poll_elsewhere(&self, mask: u32, requested: u32, turns: u32) -> PollEnd
        requires { bank self.now ≢ 0 }
        ensures { record { outcome = result.outcome; reads = result.reads; next = self.now } ≡ poll_result turns mask requested self.now }
    {
        if turns == 0 {
            PollEnd {
                outcome: Outcome::Value(0),
                reads: 0,
            }
        } else if self.sticky {
            PollEnd {
                outcome: Outcome::Fault,
                reads: 1,
            }
        } else if requested == 0 {
            PollEnd {
                outcome: Outcome::Value(1),
                reads: 1,
            }
        } else {
            PollEnd {
                outcome: Outcome::Value(0),
                reads: turns,
            }
        }
    }

    /// Reads CTRL/STAT until its value under the mask is the one that is requested, at most `turns` times. The reads are counted, and
    /// not made one by one: CTRL/STAT shows one value until power-up is acknowledged, and one from then on.
    ///
    /// The outcome is `Value(1)` where a read matched, else `Value(0)`. With another DPBANKSEL than 0 each read gives 0, and nothing
    /// changes. There, where STICKYERR is set, the first read is a `Fault`.
    pub fn poll(&mut self, mask: u32, requested: u32, turns: u32) -> PollEnd
        ensures { record { outcome = result.outcome; reads = result.reads; next = self.new } ≡ poll_result turns mask requested self.old }
    {
        if self.bank() != 0 {
            return self.poll_elsewhere(mask, requested, turns);
        }
        let before = turns.min(self.reads_until_power());
        if self.is_match(mask, requested, before) {
            self.count_reads(1);
            return PollEnd {
                outcome: Outcome::Value(1),
                reads: 1,
            };
        }
        self.count_reads(before);
        let rest = turns - before;
        if self.is_match(mask, requested, rest) {
            self.count_reads(1);
            return PollEnd {
                outcome: Outcome::Value(1),
                reads: before + 1,
            };
        }
        self.count_reads(rest);
        PollEnd {
            outcome: Outcome::Value(0),
            reads: turns,
        }
    }
}
