//! What is run, and how. What a runner does is in the modules `values`, `calling`, `steps`, `controls` and `running`.
ghost use Rattle.std.specs.Prelude.{◌<◌};

use seq_check::Checked;
use std::alloc::Global;

// What is run, and how.
#[derive(Clone, Copy)]
pub(crate) struct LoggedRunner<'a> {
    pub alloc: Global,
    pub set: &'a Checked,
    /// How many microseconds a turn counts as.
    pub turn_us: u32,
    /// How many turns of a loop are shown besides the last.
    pub turns: u32,
    ghost positive: { 0 < turn_us },
}
