//! A job, and why a text is none.
ghost use Rattle.target_machine.specs.InRange.{IsJobInRange};

use dap_base::{ItemList, NameText};
use device_tree::{JobFault, Pack};
use probe_core::BenchJob;
use target_machine::Settings;
use trace_audit::TraceTexts;

/// Words of memory whose values are printed at the end.
#[derive(Clone, Copy, Debug, PartialEq, Eq)]
pub struct WatchItem {
    /// The address of the first word, a multiple of 4.
    pub address: u64,
    /// The number of words, 1 to 65,536, each of which lies in a region.
    pub words: u32,
}

/// What is printed at the end, in order, at most 1,024 items.
pub type Watch = ItemList<WatchItem>;

/// An image of memory that a mode loads.
#[derive(Debug, Drop)]
pub struct ImageJob {
    /// The number of the access port through which it is loaded, 0 where the job has none.
    pub ap: u8,
    /// The text of its Intel HEX records. What it says is not read.
    pub hex: NameText,
}

/// A job: the device pack, how its sequences are run, and the simulated probe and target.
#[derive(Debug, Drop)]
pub struct Job {
    pub pack: Pack,
    pub settings: Settings,
    pub bench: BenchJob,
    pub watch: Watch,
    /// An image of memory, where the job has one.
    pub image: Option<ImageJob>,
    /// Starting values of debug variables, as text, where the job has any. What it says is not read.
    pub dbgconf: Option<NameText>,
    /// The entries of a kept trace, at most 65,536, where the job has one.
    pub trace: Option<TraceTexts>,
    /// Each number of the target fits its register or word.
    pub ghost in_range: { IsJobInRange bench.target },
}

/// Why bytes are no job.
#[derive(Debug, Drop)]
pub enum JobRefusal {
    /// The bytes are no JSON text.
    BadJson,
    /// The JSON value stands for no job; this is its first fault, never `OutOfMemory`.
    Fault(JobFault),
    /// Memory was refused.
    OutOfMemory,
}
