//! What the words ask for.
use dap_base::NameText;
use sequence_resolve::Selection;

/// What the words ask for. A program that has not built one of these yet matches on it.
#[derive(Debug, Drop)]
pub enum Command {
    /// `check`: the sequences of the device are checked.
    Check(Selection),
    /// `run`: the sequence is run.
    Run {
        selection: Selection,
        sequence: NameText,
    },
    /// `trace`: the sequence is run, and the exchanges are shown.
    Trace {
        selection: Selection,
        sequence: NameText,
    },
    /// `load`: the sequence is run, and the image of the job is written and read back.
    Load {
        selection: Selection,
        sequence: NameText,
    },
    /// `scan`: the sequence is run, and the components of an access port are listed.
    Scan {
        selection: Selection,
        sequence: NameText,
        /// The number of the access port.
        ap: u8,
    },
    /// `gen`: the job of this number is made and run.
    Gen(u16),
    /// `audit`: the trace of the job is compared with what its probe does.
    Audit,
}
