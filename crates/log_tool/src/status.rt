//! How a call ends.
ghost use Rattle.std.specs.Prelude.{◌≡◌};
ghost use Rattle.log_tool.specs.Answers.{log_exit_code};

/// How a call of `dapseq_log` ended.
#[derive(Clone, Copy, Debug, PartialEq, Eq)]
pub enum LogStatus {
    /// The run came to its end.
    Done,
    /// The job was refused.
    Refused,
    /// The words ask for nothing.
    Usage,
    /// A rule of the sequences halted the run, or a fault stopped it.
    Stopped,
    /// The source failed.
    ReadFault,
    /// The sink failed.
    WriteFault,
    /// Memory was refused.
    OutOfMemory,
    /// The run came to its end, but it wrote an error, a loop timed out, or `__Result` is not 0. Only with `--fail`.
    Failed,
}

impl LogStatus {
    /// The number with which the program ends: 0, 1, 2, 3, 5, 6, 7 and 10, in the order of the variants.
    pub fn code(&self) -> u8
        ensures { result ≡ log_exit_code self.now }
    {
        match self {
            LogStatus::Done => 0,
            LogStatus::Refused => 1,
            LogStatus::Usage => 2,
            LogStatus::Stopped => 3,
            LogStatus::ReadFault => 5,
            LogStatus::WriteFault => 6,
            LogStatus::OutOfMemory => 7,
            LogStatus::Failed => 10,
        }
    }
}
