//! How a call ends.
ghost use Rattle.std.specs.Prelude.{◌≡◌};
ghost use Rattle.faults_tool.specs.Answers.{faults_exit_code};

/// How a call of `dapseq_faults` ended.
#[derive(Clone, Copy, Debug, PartialEq, Eq)]
pub enum FaultsStatus {
    /// Each of the sets is valid.
    Done,
    /// There is at least one fault.
    Faulty,
    /// The job was refused, or it has no set of the names.
    Refused,
    /// The words ask for nothing.
    Usage,
    /// The source failed.
    ReadFault,
    /// The sink failed.
    WriteFault,
    /// Memory was refused.
    OutOfMemory,
}

impl FaultsStatus {
    /// The number with which the program ends: 0, 1 for both `Faulty` and `Refused`, 2, 5, 6 and 7, in the order of the
    /// variants.
    pub fn code(&self) -> u8
        ensures { result ≡ faults_exit_code self.now }
    {
        match self {
            FaultsStatus::Done => 0,
            FaultsStatus::Faulty | FaultsStatus::Refused => 1,
            FaultsStatus::Usage => 2,
            FaultsStatus::ReadFault => 5,
            FaultsStatus::WriteFault => 6,
            FaultsStatus::OutOfMemory => 7,
        }
    }
}
